//! The rows of a described network, and the places, stops and verdicts of packets in it.
//!
//! The definitions of what packets do stand in `specs/`, one module for each subject.
#![tactic(auto)]

mod appliances;
mod filters;
mod ids;
mod numbers;
mod outcomes;
mod places;
mod refusals;
mod rows;
mod same;
mod stop_texts;
mod stops;

pub use filters::{far_address, is_between, matches_proto};
pub use ids::Id;
pub use numbers::{
    AclNo, AttNo, EniNo, FarNo, FirewallNo, GroupNo, IgwNo, NatNo, PeerNo, SubnetNo, TableNo,
    TgwTableNo, VpcNo,
};
pub use outcomes::{By, Event, Hop, Outcome, Phase, RuleRef, Verdict};
pub use places::{Came, End, EnterBy, Place, start_place};
pub use refusals::{ListName, Refusal};
pub use rows::{
    Access, Acl, AclRow, Appliance, ApplianceAt, ApplianceKind, Association, Attachment,
    Description, Far, FarKind, FirewallEndpoint, Group, GroupScope, GroupVpc, Interface,
    InterfaceKind, InternetGateway, NatGateway, NatLife, Peering, Permission, PrefixList, Reach,
    Route, RouteTable, Subnet, Target, TgwRoute, TgwTable, Vpc,
};
pub use same::{same_stop, same_verdict};
pub use stop_texts::StopText;
pub use stops::{Component, Foreign, Stop, StopName, StopRule};
