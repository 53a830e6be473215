//! What security groups allow: the first rule of an interface's groups that allows a packet, by rules whose
//! references were resolved once.
#![tactic(auto)]

mod alike;
mod asked;
mod asking;
mod attached;
mod building;
mod delegated;
mod groups;
mod ids;
mod index;
mod joined_rules;
mod lists;
mod members;
mod naming;
mod on_images;
mod once;
mod peers;
mod port_tables;
mod rules;
mod runs_on;
mod sets;
mod sharing;
mod tables;
mod transit;
mod vpcs;

pub use alike::AlikeGroups;
pub use groups::GroupRules;
pub use index::GroupIndex;
pub use rules::Rule;
pub use tables::RuleTable;
