// Why a description is refused.
ghost use Rattle.std.specs.Prelude.{◌≡◌};
ghost use Rattle.vpc_model.specs.declared.refusals.Refusal.TheVariants.{Memory};

use crate::Id;
use std::alloc::{AllocError, AllocFailed};
use vpc_base::NoMemory;

/// The lists of a bundle from which rows are kept, in the order in which they are read.
/// `PrefixLists` stands for `PrefixListEntries` too.
#[derive(Clone, Copy, Debug, PartialEq, Eq)]
pub enum ListName {
    Vpcs,
    Subnets,
    NetworkInterfaces,
    RouteTables,
    PrefixLists,
    NetworkAcls,
    SecurityGroups,
    InternetGateways,
    NatGateways,
    VpcPeeringConnections,
    TransitGatewayVpcAttachments,
    TransitGatewayAttachments,
    TransitGatewayRoutes,
    Appliances,
    VpnGateways,
    VpcEndpoints,
}

/// Why the rows of a description don't make a network. Only the first cause of a description is told.
#[derive(Drop)]
pub enum Refusal {
    /// Two rows of one list have this id.
    DuplicateId(Id),
    /// The first row names the second, which isn't described, or isn't where it must be.
    MissingReference(Id, Id),
    /// The address stands twice among the private addresses of the VPC.
    DuplicateAddress(Id, u32),
    /// The address stands twice among all public addresses.
    DuplicatePublic(u32),
    /// The subnet has no route table, and its VPC no main one.
    NoRouteTable(Id),
    /// The subnet has no network ACL.
    NoAcl(Id),
    /// Two internet gateways are attached to the VPC.
    TwoInternetGateways(Id),
    /// The subnet has two route tables, or the VPC two main ones.
    TwoTables(Id),
    /// The subnet has two network ACLs.
    TwoAcls(Id),
    /// More than 100,000 rows were kept of the list, or stand in one of its rows.
    TooManyRows(ListName),
    /// Memory was refused.
    Memory,
}

impl From<NoMemory> for Refusal {
    ghost from_gives = { λ _ r. r ≡ Memory };

    fn from(_error: NoMemory) -> Refusal {
        Refusal::Memory
    }
}

impl From<AllocError> for Refusal {
    ghost from_gives = { λ _ r. r ≡ Memory };

    fn from(_error: AllocError) -> Refusal {
        Refusal::Memory
    }
}

impl<T: Drop> From<AllocFailed<T>> for Refusal {
    ghost from_gives = { λ _ r. r ≡ Memory };

    fn from(_error: AllocFailed<T>) -> Refusal {
        Refusal::Memory
    }
}
