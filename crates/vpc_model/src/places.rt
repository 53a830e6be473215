// Where a packet is.
ghost use Rattle.std.specs.Prelude.{◌≡◌};
ghost use Rattle.vpc_model.specs.Place.{start_of};

use crate::{AttNo, EniNo, FarNo, FirewallNo, NatNo, PeerNo, SubnetNo, VpcNo};

/// Where a packet starts or arrives.
#[derive(Clone, Copy, Debug, PartialEq, Eq)]
pub enum End {
    Interface(EniNo),
    Internet,
    /// A network that isn't described.
    Far(FarNo),
}

/// From where a packet came to the router of a subnet.
#[derive(Clone, Copy, PartialEq, Eq)]
pub enum Came {
    Host(EniNo),
    Nat(NatNo),
    Transit(AttNo),
    Firewall(FirewallNo),
}

/// By what a packet enters a VPC.
#[derive(Clone, Copy, PartialEq, Eq)]
pub enum EnterBy {
    /// Its internet gateway.
    Gateway,
    Peering(PeerNo),
    /// What leads to a network that isn't described.
    Far(FarNo),
}

/// A place of a walk.
#[derive(Clone, Copy, PartialEq, Eq)]
pub enum Place {
    /// Leaving an interface.
    OutOf(EniNo),
    /// At the implicit router of a subnet.
    Router(SubnetNo, Came),
    /// Entering a VPC from a gateway of it or from a peering.
    Enter(VpcNo, EnterBy),
    /// Arriving at an interface.
    Into(EniNo),
    /// At the VPC's internet gateway, on the way out.
    IgwOut(VpcNo),
    Internet,
    /// At the VPC's internet gateway, on the way in.
    IgwIn(VpcNo),
    /// At a NAT gateway, on the way out.
    NatOut(NatNo),
    /// At a NAT gateway, on the way back.
    NatIn(NatNo),
    /// On a peering, sent from this VPC.
    Peer(PeerNo, VpcNo),
    /// Entering a transit gateway by an attachment, through this subnet.
    Tgw(AttNo, SubnetNo),
    /// Leaving a transit gateway by an attachment, having entered through this subnet.
    TgwLeave(AttNo, SubnetNo),
    /// On the way into a network that isn't described.
    FarOut(FarNo),
    /// On the way from a network that isn't described.
    FarIn(FarNo),
    /// At a firewall endpoint.
    Inspect(FirewallNo),
}

impl Default for Place {
    fn default() -> Self {
        Place::Internet
    }
}

/// Where the walk of a packet from this end begins.
pub fn start_place(end: &End) -> Place
    ensures { result ≡ start_of end.now }
{
    match end {
        End::Interface(eni) => Place::OutOf(*eni),
        End::Internet => Place::Internet,
        End::Far(far) => Place::FarIn(*far),
    }
}
