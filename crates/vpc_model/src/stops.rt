// Why a packet is stopped.
ghost use Rattle.std.specs.Prelude.{◌≡◌};
ghost use Rattle.vpc_model.specs.Told.{component_of, name_of, parts_of, rule_of};

use crate::{
    AclNo, AttNo, End, EniNo, FarNo, FirewallNo, IgwNo, NatNo, PeerNo, Place, SubnetNo, TableNo,
    TgwTableNo, VpcNo,
};

/// What leads out of the networks that are followed.
#[derive(Clone, Copy, PartialEq, Eq)]
pub enum Foreign {
    /// The target of a route, by its table and its number there, from 0.
    Target(TableNo, u32),
    /// A NAT gateway without a subnet.
    Nat(NatNo),
    /// A peering to a VPC that isn't described.
    Peering(PeerNo),
    /// A transit gateway attachment without a subnet to leave by.
    Attachment(AttNo),
    /// A transit gateway table one of whose routes has no attachment.
    Table(TgwTableNo),
    /// An attachment that isn't described, by the transit gateway route that names it.
    FarAttachment(TgwTableNo, u32),
}

/// Why and where a packet is stopped. A route is carried by its table and its number there, from 0; an
/// ACL row by its ACL and its rule number; `Loop` and `TooFar` by the place that would come next.
#[derive(Clone, Copy)]
pub enum Stop {
    /// The interface isn't attached to an instance.
    Detached(EniNo),
    /// The source/destination check: the source is no address of the sending interface.
    SourceCheck(EniNo),
    /// The source/destination check: the destination is no address of the receiving interface.
    DestCheck(EniNo),
    /// No outbound rule of the interface's security groups allows the packet.
    GroupsOut(EniNo),
    /// No inbound rule of the interface's security groups allows the packet.
    GroupsIn(EniNo),
    /// The interface belongs to a gateway that hosts nothing.
    NotAHost(EniNo),
    /// A middlebox appliance drops the packet.
    ApplianceDrop(EniNo),
    NoRoute(TableNo),
    /// The route's target is gone.
    Blackhole(TableNo, u32),
    /// The network ACL refuses the packet as it leaves a subnet.
    AclOut(AclNo, u16),
    /// The network ACL refuses the packet as it enters a subnet.
    AclIn(AclNo, u16),
    /// No interface of the VPC has the destination address.
    NoHost(VpcNo),
    /// The VPC of a public address has no internet gateway.
    NoGateway(VpcNo),
    /// The route's internet gateway isn't attached to the VPC.
    GatewayDetached(IgwNo),
    /// The source has no public address.
    NoPublic(IgwNo),
    /// The internet carries no packet from or to such an address.
    PrivateAddress,
    /// Block Public Access stops what interfaces of the subnet send to the internet or get from it.
    BlockPublicAccess(SubnetNo),
    NatNotAvailable(NatNo),
    /// A NAT gateway translates only first packets outward.
    NatAnswer(NatNo),
    /// A NAT gateway translates TCP, UDP and ICMP alone.
    NatProtocol(NatNo),
    /// A NAT gateway has no port left towards this destination.
    NatFull(NatNo),
    /// A NAT gateway lets in only answers to what it sent out.
    NatUnsolicited(NatNo),
    PeerNotActive(PeerNo),
    /// The source lies in no block of the sending VPC.
    PeerSource(PeerNo),
    /// The destination lies in no block of the peer.
    PeerDestination(PeerNo),
    /// The transit gateway of a route has no attachment to the VPC.
    TgwNoAttachment(TableNo, u32),
    /// The attachment has no subnet in the sender's zone.
    TgwNoZone(AttNo),
    /// The attachment is associated with no described table.
    TgwNoTable(AttNo),
    TgwNoRoute(TgwTableNo),
    TgwBlackhole(TgwTableNo, u32),
    /// The virtual private gateway isn't attached to the VPC.
    FarDetached(FarNo),
    /// The attachment from which the packet comes is associated with no described table.
    FarNoTable(FarNo),
    /// The source lies in no block of the gateway endpoint's VPC.
    FarSource(FarNo),
    /// A gateway endpoint opens no connections.
    FarOpens(FarNo),
    /// The firewall behind an endpoint drops the packet.
    InspectDrop(FirewallNo),
    /// The packet leaves the networks that are followed.
    Unmodelled(Foreign),
    /// The packet would come to a place for the second time.
    Loop(Place),
    /// The packet would come to a 65th place.
    TooFar(Place),
    /// The request arrived at another end than the target.
    WrongPlace(End),
    /// The reply arrived at another end than the start, or changed.
    WrongReturn(End),
    /// What arrived at the target has no reply.
    NoReply(End),
}

/// The name of a stop, without what it carries.
#[derive(Clone, Copy, PartialEq, Eq)]
pub enum StopName {
    Detached,
    SourceCheck,
    DestCheck,
    GroupsOut,
    GroupsIn,
    NotAHost,
    ApplianceDrop,
    NoRoute,
    Blackhole,
    AclOut,
    AclIn,
    NoHost,
    NoGateway,
    GatewayDetached,
    NoPublic,
    PrivateAddress,
    BlockPublicAccess,
    NatNotAvailable,
    NatAnswer,
    NatProtocol,
    NatFull,
    NatUnsolicited,
    PeerNotActive,
    PeerSource,
    PeerDestination,
    TgwNoAttachment,
    TgwNoZone,
    TgwNoTable,
    TgwNoRoute,
    TgwBlackhole,
    FarDetached,
    FarNoTable,
    FarSource,
    FarOpens,
    InspectDrop,
    Unmodelled,
    Loop,
    TooFar,
    WrongPlace,
    WrongReturn,
    NoReply,
}

/// The component that stops a packet, as it is told.
#[derive(Clone, Copy, PartialEq, Eq)]
pub enum Component {
    Interface(EniNo),
    Table(TableNo),
    /// The target of a route, by its table and its number there, from 0.
    Target(TableNo, u32),
    Acl(AclNo),
    Vpc(VpcNo),
    Subnet(SubnetNo),
    InternetGateway(IgwNo),
    NatGateway(NatNo),
    Peering(PeerNo),
    Attachment(AttNo),
    TransitTable(TgwTableNo),
    Foreign(Foreign),
    Place(Place),
    End(End),
}

/// The rule of the component that stops a packet, where one does.
#[derive(Clone, Copy, PartialEq, Eq)]
pub enum StopRule {
    None,
    /// The number of an ACL's row.
    AclRow(u16),
    /// A route, by its table and its number there, from 0.
    Route(TableNo, u32),
    /// A route of a transit gateway's table, likewise.
    TransitRoute(TgwTableNo, u32),
    /// What Block Public Access lets past internet gateways from and to a subnet.
    Access(SubnetNo),
}

impl Stop {
    /// Its name, the component and the rule that stop the packet: all that it carries.
    pub fn parts(&self) -> (StopName, Component, StopRule)
        ensures { result ≡ parts_of self.now }
    {
        use Component as at;
        use StopName as is;
        use StopRule as by;
        match *self {
            Stop::Detached(i) => (is::Detached, at::Interface(i), by::None),
            Stop::SourceCheck(i) => (is::SourceCheck, at::Interface(i), by::None),
            Stop::DestCheck(i) => (is::DestCheck, at::Interface(i), by::None),
            Stop::GroupsOut(i) => (is::GroupsOut, at::Interface(i), by::None),
            Stop::GroupsIn(i) => (is::GroupsIn, at::Interface(i), by::None),
            Stop::NotAHost(i) => (is::NotAHost, at::Interface(i), by::None),
            Stop::ApplianceDrop(i) => (is::ApplianceDrop, at::Interface(i), by::None),
            Stop::NoRoute(t) => (is::NoRoute, at::Table(t), by::None),
            Stop::Blackhole(t, k) => (is::Blackhole, at::Table(t), by::Route(t, k)),
            Stop::AclOut(a, n) => (is::AclOut, at::Acl(a), by::AclRow(n)),
            Stop::AclIn(a, n) => (is::AclIn, at::Acl(a), by::AclRow(n)),
            Stop::NoHost(v) => (is::NoHost, at::Vpc(v), by::None),
            Stop::NoGateway(v) => (is::NoGateway, at::Vpc(v), by::None),
            Stop::GatewayDetached(g) => (is::GatewayDetached, at::InternetGateway(g), by::None),
            Stop::NoPublic(g) => (is::NoPublic, at::InternetGateway(g), by::None),
            Stop::PrivateAddress => (is::PrivateAddress, at::End(End::Internet), by::None),
            Stop::BlockPublicAccess(s) => (is::BlockPublicAccess, at::Subnet(s), by::Access(s)),
            Stop::NatNotAvailable(g) => (is::NatNotAvailable, at::NatGateway(g), by::None),
            Stop::NatAnswer(g) => (is::NatAnswer, at::NatGateway(g), by::None),
            Stop::NatProtocol(g) => (is::NatProtocol, at::NatGateway(g), by::None),
            Stop::NatFull(g) => (is::NatFull, at::NatGateway(g), by::None),
            Stop::NatUnsolicited(g) => (is::NatUnsolicited, at::NatGateway(g), by::None),
            Stop::PeerNotActive(x) => (is::PeerNotActive, at::Peering(x), by::None),
            Stop::PeerSource(x) => (is::PeerSource, at::Peering(x), by::None),
            Stop::PeerDestination(x) => (is::PeerDestination, at::Peering(x), by::None),
            Stop::TgwNoAttachment(t, k) => (is::TgwNoAttachment, at::Target(t, k), by::None),
            Stop::TgwNoZone(a) => (is::TgwNoZone, at::Attachment(a), by::None),
            Stop::TgwNoTable(a) => (is::TgwNoTable, at::Attachment(a), by::None),
            Stop::TgwNoRoute(t) => (is::TgwNoRoute, at::TransitTable(t), by::None),
            Stop::TgwBlackhole(t, k) => (
                is::TgwBlackhole,
                at::TransitTable(t),
                by::TransitRoute(t, k),
            ),
            Stop::FarDetached(k) => (is::FarDetached, at::End(End::Far(k)), by::None),
            Stop::FarNoTable(k) => (is::FarNoTable, at::End(End::Far(k)), by::None),
            Stop::FarSource(k) => (is::FarSource, at::End(End::Far(k)), by::None),
            Stop::FarOpens(k) => (is::FarOpens, at::End(End::Far(k)), by::None),
            Stop::InspectDrop(e) => (is::InspectDrop, at::Place(Place::Inspect(e)), by::None),
            Stop::Unmodelled(f) => (is::Unmodelled, at::Foreign(f), by::None),
            Stop::Loop(p) => (is::Loop, at::Place(p), by::None),
            Stop::TooFar(p) => (is::TooFar, at::Place(p), by::None),
            Stop::WrongPlace(e) => (is::WrongPlace, at::End(e), by::None),
            Stop::WrongReturn(e) => (is::WrongReturn, at::End(e), by::None),
            Stop::NoReply(e) => (is::NoReply, at::End(e), by::None),
        }
    }

    /// Its name, without what it carries.
    pub fn name(&self) -> StopName
        ensures { result ≡ name_of self.now }
    {
        self.parts().0
    }

    /// The component that stops the packet.
    pub fn component(&self) -> Component
        ensures { result ≡ component_of self.now }
    {
        self.parts().1
    }

    /// The rule of the component that stops the packet.
    pub fn rule(&self) -> StopRule
        ensures { result ≡ rule_of self.now }
    {
        self.parts().2
    }
}
