// The rows of a description: what the EC2 describe calls print, as far as it decides where packets go.
use crate::Id;
use prefix_text::Prefix;
use vpc_base::OwnList;

/// What Block Public Access lets past internet gateways: the InternetGatewayBlockMode of BlockPublicAccessStates
/// (DescribeVpcs, DescribeSubnets).
#[derive(Clone, Copy, PartialEq, Eq)]
pub enum Access {
    /// All.
    Off,
    /// What NAT gateways carry alone.
    BlockIngress,
    /// Nothing.
    BlockBidirectional,
}

/// A VPC with its IPv4 blocks (DescribeVpcs).
#[derive(Drop)]
pub struct Vpc {
    pub id: Id,
    pub blocks: OwnList<Prefix>,
    /// The mode of its subnets that have none of their own, if it is told.
    pub access: Option<Access>,
}

/// A subnet with its availability zone (DescribeSubnets).
#[derive(Drop)]
pub struct Subnet {
    pub id: Id,
    pub vpc: Id,
    pub zone: Id,
    /// Its own mode, if it is told.
    pub access: Option<Access>,
}

/// Whether packets may be sent to an interface by its address alone.
#[derive(Clone, Copy, PartialEq, Eq)]
pub enum InterfaceKind {
    Host,
    /// The interface belongs to a NAT gateway or a transit gateway.
    Gateway,
}

/// A network interface (DescribeNetworkInterfaces).
#[derive(Drop)]
pub struct Interface {
    pub id: Id,
    pub subnet: Id,
    /// The primary private address.
    pub primary: Option<u32>,
    /// The private addresses, each with its public address if it has one.
    pub addresses: OwnList<(u32, Option<u32>)>,
    /// The blocks that are delegated to it: their addresses are its own as well, none of them with a public one.
    pub prefixes: OwnList<Prefix>,
    pub groups: OwnList<Id>,
    /// Whether the source/destination check is on.
    pub checked: bool,
    /// Whether the interface is attached to nothing.
    pub idle: bool,
    pub kind: InterfaceKind,
}

/// Which destinations a route serves.
#[derive(Drop)]
pub enum Reach {
    Block(Prefix),
    /// The entries of the prefix list with this id.
    List(Id),
}

/// Where a route leads.
#[derive(Drop)]
pub enum Target {
    Local,
    Internet(Id),
    Nat(Id),
    Transit(Id),
    Peer(Id),
    Interface(Id),
    /// A target that isn't followed, such as a VPC endpoint.
    Other(Id),
}

/// A row of a route table.
#[derive(Drop)]
pub struct Route {
    pub reach: Reach,
    pub target: Target,
    /// Whether the target is gone.
    pub blackhole: bool,
    /// Whether a virtual private gateway put the route there.
    pub propagated: bool,
}

/// A route table with the subnets and gateways that are associated with it (DescribeRouteTables).
#[derive(Drop)]
pub struct RouteTable {
    pub id: Id,
    pub vpc: Id,
    /// Whether it serves the subnets of its VPC that are associated with no table.
    pub main: bool,
    pub subnets: OwnList<Id>,
    /// The internet gateways and virtual private gateways whose packets it routes as they come in.
    pub gateways: OwnList<Id>,
    pub routes: OwnList<Route>,
}

/// A list of blocks that routes and rules name (DescribePrefixLists).
#[derive(Drop)]
pub struct PrefixList {
    pub id: Id,
    pub entries: OwnList<Prefix>,
}

/// A row of a network ACL. `q_from` and `q_to` are destination ports or, for ICMP, 256 times the type
/// plus the code.
#[derive(Clone, Copy, PartialEq, Eq)]
pub struct AclRow {
    /// Rows are tried by ascending number.
    pub number: u16,
    pub outward: bool,
    pub allow: bool,
    /// None for all protocols.
    pub proto: Option<u8>,
    pub q_from: u16,
    pub q_to: u16,
    /// The sources of inbound packets, or the destinations of outbound ones.
    pub block: Prefix,
}

/// A network ACL with the subnets that are associated with it (DescribeNetworkAcls).
#[derive(Drop)]
pub struct Acl {
    pub id: Id,
    pub subnets: OwnList<Id>,
    pub rows: OwnList<AclRow>,
}

/// A rule of a security group, with all its sources or destinations. `q_from` and `q_to` are as in an
/// ACL row.
#[derive(Drop)]
pub struct Permission {
    /// The id of the rule (DescribeSecurityGroupRules), where the rule was told by that call.
    pub id: Option<Id>,
    /// None for all protocols.
    pub proto: Option<u8>,
    pub q_from: u16,
    pub q_to: u16,
    pub blocks: OwnList<Prefix>,
    /// Prefix lists by id.
    pub lists: OwnList<Id>,
    /// Security groups by id, whose members are meant.
    pub groups: OwnList<Id>,
}

/// A security group (DescribeSecurityGroups).
#[derive(Drop)]
pub struct Group {
    pub id: Id,
    pub vpc: Id,
    pub inward: OwnList<Permission>,
    pub outward: OwnList<Permission>,
}

/// An internet gateway with the VPCs to which it is attached (DescribeInternetGateways).
#[derive(Drop)]
pub struct InternetGateway {
    pub id: Id,
    pub vpcs: OwnList<Id>,
}

/// Whether a NAT gateway translates packets.
#[derive(Drop)]
pub enum NatLife {
    /// It isn't available.
    Gone,
    /// It has no subnet.
    Unmodelled,
    Live {
        subnet: Id,
        eni: Id,
        /// Its private address.
        address: u32,
    },
}

/// A NAT gateway (DescribeNatGateways).
#[derive(Drop)]
pub struct NatGateway {
    pub id: Id,
    pub life: NatLife,
}

/// A VPC peering connection (DescribeVpcPeeringConnections).
#[derive(Drop)]
pub struct Peering {
    pub id: Id,
    /// The two VPCs, where it is active.
    pub pair: Option<(Id, Id)>,
}

/// The attachment of a VPC to a transit gateway (DescribeTransitGatewayVpcAttachments).
#[derive(Drop)]
pub struct Attachment {
    pub id: Id,
    pub gateway: Id,
    pub vpc: Id,
    /// At most one for each zone.
    pub subnets: OwnList<Id>,
}

/// The table that an attachment's packets are routed by (DescribeTransitGatewayAttachments).
#[derive(Drop)]
pub struct Association {
    pub attachment: Id,
    pub table: Id,
}

/// A row of a transit gateway route table.
#[derive(Drop)]
pub struct TgwRoute {
    pub block: Prefix,
    pub blackhole: bool,
    pub propagated: bool,
    pub attachment: Option<Id>,
}

/// A transit gateway route table (SearchTransitGatewayRoutes).
#[derive(Drop)]
pub struct TgwTable {
    pub id: Id,
    pub routes: OwnList<TgwRoute>,
}

/// What a middlebox appliance forwards. It keeps no connections.
#[derive(Drop)]
pub enum ApplianceKind {
    All,
    Nothing,
    /// TCP and UDP to or from the ports of a range, both ends included.
    Service(u16, u16),
    /// Packets from or to a block.
    Peer(Prefix),
}

/// Where a middlebox appliance stands.
#[derive(Clone, Copy, PartialEq, Eq)]
pub enum ApplianceAt {
    /// At an interface whose machine forwards packets that aren't for its own addresses.
    Interface,
    /// Behind a firewall endpoint.
    Endpoint,
}

/// What forwards packets at an interface or behind a firewall endpoint. AWS describes no such thing: a bundle's `Appliances`
/// are written by hand.
#[derive(Drop)]
pub struct Appliance {
    /// The id of the interface, or of the endpoint.
    pub id: Id,
    pub at: ApplianceAt,
    pub kind: ApplianceKind,
}

/// What leads to a network of which no bundle tells.
#[derive(Drop)]
pub enum FarKind {
    /// A virtual private gateway, with the VPC that it is attached to if it is to one (DescribeVpnGateways).
    PrivateGateway(Option<Id>),
    /// An attachment of a transit gateway, with the VPC if it is a VPC's (DescribeTransitGatewayAttachments).
    Attachment(Option<Id>),
    /// An active peering, with the blocks of its two VPCs, the requester's first (DescribeVpcPeeringConnections).
    Peering(OwnList<Prefix>, OwnList<Prefix>),
    /// A gateway endpoint of a VPC, behind which a service is (DescribeVpcEndpoints).
    Endpoint(Id),
}

/// A network that isn't described, by what leads there.
#[derive(Drop)]
pub struct Far {
    /// The id of what leads there.
    pub id: Id,
    pub kind: FarKind,
}

/// An endpoint that sends packets through a firewall: of a Gateway Load Balancer or of Network Firewall
/// (DescribeVpcEndpoints).
#[derive(Drop)]
pub struct FirewallEndpoint {
    pub id: Id,
    pub vpc: Id,
    pub subnet: Id,
}

/// A VPC to which a security group of another VPC belongs as well (DescribeSecurityGroupVpcAssociations).
#[derive(Drop)]
pub struct GroupVpc {
    pub group: Id,
    pub vpc: Id,
}

/// Where security groups count beside their own VPC.
pub struct GroupScope {
    /// The transit gateways over which rules may name groups (DescribeTransitGateways).
    pub gateways: OwnList<Id>,
    /// The attachments that let them do so (DescribeTransitGatewayVpcAttachments).
    pub attachments: OwnList<Id>,
    /// The further VPCs of groups.
    pub vpcs: OwnList<GroupVpc>,
}

impl Drop for GroupScope {
    fn drop(self) {
        let GroupScope {
            gateways,
            attachments,
            vpcs,
        } = self;
        drop(gateways);
        drop(attachments);
        drop(vpcs);
    }
}

/// A whole described network.
pub struct Description {
    pub vpcs: OwnList<Vpc>,
    pub subnets: OwnList<Subnet>,
    pub interfaces: OwnList<Interface>,
    pub tables: OwnList<RouteTable>,
    pub lists: OwnList<PrefixList>,
    pub acls: OwnList<Acl>,
    pub groups: OwnList<Group>,
    pub igws: OwnList<InternetGateway>,
    pub nats: OwnList<NatGateway>,
    pub peerings: OwnList<Peering>,
    pub attachments: OwnList<Attachment>,
    pub associations: OwnList<Association>,
    pub tgw_tables: OwnList<TgwTable>,
    pub appliances: OwnList<Appliance>,
    pub fars: OwnList<Far>,
    pub firewalls: OwnList<FirewallEndpoint>,
    pub scope: GroupScope,
}

impl Drop for Description {
    fn drop(self) {
        let Description {
            vpcs,
            subnets,
            interfaces,
            tables,
            lists,
            acls,
            groups,
            igws,
            nats,
            peerings,
            attachments,
            associations,
            tgw_tables,
            appliances,
            fars,
            firewalls,
            scope,
        } = self;
        drop(vpcs);
        drop(subnets);
        drop(interfaces);
        drop(tables);
        drop(lists);
        drop(acls);
        drop(groups);
        drop(igws);
        drop(nats);
        drop(peerings);
        drop(attachments);
        drop(associations);
        drop(tgw_tables);
        drop(appliances);
        drop(fars);
        drop(firewalls);
        drop(scope);
    }
}
