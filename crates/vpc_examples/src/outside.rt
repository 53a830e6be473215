// Networks that aren't described, and firewall endpoints.
ghost use Rattle.vpc_examples.specs.Outside.{AnswersComeBackFromServices, AttachmentsLeadOut, DescribedVpcsAreNoFarEnds, EndpointsLeadOut, EndpointsServeNatGateways, EndpointsServeTheirVpc, EntrancesAskTables, FirewallsAreOnTheWay, GatewaysLeadOut, NatGatewaysTakeAnswersOfServices, OutsideIsAccepted, PeeringsLeadOut};

/// The networks of these rows are accepted.
pub fn accepts_networks_outside()
    ensures { OutsideIsAccepted }
{}

/// Virtual private gateways.
pub fn gateways_lead_out()
    ensures { GatewaysLeadOut }
{}

/// Attachments of transit gateways to what is no VPC.
pub fn attachments_lead_out()
    ensures { AttachmentsLeadOut }
{}

/// An attachment of a described VPC whose row is missing leads to no network.
pub fn described_vpcs_are_no_far_ends()
    ensures { DescribedVpcsAreNoFarEnds }
{}

/// Peerings with VPCs that aren't described.
pub fn peerings_lead_out()
    ensures { PeeringsLeadOut }
{}

/// Gateway endpoints.
pub fn endpoints_lead_out()
    ensures { EndpointsLeadOut }
{}

/// What a service answers.
pub fn answers_come_back_from_services()
    ensures { AnswersComeBackFromServices }
{}

/// A gateway endpoint serves hosts of its VPC alone.
pub fn endpoints_serve_their_vpc()
    ensures { EndpointsServeTheirVpc }
{}

/// It serves a NAT gateway there.
pub fn endpoints_serve_nat_gateways()
    ensures { EndpointsServeNatGateways }
{}

/// The answer comes back by the NAT gateway.
pub fn nat_gateways_take_answers_of_services()
    ensures { NatGatewaysTakeAnswersOfServices }
{}

/// Firewall endpoints, there and back.
pub fn firewalls_are_on_the_way()
    ensures { FirewallsAreOnTheWay }
{}

/// Where gateways have tables, these decide.
pub fn entrances_ask_tables()
    ensures { EntrancesAskTables }
{}
