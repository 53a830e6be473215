// Texts of stops, rules and protocols.
ghost use Rattle.report_examples.specs.Stops.{PrintsInterfaceStops, PrintsGatewayStops, PrintsTransitStops, PrintsOutsideStops, PrintsWalkStops, PrintsRules, PrintsProtocols, PrintsRefusals};

/// Stops at interfaces, route tables and ACLs.
pub fn prints_stops_at_interfaces()
    ensures { PrintsInterfaceStops }
{}

/// Stops at gateways and peerings.
pub fn prints_stops_at_gateways()
    ensures { PrintsGatewayStops }
{}

/// Stops at transit gateways, and beyond what is followed.
pub fn prints_stops_at_transit_gateways()
    ensures { PrintsTransitStops }
{}

/// Stops at networks that aren't described and at firewall endpoints.
pub fn prints_stops_outside()
    ensures { PrintsOutsideStops }
{}

/// Stops of whole walks.
pub fn prints_stops_of_walks()
    ensures { PrintsWalkStops }
{}

/// Rules by number and by id.
pub fn prints_rules()
    ensures { PrintsRules }
{}

/// Protocols by name and by number.
pub fn prints_protocols()
    ensures { PrintsProtocols }
{}

/// Refusals of a description.
pub fn prints_refusals()
    ensures { PrintsRefusals }
{}
