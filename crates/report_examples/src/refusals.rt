// Texts of refusals and of replays.
ghost use Rattle.report_examples.specs.Refusals.{PrintsGatewayListNames, PrintsListNames, PrintsQueryRefusals, PrintsReplay};

/// Lists that are too long, by their names in a bundle.
pub fn prints_list_names()
    ensures { PrintsListNames }
{}

/// Lists of gateways, attachments and appliances.
pub fn prints_gateway_list_names()
    ensures { PrintsGatewayListNames }
{}

/// Refusals of a query or packet.
pub fn prints_query_refusals()
    ensures { PrintsQueryRefusals }
{}

/// The packets of a replay.
pub fn prints_a_replay()
    ensures { PrintsReplay }
{}
