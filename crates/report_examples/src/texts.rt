// What is printed of packets in small networks.
ghost use Rattle.report_examples.specs.Printed.{PrintsRequestAndReply, PrintsNatRoundTrip, PrintsLoop, PrintsPeering, PrintsStray, PrintsStops};
ghost use Rattle.report_examples.specs.Reported.{PrintsReachable, StopsAreTold, PrintsReport, PrintsReplies, PrintsMore};

/// The hops of a request between two subnets, and of its reply.
pub fn prints_request_and_reply()
    ensures { PrintsRequestAndReply }
{}

/// The hops of a request through a NAT gateway, and of its reply.
pub fn prints_nat_round_trip()
    ensures { PrintsNatRoundTrip }
{}

/// The hops of a packet that two transit tables send to each other.
pub fn prints_a_loop()
    ensures { PrintsLoop }
{}

/// The hops of a packet over a peering.
pub fn prints_a_peering()
    ensures { PrintsPeering }
{}

/// An answer that belongs to no connection.
pub fn prints_a_stray_answer()
    ensures { PrintsStray }
{}

/// A stop with its component and rule.
pub fn prints_stops()
    ensures { PrintsStops }
{}

/// The answer to a query with a header that gets through.
pub fn prints_a_reachable_header()
    ensures { PrintsReachable }
{}

/// What stops a request, and what stops a reply.
pub fn tells_what_stops()
    ensures { StopsAreTold }
{}

/// A report of one box.
pub fn prints_a_report()
    ensures { PrintsReport }
{}

/// A report of rows whose replies are stopped.
pub fn prints_stopped_replies()
    ensures { PrintsReplies }
{}

/// Boxes that leave headers out.
pub fn prints_more_boxes()
    ensures { PrintsMore }
{}
