// Laws of NAT gateways.
ghost use Rattle.vpc_laws.specs.Translations.{AnswerFindsItsOpen, FreePortIsFree, FullGatewayStops, InwardAnswersOpens, KnownOpenIsReused, NothingIsInOrder, RoomyGatewayTranslates, StepKeepsBook};

/// A gateway finds a port while its translations towards a destination are fewer than the ports.
pub fn finds_a_free_port()
    ensures { FreePortIsFree }
{}

/// Where nothing is translated yet, all is in order.
pub fn begins_in_order()
    ensures { NothingIsInOrder }
{}

/// A step keeps the translations in order: no two of a gateway share a translated port towards one
/// destination, and each changes the source and p alone.
pub fn keeps_translations_in_order()
    ensures { StepKeepsBook }
{}

/// An answer that comes back to a gateway reaches the host whose open it answers.
pub fn answer_finds_its_open()
    ensures { AnswerFindsItsOpen }
{}

/// An open that was translated before gets the same port again.
pub fn reuses_a_translation()
    ensures { KnownOpenIsReused }
{}

/// A gateway keeps 55,000 translations towards one destination.
pub fn stops_at_a_full_gateway()
    ensures { FullGatewayStops }
{}

/// Below that it translates each new open.
pub fn translates_while_there_is_room()
    ensures { RoomyGatewayTranslates }
{}

/// And it lets in nothing else.
pub fn answers_opens_alone()
    ensures { InwardAnswersOpens }
{}
