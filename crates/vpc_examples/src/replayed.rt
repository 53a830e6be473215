// Lists of packets.
ghost use Rattle.vpc_examples.specs.Replayed.{ReplayForgetsNothing, ReplaysInOrder};

/// Each packet of a list meets what the ones before it left.
pub fn replays_in_order()
    ensures { ReplaysInOrder }
{}

/// An answer before its open belongs to nothing; a known open keeps its port.
pub fn replay_forgets_nothing()
    ensures { ReplayForgetsNothing }
{}
