// What comes after a place.
ghost use Rattle.packet_emulator.specs.Comes.{comes};
ghost use Rattle.std.specs.Prelude.{◌≡◌};
ghost use Rattle.vpc_model.specs.Step.Words.{unless_stopped};

use vpc_base::Header;
use vpc_model::{End, Place, Stop};

/// A place and the header that comes there, an arrival, or a stop.
#[derive(Clone, Copy)]
pub enum Next {
    Go(Place, Header),
    Arrive(End),
    Stop(Stop),
}

/// What comes next, unless something stops the packet.
pub fn unless_stopped(stop: Option<Stop>, next: Next) -> Next
    ensures { comes result ≡ unless_stopped stop (comes next) }
{
    match stop {
        None => next,
        Some(stop) => Next::Stop(stop),
    }
}
