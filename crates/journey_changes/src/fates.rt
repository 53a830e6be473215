// What becomes of a request in one network.
ghost use Rattle.std.specs.Prelude.{◌≡◌, ◌↔◌, IsTrue};
ghost use Rattle.box_walk.specs.Goal.{goal_unless};
ghost use Rattle.journey_changes.specs.Fates.{fate_by, fate_unless, missing_by, reached_by};

use box_walk::Journey;
use vpc_model::{End, Phase, Stop, same_stop};

/// What keeps a request from getting through.
#[derive(Clone, Copy)]
pub enum Barrier {
    /// The request or its reply is stopped, or arrives where it should not.
    Stopped(Phase, Stop),
    /// The network has no such start: none with its id, or a gateway's interface.
    Absent,
}

/// Where requests are to arrive.
#[derive(Clone, Copy)]
pub enum Toward {
    /// At any end but the start.
    Any,
    /// At an end that the network doesn't have.
    Missing,
    /// At this end.
    Goal(End),
}

/// By the journey toward any end or toward one that the network has.
pub(crate) fn fate_by(journey: Journey) -> Result<End, Barrier>
    ensures { result ≡ fate_by journey }
{
    match journey {
        Journey::Reached(end) => Ok(end),
        Journey::Stopped(phase, stop) => Err(Barrier::Stopped(phase, stop)),
    }
}

/// By the journey toward any end, where the network doesn't have the one that was meant.
pub(crate) fn missing_by(journey: Journey) -> Result<End, Barrier>
    ensures { result ≡ missing_by journey }
{
    match journey {
        Journey::Reached(end) => Err(Barrier::Stopped(Phase::Request, Stop::WrongPlace(end))),
        Journey::Stopped(phase, stop) => Err(Barrier::Stopped(phase, stop)),
    }
}

/// By what stops a request toward a goal.
pub(crate) fn fate_unless(goal: End, told: Option<(Phase, Stop)>) -> Result<End, Barrier>
    ensures { result ≡ fate_unless goal told }
{
    match told {
        None => Ok(goal),
        Some((phase, stop)) => Err(Barrier::Stopped(phase, stop)),
    }
}

/// The goal, where nothing stops a request toward it.
pub(crate) fn goal_unless(goal: End, stopped: Option<()>) -> Option<End>
    ensures { result ≡ goal_unless goal stopped }
{
    match stopped {
        None => Some(goal),
        Some(_) => None,
    }
}

/// The end that is reached.
pub(crate) fn reached_by(fate: Result<End, Barrier>) -> Option<End>
    ensures { result ≡ reached_by fate }
{
    match fate {
        Ok(end) => Some(end),
        Err(_) => None,
    }
}

pub(crate) fn same_barrier(one: Barrier, other: Barrier) -> bool
    ensures { IsTrue result ↔ (one ≡ other) }
{
    match (one, other) {
        (Barrier::Stopped(phase, stop), Barrier::Stopped(other_phase, other_stop)) => {
            phase == other_phase && same_stop(&stop, &other_stop)
        }
        (Barrier::Absent, Barrier::Absent) => true,
        (Barrier::Stopped(..), Barrier::Absent) => false,
        (Barrier::Absent, Barrier::Stopped(..)) => false,
    }
}
