// The walk of all headers of a part.
ghost use Rattle.std.specs.Prelude.{◌≡◌, ◌+◌, ◌<◌, ◌≤◌, false, length};
ghost use Rattle.box_steps.specs.Moments.{IsBoxMoment};
ghost use Rattle.vpc_model.specs.Appliances.{appliances_of};
ghost use Rattle.box_walk.specs.Rests.{IsLeftAt, IsRestOn, is_among};
ghost use Rattle.box_walk.specs.Walks.{BeginsFresh, IsWalkOn};

use appliances::Deciders;
use arrayvec::ArrayVec;
use box_steps::{BoxMoment, Onward, step_in_place};
use fabric::Fabric;
use packet_emulator::same_place;
use vpc_base::Label;
use vpc_model::{End, Place, Stop};

// At most so many places are visited.
pub const FARTHEST: usize = 64;

/// How the walks of all headers of a part end.
#[derive(Clone, Copy)]
pub enum Ending {
    Arrived(End),
    Stopped(Stop),
}

/// Whether a place was visited.
pub fn is_among(places: &[Place], place: Place) -> bool
    ensures { result ≡ is_among places.now place }
{
    places.iter().any(|p| same_place(*p, place))
}

// The rest of a walk from a place that is new among those visited, with so many places allowed, this one
// included. What arrives has the header with which it came to the last place.
fn rest_on(
    f: &Fabric,
    deciders: &Deciders,
    label: Label,
    left: usize,
    visited: &mut ArrayVec<Place, FARTHEST>,
    m: &mut BoxMoment,
) -> Ending
    requires appliances { deciders.now.appliances ≡ appliances_of f.now }
    requires moment { IsBoxMoment f.now label m.old }
    requires remembered { IsLeftAt label visited.old.items m.old }
    requires fresh { is_among visited.old.items m.old.place ≡ false }
    requires some { 0 < left }
    requires few { length visited.old.items + left ≤ 64 }
    ensures { IsRestOn f.now (appliances_of f.now) label left visited.old.items m.old m.new result }
{
    let header = m.header;
    visited.push(m.place);
    match step_in_place(f, deciders, label, m) {
        Onward::Arrive(end) => {
            m.header = header.within(&m.header.part);
            Ending::Arrived(end)
        }
        Onward::Stop(stop) => Ending::Stopped(stop),
        Onward::Go(place) => {
            if is_among(visited.as_slice(), place) {
                return Ending::Stopped(Stop::Loop(place));
            }
            if left == 1 {
                return Ending::Stopped(Stop::TooFar(place));
            }
            rest_on(f, deciders, label, left - 1, visited, m)
        }
    }
}

/// The walks of the packets of a moment, which becomes the moment after them: over the body for which they
/// pass the same places and end alike. It takes no memory.
pub fn walk_on(f: &Fabric, deciders: &Deciders, label: Label, m: &mut BoxMoment) -> Ending
    requires appliances { deciders.now.appliances ≡ appliances_of f.now }
    requires moment { IsBoxMoment f.now label m.old }
    requires fresh { BeginsFresh label m.old }
    ensures { IsWalkOn f.now (appliances_of f.now) label m.old m.new result }
{
    let mut visited = ArrayVec::new();
    rest_on(f, deciders, label, FARTHEST, &mut visited, m)
}
