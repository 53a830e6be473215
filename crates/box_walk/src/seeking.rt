// The walk of all opens of a part, as long as they may arrive at the goal.
ghost use Rattle.std.specs.Prelude.{◌≡◌, ◌+◌, ◌<◌, ◌≤◌, false, length};
ghost use Rattle.box_steps.specs.Moments.{IsBoxMoment};
ghost use Rattle.vpc_base.specs.declared.headers.Label.TheVariants as labels;
ghost use Rattle.vpc_model.specs.Appliances.{appliances_of};
ghost use Rattle.box_walk.specs.Rests.{IsLeftAt, is_among};
ghost use Rattle.box_walk.specs.Seeking.{IsRestSought, IsWalkSought};
ghost use Rattle.box_walk.specs.Walks.{BeginsFresh};

use crate::walks::{FARTHEST, is_among};
use appliances::Deciders;
use arrayvec::ArrayVec;
use box_steps::{BoxMoment, Onward, misses_on, step_in_place};
use fabric::Fabric;
use vpc_base::Label;
use vpc_model::{End, Place};

// The rest of such a walk from a place that is new among those visited, with so many places allowed, this one
// included. Where nothing arrives at the goal, the moment keeps no more than the part of which that is told.
fn rest_to(
    f: &Fabric,
    deciders: &Deciders,
    goal: End,
    left: usize,
    visited: &mut ArrayVec<Place, FARTHEST>,
    m: &mut BoxMoment,
) -> Option<End>
    requires appliances { deciders.now.appliances ≡ appliances_of f.now }
    requires moment { IsBoxMoment f.now labels.Opening m.old }
    requires remembered { IsLeftAt labels.Opening visited.old.items m.old }
    requires fresh { is_among visited.old.items m.old.place ≡ false }
    requires some { 0 < left }
    requires few { length visited.old.items + left ≤ 64 }
    ensures { IsRestSought f.now (appliances_of f.now) goal left visited.old.items m.old m.new result }
{
    if let Some(body) = misses_on(f, deciders, goal, m) {
        m.header.part = body;
        return None;
    }
    let header = m.header;
    visited.push(m.place);
    match step_in_place(f, deciders, Label::Opening, m) {
        Onward::Arrive(end) => {
            m.header = header.within(&m.header.part);
            Some(end)
        }
        Onward::Stop(_) => None,
        Onward::Go(place) => {
            if is_among(visited.as_slice(), place) {
                return None;
            }
            if left == 1 {
                return None;
            }
            rest_to(f, deciders, goal, left - 1, visited, m)
        }
    }
}

/// Where the walks of all opens of a moment arrive, which becomes the moment after them; nothing where none of
/// them arrives at the goal. Such a walk ends at the first place where that is known, before the ACL and the groups
/// there are asked. It takes no memory.
pub fn seek_on(f: &Fabric, deciders: &Deciders, goal: End, m: &mut BoxMoment) -> Option<End>
    requires appliances { deciders.now.appliances ≡ appliances_of f.now }
    requires moment { IsBoxMoment f.now labels.Opening m.old }
    requires fresh { BeginsFresh labels.Opening m.old }
    ensures { IsWalkSought f.now (appliances_of f.now) goal m.old m.new result }
{
    let mut visited = ArrayVec::new();
    rest_to(f, deciders, goal, FARTHEST, &mut visited, m)
}
