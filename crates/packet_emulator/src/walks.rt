// The walk of a packet: at most 64 places, none twice.
ghost use Rattle.std.specs.Prelude.{◌≡◌, ◌≤◌, ◌<◌, ◌+◌, [], IsTrue, length};
ghost use Rattle.packet_emulator.specs.Comes.{comes};
ghost use Rattle.packet_emulator.specs.Moments.{at_place};
ghost use Rattle.vpc_laws.specs.Sound.{LeadsWell};
ghost use Rattle.vpc_model.specs.Sound.{is_sound};
ghost use Rattle.vpc_model.specs.Walk.{walk_of, walk_on};

use crate::next::Next;
use crate::places::is_visited;
use crate::step::step;
use appliances::Deciders;
use arrayvec::ArrayVec;
use conn_tracking::Tracker;
use fabric::Fabric;
use nat_gateway::NatBook;
use vpc_base::{Header, Label};
use vpc_model::{Hop, Outcome, Place, Stop};

/// The hops of a walk, without memory.
pub type Hops = ArrayVec<Hop, 64>;

// On to the next place, with so many more places allowed. The header is that of the last hop.
fn walk_on<T: Tracker, B: NatBook>(
    f: &Fabric,
    deciders: &Deciders,
    label: Label,
    left: usize,
    h: Header,
    next: Next,
    conns: &mut T,
    nats: &mut B,
    hops: &mut Hops,
) -> Outcome
    requires next { LeadsWell f.now (comes next) }
    requires conns { left ≤ T.spare conns.old }
    requires nats { left ≤ B.spare nats.old }
    requires hops { length hops.old.items + left ≤ 64 }
    ensures outcome { let w = walk_on f.now deciders.now.appliances label left hops.old.items h
        (comes next) (T.conns conns.old) (B.entries nats.old) in result ≡ w.outcome }
    ensures hops { let w = walk_on f.now deciders.now.appliances label left hops.old.items h
        (comes next) (T.conns conns.old) (B.entries nats.old) in hops.new.items ≡ w.hops }
    ensures conns { let w = walk_on f.now deciders.now.appliances label left hops.old.items h
        (comes next) (T.conns conns.old) (B.entries nats.old) in T.conns conns.new ≡ w.conns }
    ensures nats { let w = walk_on f.now deciders.now.appliances label left hops.old.items h
        (comes next) (T.conns conns.old) (B.entries nats.old) in B.entries nats.new ≡ w.nats }
    ensures spare_conns { T.spare conns.old ≤ T.spare conns.new + left }
    ensures spare_nats { B.spare nats.old ≤ B.spare nats.new + left }
{
    let n = f.network();
    let _ = n.description();
    match next {
        Next::Arrive(end) => Outcome::Arrived(end, h),
        Next::Stop(stop) => Outcome::Stopped(stop),
        Next::Go(place, header) => {
            if is_visited(hops.as_slice(), place) {
                return Outcome::Stopped(Stop::Loop(place));
            }
            if left == 0 {
                return Outcome::Stopped(Stop::TooFar(place));
            }
            let (after, by) = step(f, deciders, label, place, &header, conns, nats);
            hops.push(Hop { place, header, by });
            walk_on(
                f,
                deciders,
                label,
                left - 1,
                header,
                after,
                conns,
                nats,
                hops,
            )
        }
    }
}

/// The walk of a packet from a place. It adds at most 64 connections and 64 translations; what was added
/// before a stop stays. It takes no memory.
pub fn walk<T: Tracker, B: NatBook>(
    f: &Fabric,
    deciders: &Deciders,
    start: Place,
    label: Label,
    h: Header,
    conns: &mut T,
    nats: &mut B,
    hops: &mut Hops,
) -> Outcome
    requires start { IsTrue (is_sound f.now start) }
    requires conns { 64 ≤ T.spare conns.old }
    requires nats { 64 ≤ B.spare nats.old }
    requires empty { hops.old.items ≡ [] }
    ensures outcome { let w = walk_of f.now deciders.now.appliances label
        (at_place start h (T.conns conns.old) (B.entries nats.old)) in result ≡ w.outcome }
    ensures hops { let w = walk_of f.now deciders.now.appliances label
        (at_place start h (T.conns conns.old) (B.entries nats.old)) in hops.new.items ≡ w.hops }
    ensures conns { let w = walk_of f.now deciders.now.appliances label
        (at_place start h (T.conns conns.old) (B.entries nats.old)) in T.conns conns.new ≡ w.conns }
    ensures nats { let w = walk_of f.now deciders.now.appliances label
        (at_place start h (T.conns conns.old) (B.entries nats.old)) in B.entries nats.new ≡ w.nats }
    ensures spare_conns { T.spare conns.old ≤ T.spare conns.new + 64 }
    ensures spare_nats { B.spare nats.old ≤ B.spare nats.new + 64 }
{
    let n = f.network();
    let _ = n.description();
    let (next, by) = step(f, deciders, label, start, &h, conns, nats);
    hops.push(Hop {
        place: start,
        header: h,
        by,
    });
    walk_on(f, deciders, label, 63, h, next, conns, nats, hops)
}
