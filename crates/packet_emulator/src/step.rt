// One step of a packet: what comes after each place.
ghost use Rattle.std.specs.Prelude.{◌≡◌, ◌≤◌, ◌<◌, ◌+◌, IsTrue};
ghost use Rattle.packet_emulator.specs.Comes.{comes};
ghost use Rattle.packet_emulator.specs.Moments.{at_place};
ghost use Rattle.vpc_model.specs.Sound.{is_sound};
ghost use Rattle.vpc_model.specs.Step.{step_of};

use crate::enter::enter;
use crate::inspect::inspect;
use crate::internet::{igw_in, igw_out, internet};
use crate::next::Next;
use crate::outside::{far_in, far_out};
use crate::peering::peer;
use crate::router::router;
use crate::transit::{tgw, tgw_leave};
use crate::{interface, nat};
use appliances::Deciders;
use conn_tracking::Tracker;
use fabric::Fabric;
use nat_gateway::NatBook;
use vpc_base::{Header, Label};
use vpc_model::{By, Place};

/// What comes after a place, and by what the packet passed groups there.
pub fn step<T: Tracker, B: NatBook>(
    f: &Fabric,
    deciders: &Deciders,
    label: Label,
    place: Place,
    h: &Header,
    conns: &mut T,
    nats: &mut B,
) -> (Next, By)
    requires place { IsTrue (is_sound f.now place) }
    requires conns { 0 < T.spare conns.old }
    requires nats { 0 < B.spare nats.old }
    ensures next { let s = step_of f.now deciders.now.appliances label
        (at_place place h.now (T.conns conns.old) (B.entries nats.old)) in comes result.0 ≡ s.next }
    ensures by { let s = step_of f.now deciders.now.appliances label
        (at_place place h.now (T.conns conns.old) (B.entries nats.old)) in result.1 ≡ s.by }
    ensures conns { let s = step_of f.now deciders.now.appliances label
        (at_place place h.now (T.conns conns.old) (B.entries nats.old)) in T.conns conns.new ≡ s.conns }
    ensures nats { let s = step_of f.now deciders.now.appliances label
        (at_place place h.now (T.conns conns.old) (B.entries nats.old)) in B.entries nats.new ≡ s.nats }
    ensures spare_conns { T.spare conns.old ≤ T.spare conns.new + 1 }
    ensures spare_nats { B.spare nats.old ≤ B.spare nats.new + 1 }
{
    match place {
        Place::OutOf(i) => interface::out(f, label, i, h, conns),
        Place::Into(i) => interface::into(f, deciders, label, i, h, conns),
        Place::Router(s, _) => (router(f, s, h), By::Nothing),
        Place::Enter(v, by) => (enter(f, v, by, h), By::Nothing),
        Place::IgwOut(v) => (igw_out(f, v, h), By::Nothing),
        Place::Internet => (internet(f, h), By::Nothing),
        Place::IgwIn(v) => (igw_in(f, v, h), By::Nothing),
        Place::NatOut(n) => (nat::out(f, label, n, h, nats), By::Nothing),
        Place::NatIn(n) => (nat::back(f, label, n, h, nats), By::Nothing),
        Place::Peer(x, v) => (peer(f, x, v, h), By::Nothing),
        Place::Tgw(a, entered) => (tgw(f, a, entered, h), By::Nothing),
        Place::TgwLeave(a, entered) => (tgw_leave(f, a, entered, h), By::Nothing),
        Place::FarOut(k) => (far_out(f, k, h), By::Nothing),
        Place::FarIn(k) => (far_in(f, label, k, h), By::Nothing),
        Place::Inspect(e) => (inspect(f, e, h), By::Nothing),
    }
}
