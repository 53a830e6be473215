// Out of an interface and into one, which may be that of an appliance.
ghost use Rattle.std.specs.Prelude.{◌≡◌, ◌≤◌, ◌<◌, ◌+◌, IsTrue, List};
ghost use Rattle.std.specs.List.{list_any};
ghost use Rattle.prefix_text.specs.Block.{holds};
ghost use Rattle.vpc_model.specs.Lookup.{has_address, is_assigned};
ghost use Rattle.vpc_model.specs.Nat.{Translation};
ghost use Rattle.vpc_model.specs.Sound.{is_eni};
ghost use Rattle.vpc_model.specs.Step.Interface.{step_into, step_out, taken_in};
ghost use Rattle.vpc_model.specs.declared.places.Place.TheVariants as places;
ghost use Rattle.packet_emulator.specs.Comes.{comes};
ghost use Rattle.packet_emulator.specs.Moments.{at_place};

use crate::groups::pass;
use crate::next::Next;
use appliances::Deciders;
use conn_tracking::Tracker;
use fabric::Fabric;
use fabric::rows::{interface_at, subnet_of};
use vpc_base::{Dir, Header, Label};
use vpc_model::{By, Came, End, EniNo, Interface, Place, Stop};

fn is_assigned(e: &Interface, address: u32) -> bool
    ensures { result ≡ is_assigned e.now address }
{
    e.addresses.as_slice().iter().any(|x| x.0 == address)
}

// Whether a block holds the address that is delegated to the interface.
fn is_delegated(e: &Interface, address: u32) -> bool
    ensures { result ≡ list_any (holds address) e.now.prefixes }
{
    e.prefixes.as_slice().iter().any(|b| b.holds(address))
}

// Whether the private address is one of the interface's.
fn has_address(e: &Interface, address: u32) -> bool
    ensures { result ≡ has_address e.now address }
{
    is_assigned(e, address) || is_delegated(e, address)
}

/// Out of an interface: attached, source check, groups (EC2 API, DescribeNetworkInterfaces).
pub fn out<T: Tracker>(f: &Fabric, label: Label, i: EniNo, h: &Header, conns: &mut T) -> (Next, By)
    requires eni { IsTrue (is_eni f.now i) }
    requires room { 0 < T.spare conns.old }
    ensures next { (nats : List Translation) → let s = step_out f.now label i
        (at_place (places.OutOf i) h.now (T.conns conns.old) nats) in comes result.0 ≡ s.next }
    ensures by { (nats : List Translation) → let s = step_out f.now label i
        (at_place (places.OutOf i) h.now (T.conns conns.old) nats) in result.1 ≡ s.by }
    ensures conns { (nats : List Translation) → let s = step_out f.now label i
        (at_place (places.OutOf i) h.now (T.conns conns.old) nats) in T.conns conns.new ≡ s.conns }
    ensures spare { T.spare conns.old ≤ T.spare conns.new + 1 }
{
    let e = interface_at(f, i);
    if e.idle {
        return (Next::Stop(Stop::Detached(i)), By::Nothing);
    }
    if e.checked && !has_address(e, h.src) {
        return (Next::Stop(Stop::SourceCheck(i)), By::Nothing);
    }
    match pass(f, label, i, Dir::Outward, h, conns) {
        Some(by) => (
            Next::Go(Place::Router(subnet_of(f, i), Came::Host(i)), *h),
            by,
        ),
        None => (Next::Stop(Stop::GroupsOut(i)), By::Nothing),
    }
}

// Arrived, unless the interface is an appliance's and the packet is for another address: an appliance sends
// on what its boxes hold.
fn taken_in(f: &Fabric, deciders: &Deciders, i: EniNo, h: &Header) -> Next
    requires { IsTrue (is_eni f.now i) }
    ensures { comes result ≡ taken_in f.now deciders.now.appliances i h.now }
{
    let Some(k) = deciders.number(i) else {
        return Next::Arrive(End::Interface(i));
    };
    if has_address(interface_at(f, i), h.dst) {
        return Next::Arrive(End::Interface(i));
    }
    if deciders.passes(k, h) {
        Next::Go(Place::OutOf(i), *h)
    } else {
        Next::Stop(Stop::ApplianceDrop(i))
    }
}

/// Into an interface: attached, destination check, groups (EC2 API, DescribeNetworkInterfaces).
pub fn into<T: Tracker>(
    f: &Fabric,
    deciders: &Deciders,
    label: Label,
    i: EniNo,
    h: &Header,
    conns: &mut T,
) -> (Next, By)
    requires eni { IsTrue (is_eni f.now i) }
    requires room { 0 < T.spare conns.old }
    ensures next { (nats : List Translation) → let s = step_into f.now deciders.now.appliances label i
        (at_place (places.Into i) h.now (T.conns conns.old) nats) in comes result.0 ≡ s.next }
    ensures by { (nats : List Translation) → let s = step_into f.now deciders.now.appliances label i
        (at_place (places.Into i) h.now (T.conns conns.old) nats) in result.1 ≡ s.by }
    ensures conns { (nats : List Translation) → let s = step_into f.now deciders.now.appliances label i
        (at_place (places.Into i) h.now (T.conns conns.old) nats) in T.conns conns.new ≡ s.conns }
    ensures spare { T.spare conns.old ≤ T.spare conns.new + 1 }
{
    let e = interface_at(f, i);
    if e.idle {
        return (Next::Stop(Stop::Detached(i)), By::Nothing);
    }
    if e.checked && !has_address(e, h.dst) {
        return (Next::Stop(Stop::DestCheck(i)), By::Nothing);
    }
    match pass(f, label, i, Dir::Inward, h, conns) {
        Some(by) => (taken_in(f, deciders, i, h), by),
        None => (Next::Stop(Stop::GroupsIn(i)), By::Nothing),
    }
}
