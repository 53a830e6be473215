// The NAT gateway.
ghost use Rattle.std.specs.Prelude.{◌≡◌, ◌≤◌, ◌<◌, ◌+◌, IsTrue, List};
ghost use Rattle.vpc_model.specs.Connections.{Connection};
ghost use Rattle.vpc_model.specs.Lookup.{nat_at};
ghost use Rattle.vpc_model.specs.Sound.{is_live, is_nat};
ghost use Rattle.vpc_model.specs.Step.Nat.{from_nat, own_address, step_nat_in, step_nat_out};
ghost use Rattle.vpc_model.specs.declared.places.Place.TheVariants as places;
ghost use Rattle.packet_emulator.specs.Comes.{comes};
ghost use Rattle.packet_emulator.specs.Moments.{at_place};

use crate::next::Next;
use fabric::Fabric;
use fabric::rows::nat_at;
use nat_gateway::{NatBook, NatStop};
use vpc_base::{Header, Label};
use vpc_model::{Came, NatLife, NatNo, Place, Stop};

// The private address of a live NAT gateway.
fn own_address(life: &NatLife) -> u32
    ensures { result ≡ own_address life.now }
{
    match life {
        NatLife::Live { address, .. } => *address,
        NatLife::Gone => 0,
        NatLife::Unmodelled => 0,
    }
}

// On from a NAT gateway, by the router of its subnet.
fn from_nat(f: &Fabric, n: NatNo, h: Header) -> Next
    requires { IsTrue (is_nat f.now n) }
    ensures { comes result ≡ from_nat f.now n h }
{
    Next::Go(Place::Router(f.nat_subnet(n), Came::Nat(n)), h)
}

/// Out by a NAT gateway: first packets of TCP, UDP and ICMP alone (VPC User Guide, "NAT gateways").
pub fn out<B: NatBook>(f: &Fabric, label: Label, n: NatNo, h: &Header, nats: &mut B) -> Next
    requires nat { IsTrue (is_nat f.now n) }
    requires live { let row = nat_at f.now n in IsTrue (is_live row.life) }
    requires room { 0 < B.spare nats.old }
    ensures next { (conns : List Connection) → let s = step_nat_out f.now label n
        (at_place (places.NatOut n) h.now conns (B.entries nats.old)) in comes result ≡ s.next }
    ensures nats { (conns : List Connection) → let s = step_nat_out f.now label n
        (at_place (places.NatOut n) h.now conns (B.entries nats.old)) in B.entries nats.new ≡ s.nats }
    ensures spare { B.spare nats.old ≤ B.spare nats.new + 1 }
{
    match label {
        Label::Answer => Next::Stop(Stop::NatAnswer(n)),
        Label::Opening => {
            let own = own_address(&nat_at(f, n).life);
            match nats.outward(n, own, h) {
                Ok(after) => from_nat(f, n, after),
                Err(NatStop::Protocol) => Next::Stop(Stop::NatProtocol(n)),
                Err(NatStop::Full) => Next::Stop(Stop::NatFull(n)),
            }
        }
    }
}

/// Back by a NAT gateway: answers to what it sent out alone.
pub fn back<B: NatBook>(f: &Fabric, label: Label, n: NatNo, h: &Header, nats: &B) -> Next
    requires nat { IsTrue (is_nat f.now n) }
    requires live { let row = nat_at f.now n in IsTrue (is_live row.life) }
    ensures next { (conns : List Connection) → let s = step_nat_in f.now label n
        (at_place (places.NatIn n) h.now conns (B.entries nats.now)) in comes result ≡ s.next }
{
    match label {
        Label::Opening => Next::Stop(Stop::NatUnsolicited(n)),
        Label::Answer => match nats.inward(n, h) {
            Some(before) => from_nat(f, n, before),
            None => Next::Stop(Stop::NatUnsolicited(n)),
        },
    }
}
