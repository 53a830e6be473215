// The open ports of a small probe.
ghost use Rattle.std.specs.Prelude.{◌≡◌, Some, None, [], ◌∷◌, nat_lt, if◌then◌else◌};
ghost use Rattle.box_tests.specs.declared.ports.Closed.TheVariants.{NoDoor, LowPort};

use header_boxes::Box5;
use ordered_cover::Probe;
use ordered_cover::ports::open_ports;
use std::test::Fail;

#[derive(Clone, Copy, PartialEq, Eq)]
enum Closed {
    NoDoor,
    LowPort,
}

// A host, by its address, and two runs of ports on it: the first from one port up to another, open from high source
// ports alone, the second from a third port on, open from all.
#[derive(Drop)]
struct Doors {
    host: u32,
    high: u16,
    first: u16,
    past: u16,
    second: u16,
}

impl Probe for Doors {
    type Word = Closed;

    ghost meaning = { λ d h.
        if nat_lt h.dst d.host then Some NoDoor else
        (if nat_lt h.q d.first then Some NoDoor else
        (if nat_lt h.q d.past then (if nat_lt h.p d.high then Some LowPort else None) else
        (if nat_lt h.q d.second then Some NoDoor else None))) };

    ghost cuts = { λ d. record { proto = []; addr = d.host ∷ []; p = d.high ∷ []; q = d.first ∷ d.past ∷ d.second ∷ [] } };

    ghost near = { λ d h. record { proto = []; addr = d.host ∷ []; p = d.high ∷ []; q = d.first ∷ d.past ∷ d.second ∷ [] } };

    ghost near_among = { λ d h. record { proto = λ c k. k; addr = λ c k. k; p = λ c k. k; q = λ c k. k } };

    fn is_same(one: Closed, other: Closed) -> bool {
        one == other
    }

    fn probe(&self, sides: &Box5) -> (Box5, Option<Closed>) {
        let mut part = *sides;
        if sides.dst.0 < self.host {
            part.dst.1 = part.dst.1.min(self.host - 1);
            return (part, Some(Closed::NoDoor));
        }
        if sides.q.0 < self.first {
            part.q.1 = part.q.1.min(self.first - 1);
            return (part, Some(Closed::NoDoor));
        }
        if sides.q.0 < self.past {
            part.q.1 = part.q.1.min(self.past - 1);
            if sides.p.0 >= self.high {
                return (part, None);
            }
            part.p.1 = part.p.1.min(self.high - 1);
            return (part, Some(Closed::LowPort));
        }
        if sides.q.0 >= self.second {
            return (part, None);
        }
        part.q.1 = part.q.1.min(self.second - 1);
        (part, Some(Closed::NoDoor))
    }
}

const HOST: u32 = 0x0a00_0214;

// TCP to the host from anywhere.
const TO_HOST: Box5 = Box5 {
    proto: (6, 6),
    src: (0, 0xffff_ffff),
    dst: (HOST, HOST),
    p: (0, 65535),
    q: (0, 65535),
};

const ALL: (u16, u16) = (0, 65535);

const LOW: (u16, u16) = (0, 1023);

// Port 22 from high ports, and all from 443 on.
const DOORS: Doors = Doors {
    host: HOST,
    high: 1024,
    first: 22,
    past: 23,
    second: 443,
};

#[test]
fn open_ports_of_a_host(rt: HostRuntime) -> Result<(), Fail> {
    for (second, p, q, open) in [
        (443, ALL, ALL, [(22, 22), (443, 65535)].as_slice()),
        // A low source port opens port 22 for none, and the last low one with the first high one does.
        (443, LOW, ALL, [(443, 65535)].as_slice()),
        (443, (1023, 1024), (20, 30), [(22, 22)].as_slice()),
        (443, ALL, (22, 22), [(22, 22)].as_slice()),
        (443, ALL, (23, 442), [].as_slice()),
        (443, (0, 0), (442, 443), [(443, 443)].as_slice()),
        // Ranges that touch are one.
        (23, ALL, ALL, [(22, 65535)].as_slice()),
        (23, LOW, ALL, [(23, 65535)].as_slice()),
    ] {
        let doors = Doors { second, ..DOORS };
        let found = open_ports(rt.alloc(), &doors, Box5 { p, q, ..TO_HOST })?;
        assert!(rt; found.as_slice() == open, "from {p:?} to {q:?}");
    }
    Ok(())
}

// The first of several addresses, sources and protocols needn't be one that is open.
#[test]
fn open_ports_of_many_hosts(rt: HostRuntime) -> Result<(), Fail> {
    let every = Box5 {
        proto: (0, 255),
        dst: (HOST - 4, HOST),
        ..TO_HOST
    };
    let found = open_ports(rt.alloc(), &DOORS, every)?;
    assert!(rt; found.as_slice() == [(22, 22), (443, 65535)].as_slice());
    let before = Box5 {
        dst: (HOST - 4, HOST - 1),
        ..every
    };
    let found = open_ports(rt.alloc(), &DOORS, before)?;
    assert!(rt; found.as_slice() == [].as_slice());
    Ok(())
}
