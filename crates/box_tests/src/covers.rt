// Each answer of a small probe on all headers.
ghost use Rattle.std.specs.Prelude.{◌≡◌, Some, [], ◌∷◌, true, false, nat_lt, if◌then◌else◌};
ghost use Rattle.std.specs.List.{Contains};
ghost use Rattle.std.proofs.Common.{arith};
ghost use Rattle.box_tests.specs.declared.covers.Why.TheVariants.{Target};

use header_boxes::Box5;
use ordered_cover::search::{cover, first};
use ordered_cover::{Cover, Probe, Row};
use std::test::Fail;
use vpc_base::Header;

#[derive(Clone, Copy, PartialEq, Eq)]
enum Why {
    Ports,
    Target,
}

// Of the headers with a low p those with a low q are stopped for one reason, the others for another, which may
// be the same. What becomes of the rest is given.
#[derive(Drop)]
struct Screen {
    p: u16,
    q: u16,
    low: Why,
    rest: Option<Why>,
}

impl Probe for Screen {
    type Word = Why;

    ghost meaning = { λ s h. if nat_lt h.p s.p then
        (if nat_lt h.q s.q then Some s.low else Some Target) else s.rest };

    ghost cuts = { λ s. record { proto = []; addr = []; p = s.p ∷ []; q = s.q ∷ [] } };

    ghost near = { λ s h. record {
      proto = [];
      addr = [];
      p = s.p ∷ [];
      q =
          (if nat_lt h.p s.p then s.q ∷ [] else []);
    } };

    ghost near_among = { λ s h. record { proto = λ c k. k; addr = λ c k. k; p = λ c k. k; q = λ c. elim (nat_lt h.p s.p) as (λ b. Contains (if b then s.q ∷ [] else []) c → Contains (s.q ∷ []) c) [ true ↦ λ k. k | false ↦ λ k. absurd (Prim.omega (arith, k.1)) ] } };

    fn is_same(one: Why, other: Why) -> bool {
        one == other
    }

    fn probe(&self, sides: &Box5) -> (Box5, Option<Why>) {
        let mut part = *sides;
        if sides.p.0 >= self.p {
            return (part, self.rest);
        }
        part.p.1 = part.p.1.min(self.p - 1);
        if sides.q.0 >= self.q {
            return (part, Some(Why::Target));
        }
        part.q.1 = part.q.1.min(self.q - 1);
        (part, Some(self.low))
    }
}

const EVERY_HEADER: Box5 = Box5 {
    proto: (0, 255),
    src: (0, 0xffff_ffff),
    dst: (0, 0xffff_ffff),
    p: (0, 65535),
    q: (0, 65535),
};

// The least header with p and q.
fn at(p: u16, q: u16) -> Header {
    Header {
        proto: 0,
        src: 0,
        dst: 0,
        p,
        q,
    }
}

// The rows of the screen, in the order of their low corners. The last two have one word, and stay apart: they differ in p and in q.
const LOW_PORTS: Row<Why> = Row {
    part: Box5 {
        p: (0, 1023),
        q: (0, 442),
        ..EVERY_HEADER
    },
    word: Why::Ports,
};

const LOW_SOURCES: Row<Why> = Row {
    part: Box5 {
        p: (0, 1023),
        q: (443, 65535),
        ..EVERY_HEADER
    },
    word: Why::Target,
};

const OTHERS: Row<Why> = Row {
    part: Box5 {
        p: (1024, 65535),
        ..EVERY_HEADER
    },
    word: Why::Target,
};

fn screen_with(rest: Option<Why>) -> Screen {
    Screen {
        p: 1024,
        q: 443,
        low: Why::Ports,
        rest,
    }
}

#[test]
fn first_of_all_headers(rt: HostRuntime) -> Result<(), Fail> {
    let open = screen_with(None);
    assert!(rt; first(rt.alloc(), &open, EVERY_HEADER)? == Some(at(1024, 0)));
    let shut = screen_with(Some(Why::Target));
    assert!(rt; first(rt.alloc(), &shut, EVERY_HEADER)? == None);
    Ok(())
}

// Whether these rows are found, and then this header, if one is left; no header gets through.
fn is_blocked(found: Cover<Why>, rows: &[Row<Why>], next: Option<Header>) -> bool {
    let (found, after) = match found {
        Cover::Found(_) => return false,
        Cover::Blocked(found) => (found, None),
        Cover::More(found, after) => (found, Some(after)),
    };
    found.as_slice() == rows && after == next
}

// The most rows asked for, how many are found, and the ports of the header after them.
const ROOMS: [(u32, usize, Option<(u16, u16)>); 4] = [
    (1, 1, Some((0, 443))),
    (2, 2, Some((1024, 0))),
    (3, 3, None),
    (20000, 3, None),
];

#[test]
fn covers_of_all_headers(rt: HostRuntime) -> Result<(), Fail> {
    let rows = [LOW_PORTS, LOW_SOURCES, OTHERS];
    let shut = screen_with(Some(Why::Target));
    for (max, count, next) in ROOMS {
        let next = next.map(|(p, q)| at(p, q));
        let found = cover(rt.alloc(), &shut, EVERY_HEADER, max)?;
        assert!(rt; is_blocked(found, &rows[..count], next), "at {max}");
    }
    let found = cover(rt.alloc(), &screen_with(None), EVERY_HEADER, 3)?;
    assert!(rt; matches!(found, Cover::Found(h) if h == at(1024, 0)));
    Ok(())
}

// The ports asked for where all headers are stopped for one reason: all of them are one row.
const JOINED: [((u16, u16), (u16, u16)); 4] = [
    // By q, and then by p what was joined by q.
    ((0, 65535), (0, 65535)),
    // By q alone.
    ((1000, 1023), (400, 65535)),
    // By p alone.
    ((0, 65535), (0, 442)),
    ((1000, 1100), (443, 443)),
];

#[test]
fn joins_rows_of_one_word(rt: HostRuntime) -> Result<(), Fail> {
    let shut = Screen {
        low: Why::Target,
        ..screen_with(Some(Why::Target))
    };
    for (p, q) in JOINED {
        let part = Box5 {
            p,
            q,
            ..EVERY_HEADER
        };
        let word = Why::Target;
        let found = cover(rt.alloc(), &shut, part, 2)?;
        assert!(rt;
            is_blocked(found, &[Row { part, word }], None),
            "{p:?} {q:?}"
        );
    }
    Ok(())
}
