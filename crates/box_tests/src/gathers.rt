// What is gathered of a small probe.
ghost use Rattle.std.specs.Prelude.{◌≡◌, Some, None, [], ◌∷◌, nat_lt, if◌then◌else◌};

use header_boxes::Box5;
use ordered_cover::search::gather;
use ordered_cover::{Gathered, Probe, Row};
use std::test::Fail;
use vpc_base::Header;

#[derive(Clone, Copy, PartialEq, Eq)]
enum Change {
    Opened,
    Closed,
}

// From a first q up to a second one a change, from there up to a third one another, which may be the same; elsewhere
// nothing changed. Answers are for low and for high p apart.
#[derive(Drop)]
struct Changes {
    high: u16,
    first: u16,
    second: u16,
    past: u16,
    low: Change,
    rest: Change,
}

impl Probe for Changes {
    type Word = Change;

    ghost meaning = { λ c h.
        if nat_lt h.q c.first then None else
        (if nat_lt h.q c.second then Some c.low else
        (if nat_lt h.q c.past then Some c.rest else None)) };

    ghost cuts = { λ c. record { proto = []; addr = []; p = c.high ∷ []; q = c.first ∷ c.second ∷ c.past ∷ [] } };

    ghost near = { λ c h. record { proto = []; addr = []; p = c.high ∷ []; q = c.first ∷ c.second ∷ c.past ∷ [] } };

    ghost near_among = { λ c h. record { proto = λ n k. k; addr = λ n k. k; p = λ n k. k; q = λ n k. k } };

    fn is_same(one: Change, other: Change) -> bool {
        one == other
    }

    fn probe(&self, sides: &Box5) -> (Box5, Option<Change>) {
        let mut part = *sides;
        if sides.p.0 < self.high {
            part.p.1 = part.p.1.min(self.high - 1);
        }
        if sides.q.0 < self.first {
            part.q.1 = part.q.1.min(self.first - 1);
            return (part, None);
        }
        if sides.q.0 < self.second {
            part.q.1 = part.q.1.min(self.second - 1);
            return (part, Some(self.low));
        }
        if sides.q.0 < self.past {
            part.q.1 = part.q.1.min(self.past - 1);
            return (part, Some(self.rest));
        }
        (part, None)
    }
}

// TCP from one address to another.
const PAIR: Box5 = Box5 {
    proto: (6, 6),
    src: (0x0a00_010a, 0x0a00_010a),
    dst: (0x0a00_0214, 0x0a00_0214),
    p: (0, 65535),
    q: (0, 65535),
};

const ALL: (u16, u16) = (0, 65535);

const LOW: (u16, u16) = (0, 1023);

const HIGH: (u16, u16) = (1024, 65535);

fn with_words(low: Change, rest: Change) -> Changes {
    Changes {
        high: 1024,
        first: 80,
        second: 90,
        past: 100,
        low,
        rest,
    }
}

// The sides p and q of a row, and what changed there.
type Told = ((u16, u16), (u16, u16), Change);

fn is_row(row: &Row<Change>, told: &Told) -> bool {
    let (p, q, word) = *told;
    row.part == Box5 { p, q, ..PAIR } && row.word == word
}

fn are_rows(rows: &[Row<Change>], told: &[Told]) -> bool {
    for i in 0..rows.len() {
        if i >= told.len() || !is_row(&rows[i], &told[i]) {
            return false;
        }
    }
    rows.len() == told.len()
}

// Whether these rows are found, and then a header with these ports that changed and is in none of them.
fn is_found(found: Gathered<Change>, told: &[Told], next: Option<(u16, u16)>) -> bool {
    let (rows, after) = match found {
        Gathered::All(rows) => (rows, None),
        Gathered::More(rows, after) => (rows, Some(after)),
    };
    let next = next.map(|(p, q)| Header {
        proto: 6,
        src: 0x0a00_010a,
        dst: 0x0a00_0214,
        p,
        q,
    });
    after == next && are_rows(rows.as_slice(), told)
}

// Rows of low source ports come first. None of them goes on from the one before it with its word.
const CHANGED: [Told; 4] = [
    (LOW, (80, 89), Change::Opened),
    (LOW, (90, 99), Change::Closed),
    (HIGH, (80, 89), Change::Opened),
    (HIGH, (90, 99), Change::Closed),
];

// The room, how many of them are found, and the ports that are next.
const ROOMS: [(u32, usize, Option<(u16, u16)>); 6] = [
    (0, 0, Some((0, 80))),
    (1, 1, Some((0, 90))),
    (2, 2, Some((1024, 80))),
    (3, 3, Some((1024, 90))),
    (4, 4, None),
    (20000, 4, None),
];

#[test]
fn gathers_what_changed(rt: HostRuntime) -> Result<(), Fail> {
    let both = with_words(Change::Opened, Change::Closed);
    for (room, count, next) in ROOMS {
        let found = gather(rt.alloc(), &both, PAIR, room)?;
        assert!(rt; is_found(found, &CHANGED[..count], next), "in {room}");
    }
    Ok(())
}

// The ports asked for, and what is found there where all that changed was opened.
const JOINED: [((u16, u16), (u16, u16), &[Told]); 5] = [
    // By q, and then by p what was joined by q.
    (ALL, ALL, &[(ALL, (80, 99), Change::Opened)]),
    (LOW, ALL, &[(LOW, (80, 99), Change::Opened)]),
    (
        (1000, 1100),
        (85, 89),
        &[((1000, 1100), (85, 89), Change::Opened)],
    ),
    (ALL, (99, 120), &[(ALL, (99, 99), Change::Opened)]),
    // Nothing changed there.
    (ALL, (100, 65535), &[]),
];

#[test]
fn gathers_rows_of_one_word_as_one(rt: HostRuntime) -> Result<(), Fail> {
    let opened = with_words(Change::Opened, Change::Opened);
    for (p, q, rows) in JOINED {
        let found = gather(rt.alloc(), &opened, Box5 { p, q, ..PAIR }, 2)?;
        assert!(rt; is_found(found, rows, None), "{p:?} {q:?}");
    }
    Ok(())
}
