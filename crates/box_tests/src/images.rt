// What no clause says: that the definitions compute, and each call on images worked out by hand.
ghost use Rattle.std.specs.Prelude.{◌≡◌, ◌≤◌, ◌∷◌, [], List, IsTrue, false, true};
ghost use Rattle.box_images.specs.Fields.{greatest_of, side_of, value_of};
ghost use Rattle.box_images.specs.Images.{first_port};
ghost use Rattle.box_images.specs.Bodies.{cuts_on, range_edges};
ghost use Rattle.box_images.specs.declared.fields.Field.TheVariants.{Fixed, Of};
ghost use Rattle.box_images.specs.declared.fields.Side.TheVariants.{Proto, Src, Dst, P, Q};
ghost use Rattle.header_boxes.specs.Boxes.{IsValid};

use box_images::{Field, Image, Part, Side};
use header_boxes::Box5;
use vpc_base::Header;

// Of a request from port 80, and of ports up to 1023.
fn definitions_compute()
    ensures value { value_of (Of P 1024)
        (record { proto = 6; src = 10; dst = 100; p = 80; q = 443 }) ≡ 1104 }
    ensures constant { value_of (Fixed 7)
        (record { proto = 6; src = 10; dst = 100; p = 80; q = 443 }) ≡ 7 }
    ensures greatest { greatest_of (Of P 1024)
        (record { proto = (6, 6); src = (1, 9); dst = (1, 9); p = (80, 1023); q = (443, 443) }) ≡ 2047 }
    ensures shifted { first_port 1023 ≡ 2047 }
    ensures kept { first_port 1024 ≡ 1024 }
    ensures edges { range_edges (Of Q 0) 443 443 ≡ (Of Q 0, 443) ∷ (Of Q 0, 444) ∷ [] }
{}

const REQUESTS: Box5 = Box5 {
    proto: (6, 6),
    src: (10, 20),
    dst: (100, 200),
    p: (1000, 2000),
    q: (443, 443),
};

// The requests with these numbers as p.
fn from_ports(first: u16, last: u16) -> Box5
    requires { first ≤ last }
    ensures { IsValid result }
{
    Box5 {
        p: (first, last),
        ..REQUESTS
    }
}

// The requests with these numbers as protocol and as q.
fn to_ports(proto: (u8, u8), q: (u16, u16)) -> Box5
    requires proto { proto.0 ≤ proto.1 }
    requires q { q.0 ≤ q.1 }
    ensures { IsValid result }
{
    Box5 {
        proto,
        q,
        ..REQUESTS
    }
}

// Below, reaching in, inside, around and above the ports 1000 to 2000.
const NARROWED: [(u32, u32, u16, bool); 8] = [
    (0, 999, 2000, false),
    (500, 1600, 1600, true),
    (1000, 1000, 1000, true),
    (1500, 1600, 1499, false),
    (0, 65535, 2000, true),
    (1000, 2000, 2000, true),
    (2000, 2000, 1999, false),
    (2001, 3000, 2000, false),
];

#[test]
fn narrows_a_field(rt: HostRuntime) {
    definitions_compute();
    let image = Image::of(&from_ports(1000, 2000));
    for (lo, hi, last, told) in NARROWED {
        assert!(rt; lo <= hi);
        let part = image.narrow(Side::P, lo, hi);
        let body = Box5 {
            p: (1000, last),
            ..REQUESTS
        };
        assert!(rt; part == Part { body, told });
    }
}

const OF_CONSTANTS: [(Side, u32, u32, bool); 4] = [
    (Side::Src, 15, 15, true),
    (Side::Src, 16, 20, false),
    (Side::Dst, 0, 7, true),
    (Side::Dst, 100, 200, false),
];

#[test]
fn narrows_a_constant(rt: HostRuntime) {
    let image = Image::of(&from_ports(1000, 2000)).set_src(15).set_dst(7);
    for (side, lo, hi, told) in OF_CONSTANTS {
        assert!(rt; lo <= hi);
        let part = image.narrow(side, lo, hi);
        let body = REQUESTS;
        assert!(rt; part == Part { body, told });
    }
}

// First and last p; the last p of the body; p of the image.
const SHIFTED: [(u16, u16, u16, Field); 5] = [
    (0, 65535, 1023, Field::Of(Side::P, 1024)),
    (1000, 2000, 1023, Field::Of(Side::P, 1024)),
    (1023, 1023, 1023, Field::Of(Side::P, 1024)),
    (1024, 1024, 1024, Field::Of(Side::P, 0)),
    (1024, 65535, 65535, Field::Of(Side::P, 0)),
];

#[test]
fn shifts_ports(rt: HostRuntime) {
    for (first, last, end, p) in SHIFTED {
        assert!(rt; first <= last);
        let part = Image::of(&from_ports(first, last)).shift_p();
        let body = Box5 {
            p: (first, end),
            ..REQUESTS
        };
        assert!(rt; part.body == body);
        assert!(rt; part.told.part == body);
        assert!(rt; part.told.p == p);
        assert!(rt; part.told.q == Field::Of(Side::Q, 0));
        assert!(rt; part.told.shift_p().told == part.told);
    }
}

// The ports 1000 to 1023 became 2024 to 2047.
const OF_FIRST_PORTS: [(u32, u32, u16, bool); 5] = [
    (1000, 1023, 1023, false),
    (2030, 2040, 1005, false),
    (0, 2030, 1006, true),
    (2047, 65535, 1022, false),
    (2024, 2047, 1023, true),
];

#[test]
fn narrows_a_first_port(rt: HostRuntime) {
    let image = Image::of(&from_ports(1000, 2000)).shift_p().told;
    for (lo, hi, last, told) in OF_FIRST_PORTS {
        assert!(rt; lo <= hi);
        let part = image.narrow(Side::P, lo, hi);
        let body = Box5 {
            p: (1000, last),
            ..REQUESTS
        };
        assert!(rt; part == Part { body, told });
    }
    let low = image.part.low();
    assert!(rt; low.p == 1000);
}

// The fields of an answer that goes back.
fn back(part: Box5, p: Field, q: Field) -> Image {
    Image {
        part,
        proto: Field::Of(Side::Proto, 0),
        src: Field::Of(Side::Dst, 0),
        dst: Field::Of(Side::Src, 0),
        p,
        q,
    }
}

const PORTS: Option<(Field, Field)> = Some((Field::Of(Side::Q, 0), Field::Of(Side::P, 0)));

const ECHO: Option<(Field, Field)> = Some((Field::Of(Side::P, 0), Field::Fixed(0)));

/// Ranges of protocols and of q.
type Requests = ((u8, u8), (u16, u16));

// Proto and q of the requests; the last ones of the body; p and q of the answer.
const REPLIES: [(Requests, u8, u16, Option<(Field, Field)>); 9] = [
    (((6, 6), (443, 443)), 6, 443, PORTS),
    (((0, 255), (0, 65535)), 0, 65535, PORTS),
    (((2, 255), (0, 65535)), 255, 65535, PORTS),
    (((0, 0), (2048, 2048)), 0, 2048, PORTS),
    (((1, 255), (2048, 65535)), 1, 2048, ECHO),
    (((1, 1), (2048, 2048)), 1, 2048, ECHO),
    (((1, 1), (0, 65535)), 1, 2047, None),
    (((1, 1), (0, 0)), 1, 0, None),
    (((1, 6), (2049, 65535)), 1, 65535, None),
];

#[test]
fn replies(rt: HostRuntime) {
    for ((proto, q), last_proto, last_q, answer) in REPLIES {
        assert!(rt; proto.0 <= proto.1);
        assert!(rt; q.0 <= q.1);
        let part = Image::of(&to_ports(proto, q)).reply();
        let body = Box5 {
            proto: (proto.0, last_proto),
            q: (q.0, last_q),
            ..REQUESTS
        };
        assert!(rt; part.body == body);
        let told = answer.map(|(p, q)| back(body, p, q));
        assert!(rt; part.told == told);
    }
}

// Whether requests have this source address, and this destination.
fn compare(b: &Box5, src: u32, dst: u32) -> Part<bool>
    requires { IsValid b.now }
{
    let image = Image::of(b);
    image.same(&image.set_src(src).set_dst(dst))
}

// The addresses, the last ones of the body, and whether they are the same.
const COMPARED: [(u32, u32, u32, u32, bool); 8] = [
    (10, 100, 10, 100, true),
    (10, 101, 20, 100, false),
    (15, 100, 14, 200, false),
    (15, 150, 14, 200, false),
    (20, 100, 19, 200, false),
    (9, 100, 20, 200, false),
    (21, 100, 20, 200, false),
    (10, 300, 20, 200, false),
];

#[test]
fn compares(rt: HostRuntime) {
    for (src, dst, last_src, last_dst, told) in COMPARED {
        let part = compare(&from_ports(1000, 2000), src, dst);
        let body = Box5 {
            src: (10, last_src),
            dst: (100, last_dst),
            ..REQUESTS
        };
        assert!(rt; part == Part { body, told });
    }
}

#[test]
fn stays_the_same_within_a_body(rt: HostRuntime) {
    let body = from_ports(1000, 2000);
    let image = Image::of(&body).set_dst(7);
    let request = Header {
        proto: 6,
        src: 12,
        dst: 150,
        p: 1500,
        q: 443,
    };
    assert!(rt; image.part.holds(&request));
    let want = Header { dst: 7, ..request };
    assert!(rt; image.value(&request) == want);
    let same = image.same(&image);
    assert!(rt; same == Part { body, told: true });
    let part = image.narrow(Side::P, 1600, 1700);
    let narrow = image.within(&part.body);
    let lowered = Image {
        part: part.body,
        ..image
    };
    assert!(rt; narrow == lowered);
    assert!(rt; narrow.part.holds(&request));
    assert!(rt; narrow.value(&request) == want);
}
