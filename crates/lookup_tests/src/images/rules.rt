// Rules and boxes.
ghost use Rattle.std.specs.Prelude.{◌≤◌};
ghost use Rattle.box_images.specs.Images.{IsImageOfWalk, IsValidImage};

use crate::requests::opens;
use box_images::{Image, Side};
use header_boxes::Box5;
use image_tests::{begins_on, block_on, box_on, proto_on, range_on, rule_on};
use prefix_text::Prefix;

// Requests by protocols from 6 on, from 10 to 20, to ports from q on.
fn requests(last_proto: u8, q: u16) -> Image
    requires { 6 ≤ last_proto }
    ensures valid { IsValidImage result }
    ensures walk { IsImageOfWalk result }
{
    opens(&Box5 {
        proto: (6, last_proto),
        src: (10, 20),
        dst: (100, 200),
        p: (1000, 2000),
        q: (q, u16::MAX),
    })
}

#[test]
fn asks_protocols(rt: HostRuntime) {
    let i = requests(20, 0);
    // another protocol is told up to just before its own
    let cases = [
        (None, true, 20),
        (Some(6), true, 6),
        (Some(17), false, 16),
        (Some(1), false, 20),
    ];
    for (proto, told, last) in cases {
        let got = proto_on(&i, proto);
        assert!(rt; (got.told, got.body.proto) == (told, (6, last)));
    }
}

#[test]
fn asks_ranges(rt: HostRuntime) {
    let i = requests(6, 80);
    let cases = [
        ((80, 90), true, 90),
        ((0, 79), false, u16::MAX),
        ((443, 443), false, 442),
        ((0, 65535), true, u16::MAX),
        // a reversed range has no port, and nothing is lowered
        ((90, 80), false, u16::MAX),
        ((443, 81), false, u16::MAX),
    ];
    for ((from, to), told, last) in cases {
        let got = range_on(&i, from, to);
        assert!(rt; (got.told, got.body.q) == (told, (80, last)));
        assert!(rt; got.body.p == (1000, 2000));
    }
    let later = begins_on(&i, 443);
    assert!(rt; (later.told, later.body.q) == (false, (80, 442)));
}

#[test]
fn asks_rules(rt: HostRuntime) {
    let i = requests(20, 80);
    // a rule of another protocol says nothing of ports
    let cases = [
        (Some(6), (443, 443), false, (6, 442)),
        (Some(17), (443, 443), false, (16, u16::MAX)),
        (Some(6), (80, 80), true, (6, 80)),
        (None, (80, 90), true, (20, 90)),
    ];
    for (proto, (from, to), told, (last_proto, last)) in cases {
        let got = rule_on(&i, proto, from, to);
        assert!(rt; got.told == told);
        assert!(rt; (got.body.proto.1, got.body.q.1) == (last_proto, last));
    }
}

#[test]
fn asks_blocks_and_boxes(rt: HostRuntime) {
    let i = requests(6, 80);
    let block = block_on(&i, Side::Src, &Prefix::of(8, 29));
    assert!(rt; (block.told, block.body.src) == (true, (10, 15)));
    let later = block_on(&i, Side::Dst, &Prefix::of(128, 25));
    assert!(rt; (later.told, later.body.dst) == (false, (100, 127)));
    let b = Box5 {
        proto: (0, 255),
        src: (0, 15),
        dst: (150, 160),
        p: (0, 1500),
        q: (80, 90),
    };
    // the sides before the first one that the low corner isn't on are lowered to the box, and no later one
    let outside = box_on(&i, &b);
    assert!(rt; outside.told == false);
    assert!(rt; (outside.body.src, outside.body.dst) == ((10, 15), (100, 149)));
    assert!(rt; (outside.body.p, outside.body.q) == ((1000, 2000), (80, u16::MAX)));
    let inside = box_on(&i, &Box5 { dst: (0, 160), ..b });
    assert!(rt; inside.told == true);
    assert!(rt; (inside.body.src, inside.body.dst) == ((10, 15), (100, 160)));
    assert!(rt; (inside.body.p, inside.body.q) == ((1000, 1500), (80, 90)));
}
