// Verdicts on boxes.
ghost use Rattle.std.specs.Prelude.{◌≤◌};

use crate::networks::{acl_of, description_of, none, one};
use crate::requests::opens;
use header_boxes::Box5;
use network_acls::AclIndex;
use prefix_text::Prefix;
use std::alloc::Global;
use std::test::Fail;
use vpc_base::Dir;
use vpc_model::{AclNo, AclRow};

fn row(number: u16, allow: bool, proto: Option<u8>, q: (u16, u16), block: Prefix) -> AclRow {
    AclRow {
        number,
        outward: false,
        allow,
        proto,
        q_from: q.0,
        q_to: q.1,
        block,
    }
}

// The first row has no ports. SSH is denied, HTTPS is allowed from 10.0.0.0/8, and so are the high ports by any
// protocol.
fn index_of_four_rows(alloc: Global) -> Result<AclIndex, Fail> {
    let anywhere = Prefix::of(0, 0);
    let rows = [
        row(80, true, Some(6), (90, 80), anywhere),
        row(90, false, Some(6), (22, 22), anywhere),
        row(100, true, Some(6), (443, 443), Prefix::of(0x0A00_0000, 8)),
        row(110, true, None, (32768, 65535), anywhere),
    ];
    let acls = one(alloc, acl_of(alloc, &rows)?)?;
    let d = description_of(alloc, acls, none(alloc));
    Ok(AclIndex::of(alloc, &d, AclNo(0))?)
}

/// The verdict, and the last protocol, source and port of the body.
type Told = ((bool, u16), (u8, u32, u16));

// Of packets from an address on, to a port or one above it, by TCP or a protocol up to the last one.
fn told(index: &AclIndex, last_proto: u8, src: u32, q: u16) -> Told
    requires { 6 ≤ last_proto }
{
    let asked = opens(&Box5 {
        proto: (6, last_proto),
        src: (src, u32::MAX),
        dst: (1, 2),
        p: (0, 9),
        q: (q, u16::MAX),
    });
    let x = index.decide_on(Dir::Inward, &asked);
    (x.told, (x.body.proto.1, x.body.src.1, x.body.q.1))
}

const BEFORE_TEN: u32 = 0x09FF_FFFF;

const TEN: u32 = 0x0A00_0000;

const AFTER_TEN: u32 = 0x0B00_0000;

const MOST: u32 = u32::MAX;

const CASES: [(u8, u32, u16, Told); 8] = [
    // no row up to the port of the next one: SSH, HTTPS, the high ports
    (6, TEN, 0, ((false, 32767), (6, MOST, 21))),
    (6, TEN, 22, ((false, 90), (6, MOST, 22))),
    (6, TEN, 23, ((false, 32767), (6, MOST, 442))),
    // HTTPS, from the block alone
    (6, TEN, 443, ((true, 100), (6, 0x0AFF_FFFF, 443))),
    (6, BEFORE_TEN, 443, ((false, 32767), (6, BEFORE_TEN, 32767))),
    (6, AFTER_TEN, 443, ((false, 32767), (6, MOST, 32767))),
    // rows of the ports before it are passed over to the end of the box, where that holds more protocols too
    (6, TEN, 40000, ((true, 110), (6, MOST, u16::MAX))),
    (9, TEN, 444, ((false, 32767), (9, MOST, 32767))),
];

#[test]
fn verdicts_on_boxes(rt: HostRuntime) -> Result<(), Fail> {
    let index = index_of_four_rows(rt.alloc())?;
    for (last_proto, src, q, want) in CASES {
        assert!(rt; last_proto >= 6);
        assert!(rt; told(&index, last_proto, src, q) == want);
    }
    Ok(())
}
