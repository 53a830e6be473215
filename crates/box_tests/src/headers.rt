// What no clause says: the calls on boxes whose answers were counted by hand.
use header_boxes::{Box5, Cuts, aligned, cells};
use std::test::Fail;

const EVERY_HEADER: Box5 = Box5 {
    proto: (0, 255),
    src: (0, 0xffff_ffff),
    dst: (0, 0xffff_ffff),
    p: (0, 65535),
    q: (0, 65535),
};

const HTTPS: Box5 = Box5 {
    proto: (6, 6),
    src: (0x0a00_0000, 0x0a00_00ff),
    dst: (0x0a00_0100, 0x0a00_01ff),
    p: (1024, 65535),
    q: (443, 443),
};

#[test]
fn all_but_https(rt: HostRuntime) {
    assert!(rt; EVERY_HEADER.volume() == 20_282_409_603_651_670_423_947_251_286_016);
    assert!(rt; HTTPS.volume() == 4_227_858_432);
    let rest = EVERY_HEADER.minus(&HTTPS);
    assert!(rt; rest.len() == 9);
    assert!(rt; HTTPS.minus(&EVERY_HEADER).len() == 0);
    assert!(rt; EVERY_HEADER.meet(&HTTPS) == Some(HTTPS));
    assert!(rt; HTTPS.holds(&HTTPS.low()));
}

#[test]
fn cells_of_https(rt: HostRuntime) -> Result<(), Fail> {
    let alloc = rt.alloc();
    let cuts = Cuts {
        proto: vec![in alloc; 0, 6, 7]?,
        addr: vec![in alloc; 0x0a00_0000, 0x0a00_0080, 0x0a00_0100]?,
        p: vec![in alloc; 1024]?,
        q: vec![in alloc; 443, 444]?,
    };
    assert!(rt; cells(&cuts, &HTTPS) == 2);
    assert!(rt; cells(&cuts, &EVERY_HEADER) == 288);
    assert!(rt; !aligned(&cuts, &HTTPS, &EVERY_HEADER));
    Ok(())
}
