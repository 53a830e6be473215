// What no command prints: the greatest number, and hops without what comes after them.
use block_report::print_hops;
use bundle::read_bundle;
use prefix_text::{Prefix, put_addr, put_number, put_prefix};
use std::alloc::Global;
use std::test::Fail;
use vpc_base::Header;
use vpc_model::{By, Hop, Place};

const HOP: Hop = Hop {
    place: Place::Internet,
    header: Header {
        proto: 6,
        src: 0x0A00_010A,
        dst: 0x0A00_0214,
        p: 5000,
        q: 443,
    },
    by: By::Nothing,
};

fn hops_text(alloc: Global) -> Option<Vec<u8>> {
    let network = read_bundle(alloc, b"{}").ok()?;
    print_hops(alloc, &network, &[HOP]).ok()
}

#[test]
fn prints(rt: HostRuntime) -> Result<(), Fail> {
    let mut out = hops_text(rt.alloc()).unwrap_or(Vec::new(rt.alloc()));
    assert!(rt; put_number(&mut out, u128::MAX).is_ok());
    out.push(b' ')?;
    assert!(rt; put_addr(&mut out, 0x0A00_0114).is_ok());
    out.push(b' ')?;
    assert!(rt; put_prefix(&mut out, &Prefix::of(0x6444_0012, 18)).is_ok());
    let want: &[u8] = b"hop 1 internet internet tcp 10.0.1.10 10.0.2.20 5000 443
340282366920938463463374607431768211455 10.0.1.20 100.68.0.0/18";
    assert_eq!(rt; out.as_slice(), want);
    Ok(())
}
