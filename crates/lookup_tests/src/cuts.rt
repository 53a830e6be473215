// The cuts of small descriptions, and the cells that they make of boxes.
use crate::networks::{acl_of, description_of, id_of, none, one};
use cut_points::{cells_in, cuts_of};
use header_boxes::Box5;
use prefix_text::Prefix;
use std::alloc::Global;
use std::process::Abort;
use std::test::Fail;
use vpc_base::OwnList;
use vpc_model::{AclRow, Appliance, ApplianceAt, ApplianceKind, Description};

fn one_rule(alloc: Global) -> Result<Description, Fail> {
    let row = AclRow {
        number: 100,
        outward: false,
        allow: true,
        proto: Some(255),
        q_from: 80,
        q_to: 65535,
        block: Prefix::of(0x0A00_0000, 16),
    };
    let acls = one(alloc, acl_of(alloc, &[row])?)?;
    Ok(description_of(alloc, acls, none(alloc)))
}

fn appliance(alloc: Global, name: &[u8], kind: ApplianceKind) -> Result<Appliance, Fail> {
    let id = id_of(alloc, name)?;
    Ok(Appliance {
        id,
        at: ApplianceAt::Interface,
        kind,
    })
}

fn two_appliances(alloc: Global) -> Result<Description, Fail> {
    let service = ApplianceKind::Service(443, 2000);
    let peer = ApplianceKind::Peer(Prefix::of(0xC000_0200, 24));
    let mut appliances = Vec::new(alloc);
    appliances.push(appliance(alloc, b"eni-1", service)?)?;
    appliances.push(appliance(alloc, b"eni-2", peer)?)?;
    Ok(description_of(alloc, none(alloc), OwnList::of(appliances)))
}

/// Cuts of protocols, p, q and addresses.
type Told = (
    &'static [u32],
    &'static [u32],
    &'static [u32],
    &'static [u32],
);

const OF_RULE: Told = (
    &[1, 2, 6, 7, 17, 18, 255],
    &[80, 1024, 64512],
    &[80, 2048, 2049],
    &[
        0, 16777216, 167772160, 167837696, 184549376, 2130706432, 2147483648, 2851995648,
        2852061184, 2886729728, 2887778304, 3232235520, 3232301056, 3758096384,
    ],
);

const OF_APPLIANCES: Told = (
    &[0, 1, 2, 6, 7, 17, 18],
    &[0, 443, 977, 1024, 2001, 64512],
    &[0, 443, 2001, 2048, 2049],
    &[
        0, 16777216, 167772160, 184549376, 2130706432, 2147483648, 2851995648, 2852061184,
        2886729728, 2887778304, 3221225984, 3221226240, 3232235520, 3232301056, 3758096384,
    ],
);

fn has_cuts(rt: &impl Abort, alloc: Global, d: &Description, told: &Told) -> Result<(), Fail> {
    let cuts = cuts_of(alloc, d)?;
    assert!(rt; cuts.proto.as_slice() == told.0);
    assert!(rt; cuts.p.as_slice() == told.1);
    assert!(rt; cuts.q.as_slice() == told.2);
    assert!(rt; cuts.addr.as_slice() == told.3);
    Ok(())
}

// Each side begins at a cut and ends before the next one.
const UNDIVIDED: Box5 = Box5 {
    proto: (2, 5),
    src: (0x0A00_0000, 0x0A00_FFFF),
    dst: (0x0A01_0000, 0x0AFF_FFFF),
    p: (1024, 64511),
    q: (80, 2047),
};

// Each side ends at a cut, the destination at the second of two.
const ENDS_AT_CUTS: Box5 = Box5 {
    proto: (2, 6),
    src: (0x0A00_0000, 0x0A01_0000),
    dst: (0x0A00_FFFF, 0x0B00_0000),
    p: (79, 80),
    q: (2048, 2049),
};

// Only the destination is divided.
const TOWARDS: Box5 = Box5 {
    dst: (0x0A00_FFFF, 0x0B00_0000),
    ..UNDIVIDED
};

// 8 pieces of protocols, 14 of sources and of destinations, 4 of p and of q.
const WHOLE: Box5 = Box5 {
    proto: (0, 255),
    src: (0, 0xFFFF_FFFF),
    dst: (0, 0xFFFF_FFFF),
    p: (0, 65535),
    q: (0, 65535),
};

fn has_cells(rt: &impl Abort, alloc: Global, d: &Description) -> Result<(), Fail> {
    assert!(rt; cells_in(alloc, d, &UNDIVIDED)? == 1);
    assert!(rt; cells_in(alloc, d, &ENDS_AT_CUTS)? == 48);
    assert!(rt; cells_in(alloc, d, &TOWARDS)? == 3);
    assert!(rt; cells_in(alloc, d, &WHOLE)? == 25088);
    Ok(())
}

#[test]
fn cuts_of_one_rule(rt: HostRuntime) -> Result<(), Fail> {
    let d = one_rule(rt.alloc())?;
    has_cuts(&rt, rt.alloc(), &d, &OF_RULE)?;
    has_cells(&rt, rt.alloc(), &d)
}

#[test]
fn cuts_of_appliances(rt: HostRuntime) -> Result<(), Fail> {
    has_cuts(
        &rt,
        rt.alloc(),
        &two_appliances(rt.alloc())?,
        &OF_APPLIANCES,
    )
}
