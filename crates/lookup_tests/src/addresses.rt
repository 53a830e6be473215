// Runs and blocks in any order.
use address_sets::{AddressSet, Run};
use prefix_text::Prefix;
use std::alloc::Global;
use std::process::Abort;
use std::test::Fail;

const RUNS: [(u32, u32); 7] = [
    (30, 39),
    (10, 19),
    (20, 24),
    (12, 14),
    (9, 8),
    (60, u32::MAX),
    (0, 0),
];

fn set_of_runs(alloc: Global) -> Result<AddressSet, Fail> {
    let mut given = Vec::new(alloc);
    for (first, last) in RUNS {
        given.push(Run { first, last })?;
    }
    Ok(AddressSet::of(alloc, given)?)
}

const HELD: [(u32, bool); 14] = [
    (0, true),
    (1, false),
    (8, false),
    (9, false),
    (10, true),
    (24, true),
    (25, false),
    (29, false),
    (30, true),
    (39, true),
    (40, false),
    (59, false),
    (60, true),
    (u32::MAX, true),
];

const STRETCHES: [(u32, (u32, bool)); 11] = [
    (0, (0, true)),
    (1, (9, false)),
    (9, (9, false)),
    (10, (24, true)),
    (20, (24, true)),
    (24, (24, true)),
    (25, (29, false)),
    (30, (39, true)),
    (59, (59, false)),
    (61, (u32::MAX, true)),
    (u32::MAX, (u32::MAX, true)),
];

const HELD_IN_BLOCKS: [(u32, bool); 6] = [
    (0x09FF_FFFF, false),
    (0x0A00_0000, true),
    (0x0A00_01FF, true),
    (0x0A00_0200, false),
    (0xC0A8_0007, true),
    (0xC0A8_0008, false),
];

fn holds(rt: &impl Abort, set: &AddressSet, cases: &[(u32, bool)]) {
    for (address, want) in cases {
        assert!(rt; set.has(*address) == *want);
    }
}

fn stretches(rt: &impl Abort, set: &AddressSet, cases: &[(u32, (u32, bool))]) {
    for (address, want) in cases {
        assert!(rt; set.stretch(*address) == *want);
    }
}

#[test]
fn has_what_its_runs_have(rt: HostRuntime) -> Result<(), Fail> {
    let set = set_of_runs(rt.alloc())?;
    holds(&rt, &set, &HELD);
    stretches(&rt, &set, &STRETCHES);
    let none = AddressSet::empty(rt.alloc());
    holds(&rt, &none, &[(0, false)]);
    stretches(&rt, &none, &[(7, (u32::MAX, false))]);
    Ok(())
}

#[test]
fn has_what_its_blocks_have(rt: HostRuntime) -> Result<(), Fail> {
    let blocks = [
        Prefix::of(0x0A00_0100, 24),
        Prefix::of(0x0A00_0000, 24),
        Prefix::of(0xC0A8_0007, 32),
    ];
    holds(
        &rt,
        &AddressSet::of_blocks(rt.alloc(), &blocks)?,
        &HELD_IN_BLOCKS,
    );
    Ok(())
}
