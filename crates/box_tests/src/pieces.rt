// What no clause says: pieces of worked routes, and what is told of addresses in them, by hand.
ghost use Rattle.std.specs.Prelude.{◌≡◌, ◌≤◌, ◌<◌, ◌+◌, length, IfOk};

use piece_table::{Pieces, Steps};
use std::alloc::Global;
use std::marker::Brand;
use std::sync::ledger::{Blank, Ledger};
use std::test::Fail;

/// The first and the last address of a piece, and what it tells.
type Found = (u32, u32, Option<u32>);

// The routes 0: 10.0.0.0/16, 1: 0.0.0.0/0 and 2: 10.0.2.0/24, of which the longest prefix is told.
fn three_routes(alloc: Global) -> Result<Pieces, Fail>
    ensures { IfOk result (λ p. length p.firsts ≡ 5) }
{
    let firsts = vec![in alloc; 0, 0x0A00_0000, 0x0A00_0200, 0x0A00_0300, 0x0A01_0000]?;
    let told = vec![in alloc; Some(1), Some(0), Some(2), Some(0), Some(1)]?;
    Ok(Pieces::of(firsts, told))
}

// Among five pieces an address is found in at most four steps.
fn find_in_four<L: Ledger>(pieces: &Pieces, x: u32, steps: &mut Steps<L>) -> Found
    requires { length pieces.now.firsts ≡ 5 }
    ensures { steps.new ≤ steps.old + 4 }
{
    pieces.find(x, steps)
}

// What is found of an address among five pieces, and the third of them.
fn found<L: Ledger>(blank: Blank, pieces: &Pieces, x: u32) -> (Found, (u32, Option<u32>))
    requires name { blank.name ≡ L.name }
    requires parts { blank.parts ≡ L.parts }
    requires some { 0 < blank.parts }
    requires five { length pieces.now.firsts ≡ 5 }
{
    let mut steps = Steps::<L>::new(blank);
    let found = find_in_four(pieces, x, &mut steps);
    (found, pieces.at(2, &mut steps))
}

#[test]
fn finds(rt: HostRuntime) -> Result<(), Fail> {
    let pieces = three_routes(rt.alloc())?;
    assert!(rt; pieces.count() == 5);
    let cases: [(u32, Found); 7] = [
        (0, (0, 0x09FF_FFFF, Some(1))),
        (0x09FF_FFFF, (0, 0x09FF_FFFF, Some(1))),
        (0x0A00_0000, (0x0A00_0000, 0x0A00_01FF, Some(0))),
        (0x0A00_0207, (0x0A00_0200, 0x0A00_02FF, Some(2))),
        (0x0A00_FFFF, (0x0A00_0300, 0x0A00_FFFF, Some(0))),
        (0x0A01_0000, (0x0A01_0000, u32::MAX, Some(1))),
        (u32::MAX, (0x0A01_0000, u32::MAX, Some(1))),
    ];
    for (x, want) in cases {
        let (found, third) = found::<Brand>(Blank::new(1), &pieces, x);
        assert!(rt; found == want);
        assert!(rt; third == (0x0A00_0200, Some(2)));
    }
    Ok(())
}
