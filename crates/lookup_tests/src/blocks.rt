// Pieces of worked blocks.
ghost use Rattle.std.specs.Prelude.{◌≡◌, ◌≤◌, ◌<◌};

use block_pieces::{BlockRow, pieces_of};
use piece_table::{Pieces, Steps};
use prefix_text::Prefix;
use std::alloc::Global;
use std::marker::Brand;
use std::process::Abort;
use std::sync::ledger::{Blank, Ledger};
use std::test::Fail;

/// The first address of a piece, and what it tells.
type Piece = (u32, Option<u32>);

fn row(addr: u32, length: u8, rank: u64, row: u32) -> BlockRow
    requires { length ≤ 32 }
{
    let block = Prefix::of(addr, length);
    BlockRow { block, rank, row }
}

fn found<L: Ledger>(blank: Blank, pieces: &Pieces, x: u32) -> Piece
    requires name { blank.name ≡ L.name }
    requires parts { blank.parts ≡ L.parts }
    requires some { 0 < blank.parts }
{
    let mut steps = Steps::<L>::new(blank);
    let (first, _, told) = pieces.find(x, &mut steps);
    (first, told)
}

// The piece that holds an address.
fn found_at(pieces: &Pieces, x: u32) -> Piece {
    found::<Brand>(Blank::new(1), pieces, x)
}

// How many pieces these rows make, and those that hold some addresses.
fn makes(
    rt: &impl Abort,
    alloc: Global,
    rows: Vec<BlockRow>,
    count: u64,
    cases: &[(u32, Piece)],
) -> Result<(), Fail> {
    let pieces = pieces_of(alloc, rows)?;
    assert!(rt; pieces.count() == count);
    for (x, want) in cases {
        assert!(rt; found_at(&pieces, *x) == *want);
    }
    Ok(())
}

// The routes 0: 10.0.0.0/16, 1: 0.0.0.0/0 and 2: 10.0.2.0/24, of which the longest block is told.
const LONGEST: [(u32, Piece); 5] = [
    (5, (0, Some(1))),
    (0x0A00_0105, (0x0A00_0000, Some(0))),
    (0x0A00_0207, (0x0A00_0200, Some(2))),
    (0x0A00_FFFF, (0x0A00_0300, Some(0))),
    (u32::MAX, (0x0A01_0000, Some(1))),
];

// An outer block that is better than an inner one, a block that two rows have, and the last address.
const BEST: [(u32, Piece); 5] = [
    (0, (0, None)),
    (0x0A00_0000, (0x0A00_0000, Some(1))),
    (0x0A00_0207, (0x0A00_0200, Some(1))),
    (0x0A01_0000, (0x0A01_0000, None)),
    (u32::MAX, (u32::MAX, Some(2))),
];

#[test]
fn best_block_is_told(rt: HostRuntime) -> Result<(), Fail> {
    let alloc = rt.alloc();
    let rows = vec![in alloc;
        row(0x0A00_0000, 16, 16, 0),
        row(0, 0, 32, 1),
        row(0x0A00_0200, 24, 8, 2),
    ]?;
    makes(&rt, alloc, rows, 5, &LONGEST)?;
    let rows = vec![in alloc;
        row(0x0A00_0200, 24, 9, 0),
        row(0x0A00_0000, 16, 5, 1),
        row(u32::MAX, 32, 7, 3),
        row(u32::MAX, 32, 7, 2),
    ]?;
    makes(&rt, alloc, rows, 6, &BEST)?;
    let rows = vec![in alloc; row(0x0A01_0000, 16, 16, 0)]?;
    makes(&rt, alloc, rows, 3, &[])?;
    makes(&rt, alloc, Vec::new(alloc), 1, &[(7, (0, None))])
}
