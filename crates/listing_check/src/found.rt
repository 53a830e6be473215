// What is found of the rows of all starts.
ghost use Rattle.std.specs.Prelude.{◌≡◌, ◌<◌, ◌≤◌, ◌^◌, All, IfOk, length};
ghost use Rattle.header_boxes.specs.Boxes.{IsValid};
ghost use Rattle.listing_check.specs.Asked.{listed_of};
ghost use Rattle.listing_check.specs.Found.{IsFound};
ghost use Rattle.listing_reader.specs.Listings.{row_count};
ghost use Rattle.report_reader.specs.Reports.{row_limit};

use crate::looks::Look;
use crate::passed::Passed;
use crate::questions::Question;
use header_boxes::Row;
use std::alloc::Global;
use vpc_base::{Header, NoMemory, OwnList};

/// What is found of a listing. Rows are numbered from 1, starts from 0.
#[derive(Clone, Copy)]
pub enum Found {
    /// The listing is true, and holds all that is to be told.
    Yes,
    /// The first two rows of one start that share a header.
    Overlap(u32, u32),
    /// No two rows of a start share a header. The first row that isn't true of all its headers, its start, and the
    /// first of these.
    Untrue(u32, u32, Header),
    /// All rows are true. The first start of which a request is told something and is in no row, and the first such
    /// request.
    Unlisted(u32, Header),
}

/// What is found of the rows of all starts. Each start is looked at once; after an overlap no other is.
pub fn check_lists<Q: Question>(
    alloc: Global,
    q: &Q,
    lists: &[OwnList<Row<OwnList<u8>>>],
) -> Result<Found, NoMemory>
    requires count { length lists.now ≡ length (Q.asked q.now) }
    requires starts { length lists.now < 2 ^ 32 }
    requires valid { All (λ rows. All (λ r. IsValid r.part) rows) lists.now }
    requires few { row_count lists.now ≤ row_limit }
    ensures { IfOk result (IsFound (listed_of (Q.asked q.now) lists.now)) }
{
    let mut passed = Passed::none();
    for list in lists {
        let rows = list.as_slice();
        match q.look(alloc, passed.starts, rows)? {
            Look::Overlap(i, j) => {
                return Ok(Found::Overlap(passed.rows + (i + 1), passed.rows + (j + 1)));
            }
            Look::Apart { untrue, unlisted } => {
                passed = passed.with(rows.len() as u32, untrue, unlisted);
            }
        }
    }
    Ok(passed.found())
}
