// The rows of a start, one after the other.
ghost use Rattle.std.specs.Prelude.{◌≤◌, All, IfOk, length};
ghost use Rattle.header_boxes.specs.Boxes.{IsValid};
ghost use Rattle.listing_check.specs.Looks.{IsRowSearch};
ghost use Rattle.report_reader.specs.Reports.{row_limit};

use crate::looks::Listing;
use header_boxes::Row;
use std::alloc::Global;
use vpc_base::{Header, NoMemory, OwnList};

/// The first row, by its number from 0, that isn't true of all its headers, with the first of these.
pub fn first_untrue<L: Listing>(
    alloc: Global,
    listing: &L,
    rows: &[Row<OwnList<u8>>],
) -> Result<Option<(u32, Header)>, NoMemory>
    requires rows { All (λ r. IsValid r.part) rows.now }
    requires few { length rows.now ≤ row_limit }
    ensures { IfOk result (IsRowSearch (L.told listing.now) rows.now) }
{
    let mut number = 0;
    for row in rows {
        if let Some(h) = listing.first_other(alloc, &row.part, Some(row.word.as_slice()))? {
            return Ok(Some((number, h)));
        }
        number += 1;
    }
    Ok(None)
}
