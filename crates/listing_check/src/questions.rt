// Questions about the requests of starts.
ghost use Rattle.std.specs.Prelude.{◌≡◌, ◌<◌, ◌≤◌, ◌++◌, All, IfOk, IfSome, OnOk, length, slice_get};
ghost use Rattle.header_boxes.specs.Boxes.{IsValid};
ghost use Rattle.listing_check.specs.Looks.{IsLook};
ghost use Rattle.listing_check.specs.Texts.{id_of, outcome_of};
ghost use Rattle.report_reader.specs.Reports.{row_limit};

use crate::looks::Look;
use header_boxes::Row;
use std::alloc::Global;
use vpc_base::{Header, NoMemory, OwnList};

/// A question about the requests of starts, which are numbered from 0.
pub trait Question {
    ghost use Rattle.std.specs.Prelude.{List};
    ghost use Rattle.listing_check.specs.Asked.{Asked};

    /// The starts, with what is asked of each.
    ghost asked: { Self → List Asked };

    /// Looks at the rows of a start.
    fn look(&self, alloc: Global, start: u32, rows: &[Row<OwnList<u8>>]) -> Result<Look, NoMemory>
        requires start { start < length (asked self.now) }
        requires rows { All (λ r. IsValid r.part) rows.now }
        requires few { length rows.now ≤ row_limit }
        ensures { IfOk result (λ look. IfSome (slice_get (asked self.now) start)
            (λ a. IsLook (record { asked = a; rows = rows.now }) look)) };

    /// The id of a start.
    fn id(&self, start: u32) -> &[u8]
        requires start { start < length (asked self.now) }
        ensures { result.now ≡ id_of (slice_get (asked self.now) start) };

    /// Appends what becomes of a request from a start.
    fn put_outcome(&self, out: &mut Vec<u8>, start: u32, h: &Header) -> Result<(), NoMemory>
        requires start { start < length (asked self.now) }
        ensures { OnOk result (out.new.items
            ≡ out.old.items ++ outcome_of (slice_get (asked self.now) start) h.now) };
}
