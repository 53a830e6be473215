// Prints what is found of a listing.
ghost use Rattle.std.specs.Prelude.{◌≡◌, ◌++◌, ◌<◌, OnOk, decimal, length, slice_get};
ghost use Rattle.block_report.specs.Words.{header_text, word};
ghost use Rattle.listing_check.specs.Passed.{NamesStart};
ghost use Rattle.listing_check.specs.Texts.{found_text, id_of, outcome_of};

use crate::found::Found;
use crate::questions::Question;
use block_report::{put, put_header_word, put_number_word, put_word};
use report_check::put_overlap;
use vpc_base::{Header, NoMemory};

fn put_outcome_word<Q: Question>(
    out: &mut Vec<u8>,
    q: &Q,
    start: u32,
    h: &Header,
) -> Result<(), NoMemory>
    requires { start < length (Q.asked q.now) }
    ensures { OnOk result (out.new.items
        ≡ out.old.items ++ word (outcome_of (slice_get (Q.asked q.now) start) h.now)) }
{
    put(out, b" ")?;
    q.put_outcome(out, start, h)
}

fn put_untrue<Q: Question>(
    out: &mut Vec<u8>,
    q: &Q,
    number: u32,
    start: u32,
    h: &Header,
) -> Result<(), NoMemory>
    requires { start < length (Q.asked q.now) }
    ensures { OnOk result (out.new.items
        ≡ out.old.items ++ word (decimal number) ++ word (header_text h.now)
        ++ word (outcome_of (slice_get (Q.asked q.now) start) h.now)) }
{
    put_number_word(out, u128::from(number))?;
    put_header_word(out, h)?;
    put_outcome_word(out, q, start, h)
}

fn put_unlisted<Q: Question>(
    out: &mut Vec<u8>,
    q: &Q,
    start: u32,
    h: &Header,
) -> Result<(), NoMemory>
    requires { start < length (Q.asked q.now) }
    ensures { OnOk result (out.new.items
        ≡ out.old.items ++ word (id_of (slice_get (Q.asked q.now) start)) ++ word (header_text h.now)
        ++ word (outcome_of (slice_get (Q.asked q.now) start) h.now)) }
{
    put_word(out, q.id(start))?;
    put_header_word(out, h)?;
    put_outcome_word(out, q, start, h)
}

/// Appends what is found of a listing.
pub fn put_found<Q: Question>(out: &mut Vec<u8>, q: &Q, found: &Found) -> Result<(), NoMemory>
    requires { NamesStart (Q.asked q.now) found.now }
    ensures { OnOk result (out.new.items ≡ out.old.items ++ found_text (Q.asked q.now) found.now) }
{
    match found {
        Found::Yes => put(out, b"yes"),
        Found::Overlap(i, j) => put_overlap(out, *i, *j),
        Found::Untrue(i, start, h) => {
            put(out, b"no untrue")?;
            put_untrue(out, q, *i, *start, h)
        }
        Found::Unlisted(start, h) => {
            put(out, b"no unlisted")?;
            put_unlisted(out, q, *start, h)
        }
    }
}
