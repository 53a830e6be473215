// What is answered to the lines of a listing.
ghost use Rattle.std.specs.Prelude.{◌≡◌, ◌<◌, ◌≤◌, ◌^◌, All, IfOk, length, map};
ghost use Rattle.command_job.specs.Lines.{line};
ghost use Rattle.header_boxes.specs.Boxes.{IsValid};
ghost use Rattle.listing_check.specs.Answered.{IsListingChecked, IsVerdict, found_status, origins_of};
ghost use Rattle.listing_check.specs.Passed.{NamesStart};
ghost use Rattle.listing_check.specs.Texts.{found_text};
ghost use Rattle.listing_reader.specs.Listings.{row_count};
ghost use Rattle.report_reader.specs.Reports.{row_limit};

use crate::found::{Found, check_lists};
use crate::questions::Question;
use crate::texts::put_found;
use block_report::put_end;
use command_job::{Answer, Status};
use header_boxes::Row;
use listing_reader::{Origin, read_lists};
use report_check::refuse_fault;
use std::alloc::Global;
use vpc_base::{NoMemory, OwnList};

fn status_of(found: &Found) -> Status
    ensures { result ≡ found_status found.now }
{
    match found {
        Found::Yes => Status::Yes,
        Found::Overlap(_, _) => Status::No,
        Found::Untrue(_, _, _) => Status::No,
        Found::Unlisted(_, _) => Status::No,
    }
}

fn answer_found<Q: Question>(alloc: Global, q: &Q, found: &Found) -> Result<Answer, NoMemory>
    requires { NamesStart (Q.asked q.now) found.now }
    ensures status { IfOk result (λ a. a.status ≡ found_status found.now) }
    ensures text { IfOk result (λ a. a.text.items ≡ line (found_text (Q.asked q.now) found.now)) }
{
    let mut text = Vec::new(alloc);
    put_found(&mut text, q, found)?;
    put_end(&mut text)?;
    Ok(Answer {
        status: status_of(found),
        text,
    })
}

// What is answered to rows by their starts.
fn answer_lists<Q: Question>(
    alloc: Global,
    q: &Q,
    lists: &[OwnList<Row<OwnList<u8>>>],
) -> Result<Answer, NoMemory>
    requires count { length lists.now ≡ length (Q.asked q.now) }
    requires starts { length lists.now < 2 ^ 32 }
    requires valid { All (λ rows. All (λ r. IsValid r.part) rows) lists.now }
    requires few { row_count lists.now ≤ row_limit }
    ensures { IfOk result (λ a. IsVerdict (Q.asked q.now) lists.now a.status a.text.items) }
{
    let found = check_lists(alloc, q, lists)?;
    answer_found(alloc, q, &found)
}

/// What is answered to the lines of a listing after the first two. The origins are the starts that the question asks about.
pub fn answer_lines<Q: Question>(
    alloc: Global,
    q: &Q,
    origins: &[Origin],
    ended: bool,
    lines: &[&[u8]],
) -> Result<Answer, NoMemory>
    requires origins { origins.now ≡ origins_of (Q.asked q.now) }
    requires starts { length origins.now < 2 ^ 32 }
    ensures { IfOk result (λ a.
        IsListingChecked (Q.asked q.now) ended (map (λ l. l.now) lines.now) a.status a.text.items) }
{
    match read_lists(alloc, origins, ended, lines) {
        Ok(lists) => answer_lists(alloc, q, lists.as_slice()),
        Err(fault) => refuse_fault(alloc, fault),
    }
}
