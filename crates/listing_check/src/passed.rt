// What is found of the starts so far.
ghost use Rattle.std.specs.Prelude.{◌≡◌, ◌+◌, ◌<◌, ◌≤◌, ◌^◌, IfSome};
ghost use Rattle.listing_check.specs.Passed.{found_of, left_out_after, nothing_passed, untrue_after};
ghost use Rattle.report_reader.specs.Reports.{row_limit};

use crate::found::Found;
use vpc_base::Header;

/// The first row that isn't true of all its headers.
#[derive(Clone, Copy)]
pub struct UntrueRow {
    /// The row's number, from 1.
    pub number: u32,
    pub start: u32,
    pub header: Header,
}

/// The first request that is told something and is in no row.
#[derive(Clone, Copy)]
pub struct LeftOut {
    pub start: u32,
    pub header: Header,
}

/// What is found of starts whose rows share no header.
#[derive(Clone, Copy)]
pub struct Passed {
    /// How many starts there are.
    pub starts: u32,
    /// How many rows they have.
    pub rows: u32,
    pub untrue: Option<UntrueRow>,
    pub left_out: Option<LeftOut>,
}

// What was found before, or a row of one more start.
fn untrue_after(
    found: Option<UntrueRow>,
    start: u32,
    before: u32,
    untrue: Option<(u32, Header)>,
) -> Option<UntrueRow>
    requires { IfSome untrue (λ u. before + (u.0 + 1) ≤ row_limit) }
    ensures { result ≡ untrue_after found start before untrue }
{
    match (found, untrue) {
        (Some(row), _) => Some(row),
        (None, None) => None,
        (None, Some((number, header))) => Some(UntrueRow {
            number: before + (number + 1),
            start,
            header,
        }),
    }
}

// What was found before, or a request of one more start.
fn left_out_after(found: Option<LeftOut>, start: u32, unlisted: Option<Header>) -> Option<LeftOut>
    ensures { result ≡ left_out_after found start unlisted }
{
    match (found, unlisted) {
        (Some(request), _) => Some(request),
        (None, None) => None,
        (None, Some(header)) => Some(LeftOut { start, header }),
    }
}

impl Passed {
    /// No start.
    pub fn none() -> Passed
        ensures { result ≡ nothing_passed }
    {
        Passed {
            starts: 0,
            rows: 0,
            untrue: None,
            left_out: None,
        }
    }

    /// One start more, with so many rows, of which this is found.
    pub fn with(&self, rows: u32, untrue: Option<(u32, Header)>, unlisted: Option<Header>) -> Passed
        requires starts { self.now.starts + 1 < 2 ^ 32 }
        requires rows { self.now.rows + rows ≤ row_limit }
        requires untrue { IfSome untrue (λ u. u.0 < rows) }
        ensures starts { result.starts ≡ self.now.starts + 1 }
        ensures rows { result.rows ≡ self.now.rows + rows }
        ensures untrue { result.untrue ≡ untrue_after self.now.untrue self.now.starts self.now.rows untrue }
        ensures left_out { result.left_out ≡ left_out_after self.now.left_out self.now.starts unlisted }
    {
        Passed {
            starts: self.starts + 1,
            rows: self.rows + rows,
            untrue: untrue_after(self.untrue, self.starts, self.rows, untrue),
            left_out: left_out_after(self.left_out, self.starts, unlisted),
        }
    }

    /// What is found of all starts.
    pub fn found(&self) -> Found
        ensures { result ≡ found_of self.now.untrue self.now.left_out }
    {
        match (self.untrue, self.left_out) {
            (Some(row), _) => Found::Untrue(row.number, row.start, row.header),
            (None, Some(request)) => Found::Unlisted(request.start, request.header),
            (None, None) => Found::Yes,
        }
    }
}
