// The text of an answer, by the lines of its rows.
ghost use Rattle.std.specs.Prelude.{◌≡◌, ◌++◌, ◌≤◌, IfOk, OnOk, length, map, nat_lt, string_bytes};
ghost use Rattle.listing_text.specs.Answered.{host_limit, status_by};
ghost use Rattle.listing_text.specs.Texts.{next_line, part_of, whole_of};

use crate::words::put_query;
use block_report::{put, put_end, put_header_word, put_line, put_number_line, put_word};
use command_job::{Answer, Status};
use std::alloc::Global;
use vpc_base::{Header, NoMemory};

// From how many hosts it is asked at most where no end is given.
const MOST_HOSTS: usize = 500;

/// Whether these are more hosts than it is asked from where no end is given.
pub fn is_many(hosts: usize) -> bool
    ensures { result ≡ nat_lt host_limit hosts }
{
    MOST_HOSTS < hosts
}

/// The status where there are rows, or the other.
pub fn status_by(rows: Status, nothing: Status, count: u32) -> Status
    ensures { result ≡ status_by rows nothing count }
{
    if count == 0 { nothing } else { rows }
}

fn put_next(out: &mut Vec<u8>, id: &[u8], next: &Header) -> Result<(), NoMemory>
    ensures { OnOk result (out.new.items ≡ out.old.items ++ next_line id.now next.now) }
{
    put(out, b"next")?;
    put_word(out, id)?;
    put_header_word(out, next)?;
    put_end(out)
}

/// What an answer has before its last line.
#[derive(Drop)]
pub struct Listing<'a> {
    /// The first line.
    pub first: &'a [u8],
    /// The words of the command, of which the first `before` aren't the query's.
    pub words: &'a [String],
    pub before: usize,
    /// The lines of the rows.
    pub lines: &'a [u8],
}

/// All rows, after a first line and the line of the query.
pub fn answer_whole(
    alloc: Global,
    listing: &Listing,
    count: u32,
    status: Status,
) -> Result<Answer, NoMemory>
    requires some { 2 ≤ listing.now.before }
    requires counted { listing.now.before ≤ length listing.now.words.now }
    ensures status { IfOk result (λ a. a.status ≡ status) }
    ensures text { IfOk result (λ a. a.text.items ≡ whole_of listing.now.first.now
        listing.now.before (map string_bytes listing.now.words.now) listing.now.lines.now count) }
{
    let mut text = Vec::new(alloc);
    put_line(&mut text, listing.first)?;
    put_query(&mut text, listing.before, listing.words)?;
    put(&mut text, listing.lines)?;
    put_number_line(&mut text, b"end", u128::from(count))?;
    Ok(Answer { status, text })
}

/// Rows that leave headers out, with the first of these and the id of its start.
pub fn answer_part(
    alloc: Global,
    listing: &Listing,
    id: &[u8],
    next: &Header,
) -> Result<Answer, NoMemory>
    requires some { 2 ≤ listing.now.before }
    requires counted { listing.now.before ≤ length listing.now.words.now }
    ensures status { IfOk result (λ a. a.status ≡ Status.More) }
    ensures text { IfOk result (λ a. a.text.items ≡ part_of listing.now.first.now
        listing.now.before (map string_bytes listing.now.words.now) listing.now.lines.now
        id.now next.now) }
{
    let mut text = Vec::new(alloc);
    put_line(&mut text, listing.first)?;
    put_query(&mut text, listing.before, listing.words)?;
    put(&mut text, listing.lines)?;
    put_next(&mut text, id, next)?;
    Ok(Answer {
        status: Status::More,
        text,
    })
}
