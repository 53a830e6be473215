// Rows that are piled up box by box, as far as none is left out.
ghost use Rattle.std.specs.Prelude.{◌≡◌, ◌++◌, IsPermutation, OnOk, filter};
ghost use Rattle.header_boxes.specs.Boxes.{low_of};
ghost use Rattle.box_gather.specs.Pile.{IsShortened, IsTrimmed, RiseByCorner, begins_before, earlier, is_before, kept_before};

use header_boxes::{Box5, Row};
use std::alloc::AllocError;
use std::cmp::Ordering;
use vpc_base::Header;

/// Rows, and the first header that is told something and is in none of them, if there is one.
#[derive(Drop)]
pub struct Pile<W> {
    pub rows: Vec<Row<W>>,
    pub next: Option<Header>,
}

// The low corner of a row, whose box is known to be valid where this is called in a sort, but not to the sort.
fn corner(b: &Box5) -> Header
    ensures { result ≡ low_of b.now }
{
    Header {
        proto: b.proto.0,
        src: b.src.0,
        dst: b.dst.0,
        p: b.p.0,
        q: b.q.0,
    }
}

fn is_before(one: &Header, other: &Header) -> bool
    ensures { result ≡ is_before one.now other.now }
{
    one.order(other).is_lt()
}

fn earlier(one: Option<Header>, other: Option<Header>) -> Option<Header>
    ensures { result ≡ earlier one other }
{
    match (one, other) {
        (Some(a), Some(b)) => { if is_before(&b, &a) { Some(b) } else { Some(a) } }
        (Some(a), None) => Some(a),
        (None, o) => o,
    }
}

fn begins_before<W: Copy>(next: &Header, row: &Row<W>) -> bool
    ensures { result ≡ begins_before next.now row.now }
{
    is_before(&corner(&row.part), next)
}

// The rows that begin before a header.
fn keep<W: Copy>(rows: &mut Vec<Row<W>>, next: Header)
    ensures { rows.new.items ≡ filter (begins_before next) rows.old.items }
{
    rows.retain(|row| begins_before(&next, row));
}

// Those that begin before it, if there is one.
fn keep_before<W: Copy>(rows: &mut Vec<Row<W>>, next: Option<Header>)
    ensures { rows.new.items ≡ kept_before next rows.old.items }
{
    if let Some(n) = next {
        keep(rows, n);
    }
}

fn sort<W: Copy>(rows: &mut Vec<Row<W>>)
    ensures same { IsPermutation rows.old.items rows.new.items }
    ensures rise { RiseByCorner rows.new.items }
{
    rows.sort_unstable_by(|a, b| corner(&a.part).order(&corner(&b.part)));
}

impl<W: Copy> Pile<W> {
    /// Adds the pile of other boxes. What begins after a header that is left out is taken off again.
    pub fn join(&mut self, more: Pile<W>) -> Result<(), AllocError>
        ensures rows { OnOk result (self.new.rows.items
            ≡ kept_before (earlier self.old.next more.next) (self.old.rows.items ++ more.rows.items)) }
        ensures next { OnOk result (self.new.next ≡ earlier self.old.next more.next) }
    {
        self.rows.extend_from_slice(more.rows.as_slice())?;
        self.next = earlier(self.next, more.next);
        keep_before(&mut self.rows, self.next);
        Ok(())
    }

    /// Orders the rows, and takes off those past the first `room`.
    pub fn trim(&mut self, room: usize)
        ensures { IsTrimmed room self.old.rows.items self.old.next self.new.rows.items self.new.next }
    {
        sort(&mut self.rows);
        if room < self.rows.len() {
            self.next = Some(corner(&self.rows[room].part));
            self.rows.truncate(room);
        }
    }

    /// Trims the rows where there are more than twice `room` of them, so that each row is moved a few times at most.
    pub fn shorten(&mut self, room: usize)
        ensures { IsShortened room self.old.rows.items self.old.next self.new.rows.items self.new.next }
    {
        if room < self.rows.len() / 2 {
            self.trim(room);
        }
    }
}
