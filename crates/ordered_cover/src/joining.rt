// Rows that follow each other are joined.
ghost use Rattle.std.specs.Prelude.{◌≡◌, ◌↔◌, ◌<◌, ◌⊎◌, ◌∷◌, ◌++◌, [], IsTrue, IfNone, IfSome, length};
ghost use Rattle.ordered_cover.specs.Joined.{AreJoined, CanJoin, GoesOn, GoesOnEitherWay, GoesOnInP};
ghost use Rattle.ordered_cover.specs.Kept.{GoesOnBy, IsOneWithLast, KeepsSplit, span};

use crate::Probe;
use header_boxes::{Box5, Row};

/// The sides along which rows are joined.
#[derive(Clone, Copy)]
pub enum Along {
    Q,
    PAndQ,
}

// Whether a part has the sides of another one, but that it begins one past the last q of that.
fn goes_on(part: &Box5, other: &Box5) -> bool
    ensures { IsTrue result ↔ GoesOn other.now part.now }
{
    other.proto == part.proto
        && other.src == part.src
        && other.dst == part.dst
        && other.p == part.p
        && u32::from(other.q.1) + 1 == u32::from(part.q.0)
}

// Whether a part has the sides of another one, but that it begins one past the last p of that.
fn goes_on_in_p(part: &Box5, other: &Box5) -> bool
    ensures { IsTrue result ↔ GoesOnInP other.now part.now }
{
    other.proto == part.proto
        && other.src == part.src
        && other.dst == part.dst
        && u32::from(other.p.1) + 1 == u32::from(part.p.0)
        && other.q == part.q
}

fn goes_on_by(along: Along, part: &Box5, other: &Box5) -> bool
    ensures { IsTrue result ↔ GoesOnBy along other.now part.now }
{
    match along {
        Along::Q => goes_on(part, other),
        Along::PAndQ => goes_on(part, other) || goes_on_in_p(part, other),
    }
}

// Whether a row goes on from another one with its word.
fn can_join<P: Probe>(along: Along, last: &Row<P::Word>, row: &Row<P::Word>) -> bool
    ensures { IsTrue result ↔ CanJoin (GoesOnBy along) last.now row.now }
{
    goes_on_by(along, &row.part, &last.part) && P::is_same(last.word, row.word)
}

// The box as far as the last p and q of the other.
fn span(first: &Box5, other: &Box5) -> Box5
    ensures { result ≡ span first.now other.now }
{
    Box5 {
        p: (first.p.0, other.p.1),
        q: (first.q.0, other.q.1),
        ..*first
    }
}

// The last row and one that goes on from it with its word, as one.
pub(crate) fn one_with_last<P: Probe>(
    along: Along,
    rows: &[Row<P::Word>],
    row: &Row<P::Word>,
) -> Option<Row<P::Word>>
    ensures some { IfSome result (IsOneWithLast (GoesOnBy along) rows.now row.now) }
    ensures none { IfNone result
        (AreJoined (GoesOnBy along) rows.now → AreJoined (GoesOnBy along) (rows.now ++ row.now ∷ [])) }
{
    let last = rows.last()?;
    if !can_join::<P>(along, last, row) {
        return None;
    }
    Some(Row {
        part: span(&last.part, &row.part),
        word: last.word,
    })
}

/// A row together with the last rows that it can be one with, by p or by q, which are taken out. Once a row is joined, the
/// one before may go on to both.
pub fn join_last<P: Probe>(rows: &mut Vec<Row<P::Word>>, row: Row<P::Word>) -> Row<P::Word>
    ensures kept { KeepsSplit (rows.old.items ++ row ∷ []) (rows.new.items ++ result ∷ []) }
    ensures joined { AreJoined GoesOnEitherWay rows.old.items
        → AreJoined GoesOnEitherWay (rows.new.items ++ result ∷ []) }
    ensures same { (rows.new.items ≡ rows.old.items) ⊎ (length rows.new.items < length rows.old.items) }
{
    let mut row = row;
    'joined: while let Some(wider) = one_with_last::<P>(Along::PAndQ, rows.as_slice(), &row) {
        rows.pop();
        row = wider;
    }
    row
}
