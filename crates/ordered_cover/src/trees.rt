// Cut trees, and how rows make one.
ghost use Rattle.std.specs.Prelude.{◌≡◌, ◌<◌, ◌++◌, AllPairs, Contains, IfOk, IsTrue, OnOk, if◌then◌else◌, nat_lt, ◌∷◌, [], ◌+◌};
ghost use Rattle.std.specs.Ordering.{is_lt};
ghost use Rattle.header_boxes.specs.Boxes.{low_of};
ghost use Rattle.ordered_cover.specs.Beside.{cuts_beside};
ghost use Rattle.ordered_cover.specs.Growing.{IsTreeOf, MakeTree, SomeBeginsAt};
ghost use Rattle.vpc_base.specs.Header.{IsBefore, order_of};

use crate::beside::beside;
use crate::corner::corner;
use box_images::Side;
use header_boxes::{Box5, Row};
use std::alloc::{AllocError, Global};
use vpc_base::{Header, NoMemory};

/// A node of a cut tree, which is a list of nodes. A leaf stands for a whole box. After a cut come the nodes that stand
/// for the part of the box that ends before the number, then those for the part that begins at it.
#[derive(Clone, Copy, Debug, PartialEq, Eq)]
pub enum Node<W> {
    /// A side, and a number on it: above the box's low end, and at most its high end.
    Cut(Side, u32),
    /// The word of all headers of a box.
    Leaf(W),
}

// ---- the rows of a tree

// Whether a row begins before a header.
fn begins_before<W>(row: &Row<W>, low: &Header) -> bool
    ensures { result ≡ is_lt (order_of (low_of row.now.part) low.now) }
{
    corner(&row.part).order(low).is_lt()
}

// The row that begins where the box begins.
fn row_at<W: Copy>(rows: &[Row<W>], b: &Box5) -> Row<W>
    requires ascending { AllPairs (λ x y. IsBefore (low_of x.part) (low_of y.part)) rows.now }
    requires some { SomeBeginsAt rows.now b.now }
    ensures { (row : Row W) → Contains rows.now row → low_of row.part ≡ low_of b.now → row ≡ result }
{
    let low = corner(b);
    let before = rows.partition_point(|row| begins_before(row, &low));
    rows[before]
}

// ---- its nodes

// Where the part's side ends before that of the whole, a cut after it.
fn put_cut<W: Copy>(
    nodes: &mut Vec<Node<W>>,
    side: Side,
    last: u32,
    whole: u32,
) -> Result<(), AllocError>
    ensures { OnOk result (nodes.new.items ≡ nodes.old.items
        ++ (if nat_lt last whole then Node.Cut side (last + 1) ∷ [] else [])) }
{
    if last < whole {
        nodes.push(Node::Cut(side, last + 1))?;
    }
    Ok(())
}

// The cuts of a whole down to a part that begins where it begins.
fn put_cuts<W: Copy>(nodes: &mut Vec<Node<W>>, whole: &Box5, part: &Box5) -> Result<(), AllocError>
    ensures { OnOk result (nodes.new.items ≡ nodes.old.items ++ cuts_beside whole.now part.now) }
{
    put_cut(
        nodes,
        Side::Proto,
        u32::from(part.proto.1),
        u32::from(whole.proto.1),
    )?;
    put_cut(nodes, Side::Src, part.src.1, whole.src.1)?;
    put_cut(nodes, Side::Dst, part.dst.1, whole.dst.1)?;
    put_cut(nodes, Side::P, u32::from(part.p.1), u32::from(whole.p.1))?;
    put_cut(nodes, Side::Q, u32::from(part.q.1), u32::from(whole.q.1))
}

/// The tree that rows make, which ascend by their low corners. The boxes that its nodes have still to stand for are taken
/// one after the other, the last one first: the row of each begins where it begins, and is found among all.
pub fn tree_of<W: Copy>(
    alloc: Global,
    sides: Box5,
    rows: &[Row<W>],
) -> Result<Vec<Node<W>>, NoMemory>
    requires { MakeTree sides rows.now }
    ensures { IfOk result (λ nodes. IsTreeOf sides rows.now nodes.items) }
{
    let mut nodes = Vec::new(alloc);
    let mut boxes = Vec::new(alloc);
    boxes.push(sides)?;
    'told: while let Some(b) = boxes.pop() {
        let row = row_at(rows, &b);
        put_cuts(&mut nodes, &b, &row.part)?;
        nodes.push(Node::Leaf(row.word))?;
        boxes.extend_from_slice(beside(&b, &row.part).as_slice())?;
    }
    Ok(nodes)
}
