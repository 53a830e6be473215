// The nodes of a tree, one a line.
ghost use Rattle.std.specs.Prelude.{◌≡◌, ◌≤◌, ◌<◌, ◌==◌, ◌&&◌, ◌∷◌, [], IfOk, Ok, OnOk, Some, length, map};
ghost use Rattle.ordered_cover.specs.Trees.{IsCutTree, leaf_count};
ghost use Rattle.report_reader.specs.Nodes.{CanPass, boxes_after, leaf_limit, leaves_after, nodes_from};
ghost use Rattle.report_reader.specs.Reports.{IsRead};

use crate::ReportFault;
use crate::nodes::read_next_node;
use crate::row_lists::is_last;
use header_boxes::Box5;
use ordered_cover::{Node, TreeWalk};
use std::alloc::{AllocError, Global};
use vpc_base::OwnList;
use vpc_model::StopText;

// The boxes that are left after a node.
fn pass(walk: &mut TreeWalk, node: &Node<StopText>) -> Result<(), AllocError>
    requires { CanPass node.now walk.old }
    ensures { OnOk result (walk.new ≡ boxes_after (Ok (Some node.now)) walk.old) }
{
    match node {
        Node::Cut(side, number) => walk.cut(*side, *number),
        Node::Leaf(_) => walk.leave(),
    }
}

// How many leaves there are after a node.
fn leaves_with(node: &Node<StopText>, leaves: u32) -> u32
    requires { leaves ≤ leaf_limit }
    ensures { result ≡ leaves_after (Ok (Some node.now)) leaves }
{
    match node {
        Node::Cut(_, _) => leaves,
        Node::Leaf(_) => leaves + 1,
    }
}

/// The cut tree of a box on these lines up to the end of the report. `ended` says whether the last line is the text's. What is
/// left to be stood for is kept by the cuts alone, so lines without end of cuts take twelve bytes each for it.
pub fn read_nodes(
    alloc: Global,
    whole: &Box5,
    ended: bool,
    lines: &[&[u8]],
) -> Result<OwnList<Node<StopText>>, ReportFault>
    ensures value { IsRead (nodes_from (whole.now ∷ []) ended 0 4 (map (λ l. l.now) lines.now)) result }
    ensures tree { IfOk result (λ nodes. IsCutTree nodes whole.now) }
    ensures few { IfOk result (λ nodes. leaf_count nodes ≤ leaf_limit) }
{
    let mut walk = TreeWalk::of(alloc, *whole);
    let mut nodes = Vec::new(alloc);
    let mut leaves = 0;
    for (k, line) in lines.iter().enumerate() {
        let last = is_last(k, lines.len(), ended);
        match read_next_node(alloc, walk.first(), leaves, k as u64 + 4, last, line)? {
            Some(node) => {
                pass(&mut walk, &node)?;
                leaves = leaves_with(&node, leaves);
                nodes.push(node)?;
            }
            None => return Ok(OwnList::of(nodes)),
        }
    }
    Err(ReportFault::BadLine(lines.len() as u64 + 4))
}
