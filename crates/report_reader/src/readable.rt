// Reports that are printed to be read.
ghost use Rattle.std.specs.Prelude.{◌<◌, ◌≡◌, ◌≤◌, ◌^◌, All, IfOk, Ok, length};
ghost use Rattle.block_report.specs.Reports.{HaveText, report_text, told_rows};
ghost use Rattle.block_report.specs.Trees.{NodesHaveText, told_nodes, tree_text};
ghost use Rattle.header_boxes.specs.Boxes.{IsValid, IsWithin};
ghost use Rattle.ordered_cover.specs.Trees.{IsCutTree, leaf_count};
ghost use Rattle.report_reader.specs.Nodes.{leaf_limit};
ghost use Rattle.report_reader.specs.ReadsBack.{AreNamed, Fits, length_limit};
ghost use Rattle.report_reader.specs.Reports.{report_of_text, row_limit};

use crate::Shape;
use block_report::{print_report, print_tree};
use header_boxes::{Box5, Row};
use ordered_cover::Node;
use reference_check::Network;
use std::alloc::Global;
use vpc_base::NoMemory;
use vpc_model::{End, Phase, Stop};

// Numbers of their fields: nothing is done, and the clauses tell it of any numbers.
fn fit(proto: u8, src: u32, dst: u32, p: u16, q: u16)
    ensures proto { proto < 2 ^ 8 }
    ensures src { src < 2 ^ 32 }
    ensures dst { dst < 2 ^ 32 }
    ensures p { p < 2 ^ 16 }
    ensures q { q < 2 ^ 16 }
{}

// The numbers at which the ranges of a box end are numbers of their fields.
fn ends_fit(b: &Box5)
    ensures { Fits b.now }
{
    fit(b.proto.1, b.src.1, b.dst.1, b.p.1, b.q.1)
}

/// The report about a query, as `print_report` prints it. The text reads as that report again, and is short enough
/// to be read as a file: what `ask` prints `check` can read.
pub fn print_readable(
    alloc: Global,
    n: &Network,
    start: End,
    goal: End,
    sides: &Box5,
    rows: &[Row<(Phase, Stop)>],
) -> Result<Vec<u8>, NoMemory>
    requires ends { AreNamed n.now start goal }
    requires sides { IsValid sides.now }
    requires rows { HaveText n.now rows.now }
    requires within { All (λ row. IsWithin row.part sides.now) (told_rows n.now rows.now) }
    requires few { length rows.now ≤ row_limit }
    ensures text { IfOk result (λ text. text.items
        ≡ report_text n.now start goal sides.now (told_rows n.now rows.now)) }
    ensures reads_back { IfOk result (λ text. report_of_text n.now text.items
        ≡ Ok (record { start = start; goal = goal; sides = sides.now; shape = Shape.List (told_rows n.now rows.now) })) }
    ensures short { IfOk result (λ text. length text.items ≤ length_limit) }
{
    // That the network is accepted is a clause of this call.
    let _ = n.description();
    ends_fit(sides);
    print_report(alloc, n, start, goal, sides, rows)
}

/// The report about a query whose boxes are the leaves of a cut tree, as `print_tree` prints it. The text reads as that
/// report again, and is short enough to be read as a file.
pub fn print_readable_tree(
    alloc: Global,
    n: &Network,
    start: End,
    goal: End,
    sides: &Box5,
    nodes: &[Node<(Phase, Stop)>],
) -> Result<Vec<u8>, NoMemory>
    requires ends { AreNamed n.now start goal }
    requires sides { IsValid sides.now }
    requires leaves { NodesHaveText n.now nodes.now }
    requires tree { IsCutTree (told_nodes n.now nodes.now) sides.now }
    requires few { leaf_count (told_nodes n.now nodes.now) ≤ leaf_limit }
    ensures text { IfOk result (λ text. text.items
        ≡ tree_text n.now start goal sides.now (told_nodes n.now nodes.now)) }
    ensures reads_back { IfOk result (λ text. report_of_text n.now text.items
        ≡ Ok (record { start = start; goal = goal; sides = sides.now; shape = Shape.Tree (told_nodes n.now nodes.now) })) }
    ensures short { IfOk result (λ text. length text.items ≤ length_limit) }
{
    // That the network is accepted is a clause of this call.
    let _ = n.description();
    ends_fit(sides);
    print_tree(alloc, n, start, goal, sides, nodes)
}
