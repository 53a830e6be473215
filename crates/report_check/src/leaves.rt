// The leaves of a report, one after the other.
ghost use Rattle.std.specs.Prelude.{◌≡◌, ◌≤◌, IfOk, IsSome, Some, slice_get};
ghost use Rattle.ordered_cover.specs.Trees.{IsCutTree, leaf_count, leaves_of};
ghost use Rattle.report_reader.specs.Nodes.{leaf_limit};
ghost use Rattle.report_reader.specs.Reports.{IsSoundReport, rows_of};
ghost use Rattle.vpc_model.specs.Appliances.{appliances_of};
ghost use Rattle.report_check.specs.Rows.{IsRowSearch};

use crate::rows::{Untrue, first_other};
use appliances::Deciders;
use box_walk::RoundProbe;
use fabric::Fabric;
use header_boxes::Box5;
use ordered_cover::{Node, TreeWalk};
use packet_emulator::round;
use report_reader::Report;
use std::alloc::Global;
use vpc_base::NoMemory;
use vpc_model::StopText;

// The box of the next leaf.
fn first_box(boxes: &TreeWalk) -> Box5
    requires { IsSome (slice_get boxes.now 0) }
    ensures { slice_get boxes.now 0 ≡ Some result }
{
    match boxes.first() {
        Some(part) => part,
        None => unreachable!(),
    }
}

/// The first leaf of a report that isn't true of all its headers, if there is one: the same over the boxes of a tree, which are
/// walked through once.
pub fn first_untrue_leaf(
    alloc: Global,
    f: &Fabric,
    deciders: &Deciders,
    report: &Report,
    nodes: &[Node<StopText>],
) -> Result<Option<Untrue>, NoMemory>
    requires appliances { deciders.now.appliances ≡ appliances_of f.now }
    requires report { IsSoundReport f.now report.now }
    requires rows { leaves_of nodes.now report.now.sides ≡ rows_of report.now }
    requires tree { IsCutTree nodes.now report.now.sides }
    requires few { leaf_count nodes.now ≤ leaf_limit }
    ensures { IfOk result (IsRowSearch f.now report.now) }
{
    let mut walks = RoundProbe::of(f, deciders, report.start, report.goal);
    walks.look_ahead(&report.sides);
    let mut boxes = TreeWalk::of(alloc, report.sides);
    let mut number = 0;
    for node in nodes {
        match node {
            Node::Cut(side, at) => boxes.cut(*side, *at)?,
            Node::Leaf(word) => {
                let part = first_box(&boxes);
                number += 1;
                if let Some(header) = first_other(alloc, f.network(), &walks, part, word)? {
                    let verdict = round(f, deciders, report.start, report.goal, header);
                    return Ok(Some(Untrue {
                        number,
                        header,
                        verdict,
                    }));
                }
                boxes.leave()?;
            }
        }
    }
    Ok(None)
}
