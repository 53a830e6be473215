// What is found of a report.
ghost use Rattle.std.specs.Prelude.{◌≡◌, ◌≤◌, All, IfOk, length};
ghost use Rattle.box_survey.specs.Survey.{IsHeldIn, IsSurvey};
ghost use Rattle.header_boxes.specs.Boxes.{IsValid, IsWithin};
ghost use Rattle.ordered_cover.specs.Trees.{IsCutTree, leaf_count, leaves_of};
ghost use Rattle.report_reader.specs.Nodes.{leaf_limit};
ghost use Rattle.report_reader.specs.Reports.{IsSoundReport, row_limit, rows_of};
ghost use Rattle.vpc_model.specs.Appliances.{appliances_of};
ghost use Rattle.report_check.specs.Checked.{IsChecked, boxes_of};
ghost use Rattle.report_check.specs.Texts.{CanBeTold};

use crate::leaves::first_untrue_leaf;
use crate::rows::{Untrue, first_untrue};
use appliances::Deciders;
use box_survey::{Survey, WholeBox, surveyed};
use fabric::Fabric;
use header_boxes::{Box5, Row};
use ordered_cover::Node;
use report_reader::{Report, Shape};
use std::alloc::Global;
use vpc_base::{Header, NoMemory};
use vpc_model::{StopText, Verdict};

/// What is found of a report. Rows are numbered from 1.
#[derive(Clone, Copy)]
pub enum Checked {
    /// The report is true: its rows divide the query's headers among them, and each header of a row is stopped
    /// in the phase, by the component and by the rule that the row names.
    Yes,
    /// The first two rows that share a header: by the number of the first, then by that of the second.
    Overlap(u32, u32),
    /// No two rows share a header. The first header of the query that no row holds.
    Uncovered(Header),
    /// The rows divide the query's headers. The first row that isn't true of all its headers, the first of these
    /// that it isn't true of, and what becomes of that one.
    Untrue(u32, Header, Verdict),
}

fn boxes_of(alloc: Global, rows: &[Row<StopText>]) -> Result<Vec<Box5>, NoMemory>
    ensures { IfOk result (λ v. v.items ≡ boxes_of rows.now) }
{
    let mut boxes = Vec::new(alloc);
    for row in rows {
        boxes.push(row.part)?;
    }
    Ok(boxes)
}

// What is found of the rows' boxes in that of the query.
fn survey_of(alloc: Global, sides: Box5, rows: &[Row<StopText>]) -> Result<Survey, NoMemory>
    requires whole { IsValid sides }
    requires within { All (λ row. IsWithin row.part sides) rows.now }
    requires few { length rows.now ≤ row_limit }
    ensures { IfOk result (IsSurvey (IsHeldIn sides) (boxes_of rows.now)) }
{
    let boxes = boxes_of(alloc, rows)?;
    let whole = WholeBox::of(sides);
    surveyed(alloc, &whole, boxes.as_slice())
}

// What is found of a report of rows.
fn check_rows(
    alloc: Global,
    f: &Fabric,
    deciders: &Deciders,
    report: &Report,
    rows: &[Row<StopText>],
) -> Result<Checked, NoMemory>
    requires appliances { deciders.now.appliances ≡ appliances_of f.now }
    requires report { IsSoundReport f.now report.now }
    requires rows { rows.now ≡ rows_of report.now }
    requires within { All (λ row. IsWithin row.part report.now.sides) rows.now }
    requires few { length rows.now ≤ row_limit }
    ensures checked { IfOk result (IsChecked f.now report.now) }
    ensures told { IfOk result (CanBeTold f.now) }
{
    // That the network is accepted is a clause of this call.
    let _ = f.network().description();
    match survey_of(alloc, report.sides, rows)? {
        Survey::Overlap(i, j) => Ok(Checked::Overlap(i + 1, j + 1)),
        Survey::Uncovered(h) => Ok(Checked::Uncovered(h)),
        Survey::Whole => match first_untrue(alloc, f, deciders, report, rows)? {
            None => Ok(Checked::Yes),
            Some(
                Untrue {
                    number,
                    header,
                    verdict,
                },
            ) => Ok(Checked::Untrue(number, header, verdict)),
        },
    }
}

// What is found of a report of a tree. Its leaves share no header and hold all, so no two of them are compared.
fn check_tree(
    alloc: Global,
    f: &Fabric,
    deciders: &Deciders,
    report: &Report,
    nodes: &[Node<StopText>],
) -> Result<Checked, NoMemory>
    requires appliances { deciders.now.appliances ≡ appliances_of f.now }
    requires report { IsSoundReport f.now report.now }
    requires rows { leaves_of nodes.now report.now.sides ≡ rows_of report.now }
    requires tree { IsCutTree nodes.now report.now.sides }
    requires few { leaf_count nodes.now ≤ leaf_limit }
    ensures checked { IfOk result (IsChecked f.now report.now) }
    ensures told { IfOk result (CanBeTold f.now) }
{
    // That the network is accepted is a clause of this call.
    let _ = f.network().description();
    match first_untrue_leaf(alloc, f, deciders, report, nodes)? {
        None => Ok(Checked::Yes),
        Some(
            Untrue {
                number,
                header,
                verdict,
            },
        ) => Ok(Checked::Untrue(number, header, verdict)),
    }
}

/// Whether a report is true of the network, with the appliances that the network describes.
pub fn check(
    alloc: Global,
    f: &Fabric,
    deciders: &Deciders,
    report: &Report,
) -> Result<Checked, NoMemory>
    requires appliances { deciders.now.appliances ≡ appliances_of f.now }
    requires report { IsSoundReport f.now report.now }
    ensures checked { IfOk result (IsChecked f.now report.now) }
    // what becomes of a header that a row isn't true of has a text
    ensures told { IfOk result (CanBeTold f.now) }
{
    match &report.shape {
        Shape::List(rows) => check_rows(alloc, f, deciders, report, rows.as_slice()),
        Shape::Tree(nodes) => check_tree(alloc, f, deciders, report, nodes.as_slice()),
    }
}
