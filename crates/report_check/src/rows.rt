// The rows of a report, one after the other.
ghost use Rattle.std.specs.Prelude.{◌≡◌, ◌≤◌, All, IfOk, length};
ghost use Rattle.box_walk.specs.Asking.{homes_by};
ghost use Rattle.header_boxes.specs.Boxes.{IsValid};
ghost use Rattle.header_boxes.specs.Rows.{IsFirst};
ghost use Rattle.report_reader.specs.Reports.{IsSoundReport, row_limit, rows_of};
ghost use Rattle.vpc_model.specs.Appliances.{appliances_of};
ghost use Rattle.report_check.specs.Agreement.{agreement_of};
ghost use Rattle.report_check.specs.Rows.{IsRowSearch};

use crate::probe::RowProbe;
use appliances::Deciders;
use box_walk::RoundProbe;
use fabric::Fabric;
use header_boxes::{Box5, Row};
use ordered_cover::search::first;
use packet_emulator::round;
use reference_check::Network;
use report_reader::Report;
use std::alloc::Global;
use vpc_base::{Header, NoMemory};
use vpc_model::{StopText, Verdict};

/// A row that isn't true of all its headers.
#[derive(Clone, Copy)]
pub struct Untrue {
    /// The row's number, from 1.
    pub number: u32,
    /// The first header that the row isn't true of.
    pub header: Header,
    /// What becomes of it.
    pub verdict: Verdict,
}

// The first header of a box that something else becomes of than the text says.
pub(crate) fn first_other(
    alloc: Global,
    n: &Network,
    walks: &RoundProbe,
    part: Box5,
    word: &StopText,
) -> Result<Option<Header>, NoMemory>
    requires network { walks.now.fabric.now ≡ n.now }
    requires part { IsValid part }
    ensures { IfOk result (IsFirst (agreement_of n.now
        (homes_by walks.now.links.now walks.now.start) walks.now.goal word.now) part) }
{
    let probe = RowProbe::of(walks, n, word);
    first(alloc, &probe, part)
}

/// The first row of a report that isn't true of all its headers, if there is one. The probe of walks is made once
/// for all rows, since it has room for all that a walk may leave behind, and the way of the report's requests to their goal is
/// followed once.
pub fn first_untrue(
    alloc: Global,
    f: &Fabric,
    deciders: &Deciders,
    report: &Report,
    rows: &[Row<StopText>],
) -> Result<Option<Untrue>, NoMemory>
    requires appliances { deciders.now.appliances ≡ appliances_of f.now }
    requires report { IsSoundReport f.now report.now }
    requires rows { rows.now ≡ rows_of report.now }
    requires valid { All (λ row. IsValid row.part) rows.now }
    requires few { length rows.now ≤ row_limit }
    ensures { IfOk result (IsRowSearch f.now report.now) }
{
    let mut walks = RoundProbe::of(f, deciders, report.start, report.goal);
    walks.look_ahead(&report.sides);
    let mut number = 0;
    for row in rows {
        number += 1;
        if let Some(header) = first_other(alloc, f.network(), &walks, row.part, &row.word)? {
            let verdict = round(f, deciders, report.start, report.goal, header);
            return Ok(Some(Untrue {
                number,
                header,
                verdict,
            }));
        }
    }
    Ok(None)
}
