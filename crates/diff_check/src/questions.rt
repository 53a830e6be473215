// A question for what changes, whose starts are looked at one after the other.
ghost use Rattle.std.specs.Prelude.{◌≡◌, ◌≤◌, ◌<◌, ◌^◌, ◌++◌, All, IfOk, OnOk, Some, length, map, slice_get};
ghost use Rattle.changed_ends.specs.Asked.{AreTargets, HasEnds};
ghost use Rattle.header_boxes.specs.Boxes.{IsValid};
ghost use Rattle.listing_check.specs.Answered.{IsListingChecked};
ghost use Rattle.listing_check.specs.Asked.{Asked as AskedOf};
ghost use Rattle.listing_check.specs.Looks.{IsLook};
ghost use Rattle.query_words.specs.ChangeQuery.{AreChangedEnds, IsChangedEnd};
ghost use Rattle.query_words.specs.ReachQuery.{AreReachPairs};
ghost use Rattle.report_reader.specs.Reports.{row_limit};
ghost use Rattle.vpc_base.specs.declared.headers.Header.{Header as Packet};
ghost use Rattle.diff_check.specs.Diffs.{all_asked, told_in, told_or_same};
ghost use Rattle.diff_check.specs.Starts.{origin_from};
ghost use Rattle.std.proofs.Props.{props};

use crate::starts::{StartChanges, put_once};
use change_report::Asked;
use changed_ends::{Compared, boxes_at, changed_id};
use command_job::Answer;
use header_boxes::{Box5, Row};
use listing_check::{Look, Question, answer_lines, look_once};
use listing_reader::Origin;
use query_words::ChangedEnd;
use std::alloc::Global;
use vpc_base::{Header, NoMemory, OwnList};

// ---- the starts

fn origin_from(
    alloc: Global,
    compared: &Compared,
    targets: &[(u32, u32)],
    start: &ChangedEnd,
) -> Result<Origin, NoMemory>
    requires pairs { AreReachPairs compared.now.query.pairs }
    requires targets { AreTargets compared.now targets.now }
    ensures { IfOk result (λ o. o ≡ origin_from compared.now targets.now start.now) }
{
    let id = changed_id(compared.before(), compared.after(), start).to_vec(alloc)?;
    let boxes = boxes_at(alloc, compared, targets, *start)?;
    Ok(Origin {
        id: OwnList::of(id),
        boxes: OwnList::of(boxes),
    })
}

/// The starts of a question, by which the rows of a listing are read.
pub fn origins_of(
    alloc: Global,
    compared: &Compared,
    targets: &[(u32, u32)],
    starts: &[ChangedEnd],
) -> Result<Vec<Origin>, NoMemory>
    requires pairs { AreReachPairs compared.now.query.pairs }
    requires targets { AreTargets compared.now targets.now }
    ensures { IfOk result (λ v. v.items ≡ map (origin_from compared.now targets.now) starts.now) }
{
    let mut origins = Vec::new(alloc);
    for start in starts {
        origins.push(origin_from(alloc, compared, targets, start)?)?;
    }
    Ok(origins)
}

// ---- one start

// Looks at the rows of a start.
fn look_from(
    alloc: Global,
    asked: &Asked,
    start: &ChangedEnd,
    boxes: &[Box5],
    rows: &[Row<OwnList<u8>>],
) -> Result<Look, NoMemory>
    requires ends { HasEnds asked.now.compared }
    requires start { IsChangedEnd asked.now.compared.before asked.now.compared.after start.now }
    requires boxes { All IsValid boxes.now }
    requires rows { All (λ r. IsValid r.part) rows.now }
    requires few { length rows.now ≤ row_limit }
    ensures { (a : AskedOf) → a.boxes ≡ boxes.now
        → ((h : Packet) → a.told h ≡ told_in
        asked.now.compared start.now h)
        → IfOk result (IsLook (record { asked = a; rows = rows.now })) }
{
    look_once(alloc, StartChanges::of(asked, start), boxes, rows)
}

// Appends what changes for a request from a start, or that it is the same.
fn put_told_from(
    out: &mut Vec<u8>,
    asked: &Asked,
    start: &ChangedEnd,
    h: &Header,
) -> Result<(), NoMemory>
    requires ends { HasEnds asked.now.compared }
    requires start { IsChangedEnd asked.now.compared.before asked.now.compared.after start.now }
    ensures { OnOk result (out.new.items ≡ out.old.items ++ told_or_same (told_in
        asked.now.compared start.now h.now)) }
{
    put_once(out, StartChanges::of(asked, start), h)
}

// ---- all starts

/// What changes for the requests of starts, to the destinations that are asked for.
#[derive(Drop)]
struct DiffQuestion<'a> {
    both: &'a Asked<'a>,
    targets: &'a [(u32, u32)],
    starts: &'a [ChangedEnd],
    origins: &'a [Origin],
    ghost ends: { AreChangedEnds
        both.now.compared.before both.now.compared.after both.now.compared.query } by { Prim.hlevel props },
    ghost described: { All
        (IsChangedEnd both.now.compared.before both.now.compared.after) starts.now } by { Prim.hlevel props },
    ghost same: { origins.now ≡ map (origin_from both.now.compared targets.now) starts.now },
    ghost valid: { All (λ o. All IsValid o.boxes) origins.now },
}

impl<'a> DiffQuestion<'a> {
    fn start_at(&self, start: u32) -> &ChangedEnd
        requires { start < length self.now.starts.now }
        ensures stands { slice_get self.now.starts.now start ≡ Some result.now }
        ensures described { IsChangedEnd
            self.now.both.now.compared.before self.now.both.now.compared.after result.now }
    {
        &self.starts[start as usize]
    }

    fn origin_at(&self, start: u32) -> &Origin
        requires { start < length self.now.origins.now }
        ensures stands { slice_get self.now.origins.now start ≡ Some result.now }
        ensures valid { All IsValid result.now.boxes }
    {
        &self.origins[start as usize]
    }
}

impl<'a> Question for DiffQuestion<'a> {
    ghost asked = { λ q. all_asked q.both.now.compared q.targets.now q.starts.now };

    fn look(&self, alloc: Global, start: u32, rows: &[Row<OwnList<u8>>]) -> Result<Look, NoMemory> {
        let boxes = self.origin_at(start).boxes.as_slice();
        look_from(alloc, self.both, self.start_at(start), boxes, rows)
    }

    fn id(&self, start: u32) -> &[u8] {
        self.origin_at(start).id.as_slice()
    }

    fn put_outcome(&self, out: &mut Vec<u8>, start: u32, h: &Header) -> Result<(), NoMemory> {
        put_told_from(out, self.both, self.start_at(start), h)
    }
}

/// What is found of the lines of a listing after the first two.
pub fn check_starts(
    alloc: Global,
    asked: &Asked,
    targets: &[(u32, u32)],
    starts: &[ChangedEnd],
    ended: bool,
    lines: &[&[u8]],
) -> Result<Answer, NoMemory>
    requires ends { HasEnds asked.now.compared }
    requires pairs { AreReachPairs asked.now.compared.query.pairs }
    requires targets { AreTargets
        asked.now.compared targets.now }
    requires starts { All (IsChangedEnd asked.now.compared.before asked.now.compared.after) starts.now }
    requires few { length starts.now < 2 ^ 32 }
    ensures { IfOk result (λ a. IsListingChecked
        (all_asked asked.now.compared targets.now starts.now)
        ended (map (λ l. l.now) lines.now) a.status a.text.items) }
{
    let all_origins = origins_of(alloc, &asked.compared, targets, starts)?;
    let origins = all_origins.as_slice();
    let question = DiffQuestion {
        both: asked,
        targets,
        starts,
        origins,
    };
    answer_lines(alloc, &question, origins, ended, lines)
}
