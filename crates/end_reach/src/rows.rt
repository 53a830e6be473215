// The rows of one start.
ghost use Rattle.std.specs.Prelude.{◌≡◌, ◌≤◌, ◌+◌, ◌++◌, All, AllPairs, IfOk, IsTrue, None, OnOk, Some, length};
ghost use Rattle.block_report.specs.Words.{word};
ghost use Rattle.header_boxes.specs.Boxes.{AreDisjoint, IsValid};
ghost use Rattle.listing_text.specs.Bodies.{IsGatheredFrom};
ghost use Rattle.query_words.specs.ReachQuery.{AreGivenEnds, AreReachPairs};
ghost use Rattle.vpc_model.specs.Appliances.{appliances_of};
ghost use Rattle.vpc_model.specs.Sound.{is_end};
ghost use Rattle.vpc_model.specs.Told.{end_id};
ghost use Rattle.vpc_model.specs.Verdict.{homes_among};
ghost use Rattle.end_reach.specs.Asked.{AreTargets, links_of};
ghost use Rattle.end_reach.specs.Texts.{row_line, row_lines_from};
ghost use Rattle.end_reach.specs.Told.{wanted};
ghost use Rattle.end_reach.specs.Walked.{AreOf, IsGatheredIn};

use crate::sides::{Asked, boxes_at};
use appliances::Deciders;
use block_report::{end_id, put, put_box_word, put_end, put_number_word, put_word};
use box_gather::{Gathered, gather_over};
use box_walk::{GoalProbe, OpenProbe, RoundProbe};
use fabric::Fabric;
use header_boxes::{Box5, Row};
use reference_check::Network;
use std::alloc::Global;
use vpc_base::NoMemory;
use vpc_model::{End, FarNo};

// ---- what is gathered

/// The walks of a network's requests, toward a goal and without one. They are made once, since each has room for all that a
/// walk may leave behind, and turned to one start after the other.
#[derive(Drop)]
pub struct Walks<'a> {
    toward: RoundProbe<'a>,
    to_any: OpenProbe<'a>,
}

impl<'a> Walks<'a> {
    /// The walks with the appliances that the network describes.
    pub fn of(f: &'a Fabric, deciders: &'a Deciders) -> Walks<'a>
        requires { deciders.now.appliances ≡ appliances_of f.now }
        ensures { AreOf f.now result.toward.fabric.now result.to_any.fabric.now }
    {
        Walks {
            toward: RoundProbe::of(f, deciders, End::Internet, End::Internet),
            to_any: OpenProbe::of(f, deciders, End::Internet),
        }
    }
}

// Toward whatever end a request arrives at.
fn gather_to_any<'a>(
    alloc: Global,
    probe: &mut OpenProbe<'a>,
    start: End,
    links: &'a [FarNo],
    boxes: &[Box5],
    room: u32,
) -> Result<Gathered<End>, NoMemory>
    requires start { IsTrue (is_end probe.old.fabric.now start) }
    requires valid { All IsValid boxes.now }
    requires disjoint { AllPairs AreDisjoint boxes.now }
    ensures gathered { IfOk result (IsGatheredIn probe.old.fabric.now
        (homes_among links.now start) None boxes.now room) }
    ensures network { probe.new.fabric.now ≡ probe.old.fabric.now }
{
    probe.turn_among(start, links);
    gather_over(alloc, probe, boxes, room)
}

// Toward a goal: requests are given up where they can't arrive there.
fn gather_to<'a>(
    alloc: Global,
    round: &mut RoundProbe<'a>,
    start: End,
    links: &'a [FarNo],
    goal: End,
    boxes: &[Box5],
    room: u32,
) -> Result<Gathered<End>, NoMemory>
    requires start { IsTrue (is_end round.old.fabric.now start) }
    requires goal { IsTrue (is_end round.old.fabric.now goal) }
    requires valid { All IsValid boxes.now }
    requires disjoint { AllPairs AreDisjoint boxes.now }
    ensures gathered { IfOk result (IsGatheredIn round.old.fabric.now
        (homes_among links.now start) (Some goal) boxes.now room) }
    ensures network { round.new.fabric.now ≡ round.old.fabric.now }
{
    round.turn_among(start, links, goal);
    gather_over(alloc, &GoalProbe::of(round), boxes, room)
}

/// Which of the requests reach an end from the start, the goal if there is one, in at most `room` rows.
pub fn gather_at<'a>(
    alloc: Global,
    f: &Fabric,
    walks: &mut Walks<'a>,
    asked: &Asked<'a>,
    start: End,
    room: u32,
) -> Result<Gathered<End>, NoMemory>
    requires walks { AreOf f.now walks.old.toward.fabric.now walks.old.to_any.fabric.now }
    requires ends { AreGivenEnds f.now asked.now.query.now }
    requires pairs { AreReachPairs asked.now.query.now.pairs }
    requires targets { AreTargets f.now
        asked.now.query.now.pairs.dst asked.now.query.now.goal asked.now.targets.now }
    requires links { asked.now.links.now ≡ links_of f.now asked.now.query.now }
    requires start { IsTrue (is_end f.now start) }
    ensures gathered { IfOk result
        (IsGatheredFrom (wanted f.now asked.now.query.now asked.now.targets.now) start room) }
    ensures walks { AreOf f.now walks.new.toward.fabric.now walks.new.to_any.fabric.now }
{
    let boxes = boxes_at(alloc, f.network(), asked.query, asked.targets, start)?;
    let boxes = boxes.as_slice();
    let links = asked.links;
    match asked.query.goal {
        Some(goal) => gather_to(alloc, &mut walks.toward, start, links, goal, boxes, room),
        None => gather_to_any(alloc, &mut walks.to_any, start, links, boxes, room),
    }
}

// ---- lines

/// Appends a blank and the id of an end.
pub fn put_end_word(out: &mut Vec<u8>, n: &Network, end: End) -> Result<(), NoMemory>
    requires { IsTrue (is_end n.now end) }
    ensures { OnOk result (out.new.items ≡ out.old.items ++ word (end_id n.now end)) }
{
    put_word(out, end_id(n, &end))
}

fn put_ends(out: &mut Vec<u8>, n: &Network, start: End, end: End) -> Result<(), NoMemory>
    requires start { IsTrue (is_end n.now start) }
    requires end { IsTrue (is_end n.now end) }
    ensures { OnOk result (out.new.items
        ≡ out.old.items ++ (word (end_id n.now start) ++ word (end_id n.now end))) }
{
    put_end_word(out, n, start)?;
    put_end_word(out, n, end)
}

fn put_row(
    out: &mut Vec<u8>,
    n: &Network,
    number: u32,
    start: End,
    row: &Row<End>,
) -> Result<(), NoMemory>
    requires start { IsTrue (is_end n.now start) }
    requires end { IsTrue (is_end n.now row.now.word) }
    ensures { OnOk result (out.new.items ≡ out.old.items ++ row_line n.now number start row.now) }
{
    put(out, b"row")?;
    put_number_word(out, u128::from(number))?;
    put_ends(out, n, start, row.word)?;
    put_box_word(out, &row.part)?;
    put_end(out)
}

/// Appends the rows of a start, numbered from `first` on.
pub fn put_rows(
    out: &mut Vec<u8>,
    n: &Network,
    first: u32,
    start: End,
    rows: &[Row<End>],
) -> Result<(), NoMemory>
    requires start { IsTrue (is_end n.now start) }
    requires ends { All (λ row. IsTrue (is_end n.now row.word)) rows.now }
    requires few { first + length rows.now ≤ 20001 }
    ensures { OnOk result (out.new.items
        ≡ out.old.items ++ row_lines_from n.now first start rows.now) }
{
    let mut number = first;
    for row in rows {
        put_row(out, n, number, start, row)?;
        number += 1;
    }
    Ok(())
}
