// The rows of all starts.
ghost use Rattle.std.specs.Prelude.{◌≡◌, ◌≤◌, ◌+◌, ◌++◌, All, IfOk, IsTrue, OnOk, length};
ghost use Rattle.listing_text.specs.Bodies.{IsAdded, IsBody};
ghost use Rattle.query_words.specs.ReachQuery.{AreGivenEnds, AreReachPairs};
ghost use Rattle.vpc_model.specs.Appliances.{appliances_of};
ghost use Rattle.vpc_model.specs.Sound.{is_end};
ghost use Rattle.end_reach.specs.Asked.{AreTargets, links_of};
ghost use Rattle.end_reach.specs.Texts.{row_lines_from};
ghost use Rattle.end_reach.specs.Told.{wanted};
ghost use Rattle.end_reach.specs.Walked.{AreOf};

use crate::rows::{Walks, gather_at, put_rows};
use crate::sides::Asked;
use appliances::Deciders;
use box_gather::Gathered;
use fabric::Fabric;
use header_boxes::Row;
use reference_check::Network;
use std::alloc::Global;
use vpc_base::{Header, NoMemory};
use vpc_model::End;

/// The lines of rows, how many there are, and where rows are left out the first header that is, with its start.
#[derive(Drop)]
pub struct Body {
    pub text: Vec<u8>,
    pub count: u32,
    pub next: Option<(End, Header)>,
}

// Adds the lines of rows.
fn add_rows(body: &mut Body, n: &Network, start: End, rows: &[Row<End>]) -> Result<(), NoMemory>
    requires start { IsTrue (is_end n.now start) }
    requires ends { All (λ row. IsTrue (is_end n.now row.word)) rows.now }
    requires few { body.old.count + length rows.now ≤ 20000 }
    ensures lines { OnOk result (body.new.text.items
        ≡ body.old.text.items ++ row_lines_from n.now (body.old.count + 1) start rows.now) }
    ensures count { OnOk result (body.new.count ≡ body.old.count + length rows.now) }
    ensures next { OnOk result (body.new.next ≡ body.old.next) }
{
    put_rows(&mut body.text, n, body.count + 1, start, rows)?;
    body.count += rows.len() as u32;
    Ok(())
}

// Adds what is gathered from a start.
fn add_start<'a>(
    alloc: Global,
    f: &Fabric,
    walks: &mut Walks<'a>,
    asked: &Asked<'a>,
    start: End,
    body: &mut Body,
) -> Result<(), NoMemory>
    requires walks { AreOf f.now walks.old.toward.fabric.now walks.old.to_any.fabric.now }
    requires ends { AreGivenEnds f.now asked.now.query.now }
    requires pairs { AreReachPairs asked.now.query.now.pairs }
    requires targets { AreTargets f.now
        asked.now.query.now.pairs.dst asked.now.query.now.goal asked.now.targets.now }
    requires links { asked.now.links.now ≡ links_of f.now asked.now.query.now }
    requires start { IsTrue (is_end f.now start) }
    requires few { body.old.count ≤ asked.now.query.now.pairs.max }
    ensures added { OnOk result (IsAdded
        (wanted f.now asked.now.query.now asked.now.targets.now) (row_lines_from f.now) start
        body.old.text.items body.old.count body.old.next body.new.text.items body.new.count body.new.next) }
    ensures walks { AreOf f.now walks.new.toward.fabric.now walks.new.to_any.fabric.now }
{
    let room = asked.query.pairs.max - body.count;
    // That the network is accepted is a clause of this call.
    let _ = f.network().description();
    match gather_at(alloc, f, walks, asked, start, room)? {
        Gathered::All(rows) => add_rows(body, f.network(), start, rows.as_slice()),
        Gathered::More(rows, next) => {
            add_rows(body, f.network(), start, rows.as_slice())?;
            body.next = Some((start, next));
            Ok(())
        }
    }
}

/// The rows of all starts, not more than asked for.
pub fn body_of<'a>(
    alloc: Global,
    f: &'a Fabric,
    deciders: &'a Deciders,
    asked: &Asked<'a>,
    starts: &[End],
) -> Result<Body, NoMemory>
    requires appliances { deciders.now.appliances ≡ appliances_of f.now }
    requires ends { AreGivenEnds f.now asked.now.query.now }
    requires pairs { AreReachPairs asked.now.query.now.pairs }
    requires targets { AreTargets f.now
        asked.now.query.now.pairs.dst asked.now.query.now.goal asked.now.targets.now }
    requires links { asked.now.links.now ≡ links_of f.now asked.now.query.now }
    requires starts { All (λ e. IsTrue (is_end f.now e)) starts.now }
    ensures { IfOk result (λ b. IsBody
        (wanted f.now asked.now.query.now asked.now.targets.now) (row_lines_from f.now) starts.now
        b.text.items b.count b.next) }
{
    let mut body = Body {
        text: Vec::new(alloc),
        count: 0,
        next: None,
    };
    let mut walks = Walks::of(f, deciders);
    for start in starts {
        add_start(alloc, f, &mut walks, asked, *start, &mut body)?;
        if body.next.is_some() {
            return Ok(body);
        }
    }
    Ok(body)
}
