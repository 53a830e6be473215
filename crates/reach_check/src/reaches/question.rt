// A question for all that gets through, start by start.
ghost use Rattle.std.specs.Prelude.{◌≡◌, ◌<◌, ◌++◌, All, IfSome, IsTrue, OnOk, Some, codes, length, slice_get};
ghost use Rattle.std.proofs.Props.{props};
ghost use Rattle.block_report.specs.Words.{word};
ghost use Rattle.header_boxes.specs.Boxes.{IsValid};
ghost use Rattle.journey_changes.specs.Sent.{fate, sent};
ghost use Rattle.vpc_model.specs.Appliances.{appliances_of};
ghost use Rattle.vpc_model.specs.Sound.{is_end};
ghost use Rattle.vpc_model.specs.Told.{end_id};
ghost use Rattle.reach_check.specs.Questions.{CanBeShown};
ghost use Rattle.reach_check.specs.Reaches.{fate_text, toward_of};

use crate::reaches::probe::ReachListing;
use appliances::Deciders;
use block_report::{put, put_word};
use change_report::put_barrier;
use changed_ends::id_at;
use fabric::Fabric;
use header_boxes::Row;
use journey_changes::{Barrier, FateProbe, Toward};
use listing_check::{Look, Question, look_once, only};
use listing_reader::Origin;
use reference_check::Network;
use std::alloc::Global;
use vpc_base::{Header, NoMemory, OwnList};
use vpc_model::{End, FarNo};

// ---- one request

fn put_reached(out: &mut Vec<u8>, n: &Network, end: End) -> Result<(), NoMemory>
    ensures { OnOk result (out.new.items
        ≡ out.old.items ++ (codes "reached" ++ word (end_id n.now end))) }
{
    put(out, b"reached")?;
    put_word(out, id_at(n, end))
}

// Appends the end that a request reaches, or what keeps it from one.
fn put_fate(
    out: &mut Vec<u8>,
    n: &Network,
    id: &[u8],
    fate: Result<End, Barrier>,
) -> Result<(), NoMemory>
    requires { CanBeShown n.now fate }
    ensures { OnOk result (out.new.items ≡ out.old.items ++ fate_text n.now id.now fate) }
{
    match fate {
        Ok(end) => put_reached(out, n, end),
        Err(barrier) => put_barrier(out, n, id, &barrier),
    }
}

// ---- the question

fn toward(goal: Option<End>) -> Toward
    ensures { result ≡ toward_of goal }
{
    match goal {
        None => Toward::Any,
        Some(end) => Toward::Goal(end),
    }
}

/// Which end requests reach, from each of some starts: the goal if there is one, or any.
#[derive(Drop)]
pub struct ReachQuestion<'a> {
    pub fabric: &'a Fabric,
    pub deciders: &'a Deciders,
    pub goal: Option<End>,
    /// By what the rows of each start are read, in the order of the starts.
    pub origins: &'a [Origin],
    pub starts: &'a [End],
    /// Where replies may arrive beside their start.
    pub links: &'a [FarNo],
    ghost described: { deciders.now.appliances ≡ appliances_of fabric.now },
    ghost goal_is: { IfSome goal (λ e. IsTrue (is_end fabric.now e)) } by { Prim.hlevel props },
    ghost valid: { All (λ o. All IsValid o.boxes) origins.now },
    ghost starts_are: { All (λ e. IsTrue (is_end fabric.now e)) starts.now },
}

impl<'a> ReachQuestion<'a> {
    fn start_at(&self, start: u32) -> End
        requires { start < length self.now.starts.now }
        ensures stands { slice_get self.now.starts.now start ≡ Some result }
        ensures described { IsTrue (is_end self.now.fabric.now result) }
    {
        self.starts[start as usize]
    }

    fn origin_at(&self, start: u32) -> &Origin
        requires { start < length self.now.origins.now }
        ensures stands { slice_get self.now.origins.now start ≡ Some result.now }
        ensures valid { All IsValid result.now.boxes }
    {
        &self.origins[start as usize]
    }

    // The walks of requests from a start. They are made for each start that is looked at.
    fn walks_from(&self, start: End) -> FateProbe<'a>
        requires { IsTrue (is_end self.now.fabric.now start) }
        ensures { result.sent ≡ sent self.now.fabric.now (Some start)
            self.now.links.now (toward_of self.now.goal) }
    {
        FateProbe::of(
            self.fabric,
            self.deciders,
            Some(start),
            self.links,
            toward(self.goal),
        )
    }

    // What is told of the requests from a start.
    fn listing_from(&self, start: End) -> ReachListing<'a>
        requires { IsTrue (is_end self.now.fabric.now start) }
        ensures { result.walks.sent ≡ sent self.now.fabric.now (Some start)
            self.now.links.now (toward_of self.now.goal) }
    {
        ReachListing::of(self.walks_from(start), self.fabric.network())
    }

    // What becomes of a request from a start.
    fn fate_at(&self, start: End, h: &Header) -> Result<End, Barrier>
        requires { IsTrue (is_end self.now.fabric.now start) }
        ensures value { result ≡ fate (sent self.now.fabric.now (Some start)
            self.now.links.now (toward_of self.now.goal)) h.now }
        ensures told { CanBeShown self.now.fabric.now result }
    {
        // That the network is accepted is a clause of this call.
        let _ = self.fabric.network().description();
        let walks = self.walks_from(start);
        let answer = walks.fate_on(&only(h));
        answer.told
    }
}

impl<'a> Question for ReachQuestion<'a> {
    ghost use Rattle.reach_check.specs.Questions.{asked_in};

    ghost asked = { λ q. asked_in q.fabric.now q.links.now q.goal q.origins.now q.starts.now };

    fn look(&self, alloc: Global, start: u32, rows: &[Row<OwnList<u8>>]) -> Result<Look, NoMemory> {
        let boxes = self.origin_at(start).boxes.as_slice();
        look_once(alloc, self.listing_from(self.start_at(start)), boxes, rows)
    }

    fn id(&self, start: u32) -> &[u8] {
        self.origin_at(start).id.as_slice()
    }

    fn put_outcome(&self, out: &mut Vec<u8>, start: u32, h: &Header) -> Result<(), NoMemory> {
        let id = self.origin_at(start).id.as_slice();
        let fate = self.fate_at(self.start_at(start), h);
        put_fate(out, self.fabric.network(), id, fate)
    }
}
