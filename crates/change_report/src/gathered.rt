// What changes for the requests of one start.
ghost use Rattle.std.specs.Prelude.{◌≡◌, All, AllPairs, IfOk, Some, option_map};
ghost use Rattle.box_gather.specs.Over.{IsGatheredOver};
ghost use Rattle.header_boxes.specs.Boxes.{AreDisjoint, IsValid};
ghost use Rattle.listing_text.specs.Bodies.{IsGatheredFrom};
ghost use Rattle.query_words.specs.ChangeQuery.{IsChangedEnd};
ghost use Rattle.query_words.specs.ReachQuery.{AreReachPairs};
ghost use Rattle.security_groups.specs.Index.{HasRulesOf};
ghost use Rattle.vpc_model.specs.Appliances.{appliances_of};
ghost use Rattle.changed_ends.specs.Asked.{AreTargets, HasEnds};
ghost use Rattle.changed_ends.specs.Links.{links_after, links_before};
ghost use Rattle.change_report.specs.Told.{change_in, cuts_in, sent_after, sent_before, toward_of, wanted};
ghost use Rattle.change_report.specs.Walked.{AreWalksOf, nowhere};

use appliances::Deciders;
use box_gather::{Gathered, gather_over};
use changed_ends::{Compared, boxes_at};
use header_boxes::Box5;
use journey_changes::{Change, ChangeProbe, FateProbe, Toward};
use ordered_cover::Probe;
use query_words::ChangedEnd;
use security_groups::AlikeGroups;
use std::alloc::Global;
use vpc_base::NoMemory;
use vpc_model::{End, FarNo};

/// A query about two networks, what the appliances that they describe forward, and which groups of both let in the same.
#[derive(Drop)]
pub struct Asked<'a> {
    pub compared: Compared<'a>,
    pub before_deciders: &'a Deciders,
    pub after_deciders: &'a Deciders,
    /// The links of the query, as `links_of` gives them for each network.
    pub before_links: &'a [FarNo],
    pub after_links: &'a [FarNo],
    pub alike: &'a AlikeGroups<'a>,
    ghost described_before: { before_deciders.now.appliances ≡ appliances_of compared.before },
    ghost described_after: { after_deciders.now.appliances ≡ appliances_of compared.after },
    ghost linked_before: { before_links.now ≡ links_before compared },
    ghost linked_after: { after_links.now ≡ links_after compared },
    ghost rules_before: { HasRulesOf compared.before alike.now.one },
    ghost rules_after: { HasRulesOf compared.after alike.now.other },
}

// ---- where requests are to arrive

fn toward(goal: Option<End>) -> Toward
    ensures { result ≡ toward_of (Some goal) }
{
    match goal {
        None => Toward::Missing,
        Some(end) => Toward::Goal(end),
    }
}

/// Where requests are to arrive in the first network: at the goal of a query as it stands there, or at any end.
pub fn toward_before(goal: Option<ChangedEnd>) -> Toward
    ensures { result ≡ toward_of (option_map (λ e. e.before) goal) }
{
    match goal {
        None => Toward::Any,
        Some(end) => toward(end.before),
    }
}

/// Where requests are to arrive in the second network: at the goal of a query as it stands there, or at any end.
pub fn toward_after(goal: Option<ChangedEnd>) -> Toward
    ensures { result ≡ toward_of (option_map (λ e. e.after) goal) }
{
    match goal {
        None => Toward::Any,
        Some(end) => toward(end.after),
    }
}

// ---- what is asked

fn probe_before<'a>(asked: &Asked<'a>) -> FateProbe<'a>
    requires { HasEnds asked.now.compared }
    ensures { result.sent ≡ sent_before asked.now.compared nowhere }
{
    FateProbe::of(
        asked.compared.fabric_before(),
        asked.before_deciders,
        None,
        asked.before_links,
        toward_before(asked.compared.query().goal),
    )
}

fn probe_after<'a>(asked: &Asked<'a>) -> FateProbe<'a>
    requires { HasEnds asked.now.compared }
    ensures { result.sent ≡ sent_after asked.now.compared nowhere }
{
    FateProbe::of(
        asked.compared.fabric_after(),
        asked.after_deciders,
        None,
        asked.after_links,
        toward_after(asked.compared.query().goal),
    )
}

/// The walks of a query's requests in both networks, toward the goal, as it stands in each, or toward any end. They are made
/// once, since each has room for all that a walk may leave behind, and turned to one start after the other.
pub fn walks_of<'a>(asked: &Asked<'a>) -> ChangeProbe<'a>
    requires { HasEnds asked.now.compared }
    ensures { AreWalksOf asked.now.compared result.before.sent result.after.sent }
{
    ChangeProbe::of(probe_before(asked), probe_after(asked), asked.alike)
}

// What a probe tells of the headers of boxes. It is taken as it is handed on: the prover compares what two shared references
// to walks in two networks refer to in more steps than it has.
fn gather<P: Probe>(
    alloc: Global,
    probe: &mut P,
    boxes: &[Box5],
    room: u32,
) -> Result<Gathered<P::Word>, NoMemory>
    requires valid { All IsValid boxes.now }
    requires disjoint { AllPairs AreDisjoint boxes.now }
    ensures gathered { IfOk result (IsGatheredOver (P.meaning probe.old) (P.cuts probe.old) boxes.now room) }
    ensures same { probe.new ≡ probe.old }
{
    gather_over(alloc, probe, boxes, room)
}

// What changes for the headers of boxes, which are sent from a start in both networks.
fn gather_from(
    alloc: Global,
    compared: &Compared,
    walks: &mut ChangeProbe,
    start: ChangedEnd,
    boxes: &[Box5],
    room: u32,
) -> Result<Gathered<Change>, NoMemory>
    requires walks { AreWalksOf compared.now walks.old.before.sent walks.old.after.sent }
    requires ends { HasEnds compared.now }
    requires start { IsChangedEnd compared.now.before compared.now.after start }
    requires valid { All IsValid boxes.now }
    requires disjoint { AllPairs AreDisjoint boxes.now }
    ensures gathered { IfOk result (IsGatheredOver
        (change_in compared.now start) (cuts_in compared.now) boxes.now room) }
    ensures walks { AreWalksOf compared.now walks.new.before.sent walks.new.after.sent }
{
    walks.turn(start.before, start.after);
    gather(alloc, walks, boxes, room)
}

/// What changes for the requests that are asked for from a start, in at most `room` rows.
pub fn gather_at(
    alloc: Global,
    compared: &Compared,
    walks: &mut ChangeProbe,
    targets: &[(u32, u32)],
    start: ChangedEnd,
    room: u32,
) -> Result<Gathered<Change>, NoMemory>
    requires walks { AreWalksOf compared.now walks.old.before.sent walks.old.after.sent }
    requires ends { HasEnds compared.now }
    requires pairs { AreReachPairs compared.now.query.pairs }
    requires start { IsChangedEnd compared.now.before compared.now.after start }
    requires targets { AreTargets compared.now targets.now }
    ensures gathered { IfOk result (IsGatheredFrom (wanted compared.now targets.now) start room) }
    ensures walks { AreWalksOf compared.now walks.new.before.sent walks.new.after.sent }
{
    let boxes = boxes_at(alloc, compared, targets, start)?;
    gather_from(alloc, compared, walks, start, boxes.as_slice(), room)
}
