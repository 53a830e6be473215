// What `check` answers to what `reach` prints.
ghost use Rattle.std.specs.Prelude.{[], ◌≡◌, ◌∷◌, All, IfOk, IfSome, IsTrue, List, codes, drop, map, ℕ};
ghost use Rattle.std.specs.Result.{result_ok};
ghost use Rattle.end_reach.specs.Asked.{AreTargets};
ghost use Rattle.header_boxes.specs.Boxes.{IsValid};
ghost use Rattle.query_words.specs.ReachQuery.{reach_query_of};
ghost use Rattle.report_reader.specs.Reports.{is_ended, pieces_of};
ghost use Rattle.vpc_model.specs.Sound.{is_end};
ghost use Rattle.listing_check.specs.Lines.{all_lines};
ghost use Rattle.reach_check.specs.Questions.{CanBeAsked, IsCheckedUnlessTooMany, origin_of};
ghost use Rattle.reach_check.specs.Reaches.{IsReachChecked, reach_question};

mod probe;
mod question;

use crate::reaches::question::ReachQuestion;
use appliances::Deciders;
use block_report::put;
use changed_ends::id_at;
use command_job::{Answer, Job, answer_job};
use end_reach::{boxes_at, is_too_many, links_of, starts_of, targets_of};
use fabric::Fabric;
use listing_check::{answer_lines, later_lines, question_words, refuse_line, unless_memory};
use listing_reader::{Origin, split_lines};
use query_words::{ReachQuery, read_line_reach_query};
use reference_check::Network;
use std::alloc::Global;
use std::mem;
use vpc_base::{NoMemory, OwnList};
use vpc_model::End;

// ---- the question

// The words after `query`.
fn asked_words<'a, 'b>(words: &'a [&'b [u8]]) -> &'a [&'b [u8]]
    ensures { result.now ≡ drop 1 words.now }
{
    if words.len() < 1 { &[] } else { &words[1..] }
}

// The question that the words of the second line give, if they give one.
fn read_words(alloc: Global, n: &Network, words: &[&[u8]]) -> Result<Option<ReachQuery>, NoMemory>
    ensures question { IfOk result (λ q. q ≡ result_ok (reach_query_of n.now
        (codes "reach" ∷ [] ∷ drop 1 (map (λ w. w.now) words.now)))) }
    ensures known { IfOk result (λ q. IfSome q (CanBeAsked n.now)) }
{
    match read_line_reach_query(alloc, n, asked_words(words)) {
        Ok(query) => Ok(Some(query)),
        Err(refusal) => {
            unless_memory(&refusal)?;
            Ok(None)
        }
    }
}

fn read_question(
    alloc: Global,
    n: &Network,
    lines: &[&[u8]],
) -> Result<Option<ReachQuery>, NoMemory>
    ensures question { IfOk result (λ q. q ≡ reach_question n.now (map (λ l. l.now) lines.now)) }
    ensures known { IfOk result (λ q. IfSome q (CanBeAsked n.now)) }
{
    match question_words(alloc, lines)? {
        Some(words) => read_words(alloc, n, words.as_slice()),
        None => Ok(None),
    }
}

// ---- starts

fn copy_id(alloc: Global, id: &[u8]) -> Result<OwnList<u8>, NoMemory>
    ensures { IfOk result (λ copy. copy ≡ id.now) }
{
    let mut copy = Vec::new(alloc);
    put(&mut copy, id)?;
    Ok(OwnList::of(copy))
}

// What the rows of a start are read by.
fn origin_of(
    alloc: Global,
    n: &Network,
    query: &ReachQuery,
    targets: &[(u32, u32)],
    start: End,
) -> Result<Origin, NoMemory>
    requires query { CanBeAsked n.now query.now }
    requires targets { AreTargets n.now query.now.pairs.dst query.now.goal targets.now }
    requires start { IsTrue (is_end n.now start) }
    ensures value { IfOk result (λ o. o ≡ origin_of n.now query.now targets.now start) }
    ensures valid { IfOk result (λ o. All IsValid o.boxes) }
{
    let id = copy_id(alloc, id_at(n, start))?;
    let boxes = boxes_at(alloc, n, query, targets, start)?;
    Ok(Origin {
        id,
        boxes: OwnList::of(boxes),
    })
}

fn origins_of(
    alloc: Global,
    n: &Network,
    query: &ReachQuery,
    targets: &[(u32, u32)],
    starts: &[End],
) -> Result<Vec<Origin>, NoMemory>
    requires query { CanBeAsked n.now query.now }
    requires targets { AreTargets n.now query.now.pairs.dst query.now.goal targets.now }
    requires starts { All (λ e. IsTrue (is_end n.now e)) starts.now }
    ensures value { IfOk result (λ v. v.items ≡ map (origin_of n.now query.now targets.now) starts.now) }
    ensures valid { IfOk result (λ v. All (λ o. All IsValid o.boxes) v.items) }
{
    let mut origins = Vec::new(alloc);
    for start in starts {
        let origin = origin_of(alloc, n, query, targets, *start)?;
        origins.push(origin)?;
    }
    Ok(origins)
}

// ---- what is found

// The lines of a listing, and the question that it answers.
#[derive(Drop)]
struct Checking<'a> {
    query: &'a ReachQuery,
    ended: bool,
    lines: &'a [&'a [u8]],
}

impl<'a> Job for Checking<'a> {
    ghost use Rattle.std.specs.Prelude.{map};
    ghost use Rattle.reach_check.specs.Questions.{CanBeAsked};
    ghost use Rattle.reach_check.specs.Reaches.{IsCheckedFor};

    ghost fits = { λ j d. CanBeAsked d j.query.now };

    ghost answers = { λ j d. IsCheckedFor d j.query.now (map (λ l. l.now) j.lines.now) j.ended };

    fn answer_with(
        &self,
        alloc: Global,
        f: &Fabric,
        deciders: &Deciders,
    ) -> Result<Answer, NoMemory> {
        let query = self.query;
        let n = f.network();
        // That the network is accepted, so that it has few interfaces, is a clause of this call.
        let _ = n.description();
        let targets = targets_of(alloc, n, query.pairs.dst, query.goal)?;
        let all_starts = starts_of(alloc, n, query.pairs.src, query.start, query.goal)?;
        let starts = all_starts.as_slice();
        let all_origins = origins_of(alloc, n, query, targets.as_slice(), starts)?;
        let origins = all_origins.as_slice();
        let links = links_of(alloc, n, query)?;
        let question = ReachQuestion {
            fabric: f,
            deciders,
            goal: query.goal,
            origins,
            starts,
            links: links.as_slice(),
        };
        answer_lines(
            alloc,
            &question,
            origins,
            self.ended,
            later_lines(self.lines),
        )
    }
}

// What is answered to the lines of a listing with this question.
fn check_asked(
    alloc: Global,
    network: Network,
    query: &ReachQuery,
    ended: bool,
    lines: &[&[u8]],
) -> Result<Answer, NoMemory>
    requires { CanBeAsked network query.now }
    ensures { IfOk result (λ a. IsCheckedUnlessTooMany network query.now
        (map (λ l. l.now) lines.now) ended a.status a.text.items) }
{
    if is_too_many(&network, query) {
        mem::forget(network);
        refuse_line(alloc, 2)
    } else {
        answer_job(
            alloc,
            network,
            &Checking {
                query,
                ended,
                lines,
            },
        )
    }
}

// What is answered to the lines of a text.
fn check_lines(
    alloc: Global,
    network: Network,
    ended: bool,
    lines: &[&[u8]],
) -> Result<Answer, NoMemory>
    ensures { (bytes : List ℕ) → map (λ l. l.now) lines.now ≡ all_lines bytes
        → ended ≡ is_ended (pieces_of bytes)
        → IfOk result (λ a. IsReachChecked network bytes a.status a.text.items) }
{
    match read_question(alloc, &network, lines) {
        Ok(Some(query)) => check_asked(alloc, network, &query, ended, lines),
        Ok(None) => {
            mem::forget(network);
            refuse_line(alloc, 2)
        }
        Err(no_memory) => {
            mem::forget(network);
            Err(no_memory)
        }
    }
}

/// What is answered to a text that `reach` printed, or that claims it: its first line is not read here. The second line has to
/// be a question as `reach` takes it, but for `max`, which is passed over.
pub fn check_reach(alloc: Global, network: Network, bytes: &[u8]) -> Result<Answer, NoMemory>
    ensures { IfOk result (λ a. IsReachChecked network bytes.now a.status a.text.items) }
{
    match split_lines(alloc, bytes) {
        Ok(split) => check_lines(alloc, network, split.ended, split.lines.as_slice()),
        Err(no_memory) => {
            mem::forget(network);
            Err(no_memory)
        }
    }
}
