// What `ask` answers.
ghost use Rattle.std.specs.Prelude.{◌≡◌, ◌≤◌, ◌<◌, IfOk, length, map, string_bytes};
ghost use Rattle.block_report.specs.Reports.{HaveText, told_rows};
ghost use Rattle.block_report.specs.Trees.{NodesHaveText, told_nodes};
ghost use Rattle.ordered_cover.specs.Joined.{GoesOnEitherWay};
ghost use Rattle.ordered_cover.specs.Trees.{leaf_count};
ghost use Rattle.header_boxes.specs.Rows.{IsFirstThrough};
ghost use Rattle.network_reach.specs.Reached.{AreJoinedIn, IsPartReportIn, IsQueryIn, IsReportIn, IsTreeIn, goes_on_in, meaning_in, most_rows};
ghost use Rattle.network_reach.specs.Asked.{IsAnswerTo, IsAsked, IsPut, IsReachable, IsReported, IsReportedAsTree, IsReportedInPart};
ghost use Rattle.vpc_model.specs.Appliances.{appliances_of};

use crate::reach::{Reached, reach};
use crate::reachable::put_reachable;
use appliances::Deciders;
use block_report::print_more;
use command_job::{Answer, Job, Status, answer_job, refuse_query};
use fabric::Fabric;
use header_boxes::Row;
use ordered_cover::Node;
use query_words::{Query, read_query};
use reference_check::Network;
use report_reader::{print_readable, print_readable_tree};
use std::alloc::Global;
use std::mem;
use vpc_base::{Header, NoMemory};
use vpc_model::{Phase, Stop};

// ---- answers to a query

// A header that gets through.
fn answer_through(
    alloc: Global,
    f: &Fabric,
    deciders: &Deciders,
    query: &Query,
    h: &Header,
) -> Result<Answer, NoMemory>
    requires appliances { deciders.now.appliances ≡ appliances_of f.now }
    requires query { IsQueryIn f.now query.now }
    requires first { IsFirstThrough (meaning_in f.now query.now) query.now.sides h.now }
    ensures { IfOk result (λ a.
        (a.status ≡ Status.Yes) × IsReachable f.now query.now a.text.items) }
{
    let mut text = Vec::new(alloc);
    put_reachable(&mut text, f, deciders, query, h)?;
    Ok(Answer {
        status: Status::Yes,
        text,
    })
}

// Rows that hold all headers of the query.
fn answer_blocked(
    alloc: Global,
    n: &Network,
    query: &Query,
    rows: &[Row<(Phase, Stop)>],
) -> Result<Answer, NoMemory>
    requires query { IsPut n.now query.now }
    requires told { HaveText n.now rows.now }
    requires listed { query.now.max ≤ most_rows }
    requires report { IsReportIn n.now query.now (told_rows n.now rows.now) }
    requires joined { AreJoinedIn GoesOnEitherWay n.now query.now (told_rows n.now rows.now) }
    requires few { length rows.now ≤ query.now.max }
    ensures { IfOk result (λ a.
        (a.status ≡ Status.No) × IsReported n.now query.now a.text.items) }
{
    let text = print_readable(alloc, n, query.start, query.goal, &query.sides, rows)?;
    Ok(Answer {
        status: Status::No,
        text,
    })
}

// A tree whose leaves hold all headers of the query.
fn answer_treed(
    alloc: Global,
    n: &Network,
    query: &Query,
    nodes: &[Node<(Phase, Stop)>],
) -> Result<Answer, NoMemory>
    requires query { IsPut n.now query.now }
    requires many { most_rows < query.now.max }
    requires told { NodesHaveText n.now nodes.now }
    requires tree { IsTreeIn n.now query.now (told_nodes n.now nodes.now) }
    requires few { leaf_count (told_nodes n.now nodes.now) ≤ query.now.max }
    ensures { IfOk result (λ a.
        (a.status ≡ Status.No) × IsReportedAsTree n.now query.now a.text.items) }
{
    let text = print_readable_tree(alloc, n, query.start, query.goal, &query.sides, nodes)?;
    Ok(Answer {
        status: Status::No,
        text,
    })
}

// Rows that leave headers out.
fn answer_more(
    alloc: Global,
    n: &Network,
    query: &Query,
    rows: &[Row<(Phase, Stop)>],
    next: &Header,
    cells: u128,
) -> Result<Answer, NoMemory>
    requires query { IsQueryIn n.now query.now }
    requires told { HaveText n.now rows.now }
    requires report { IsPartReportIn n.now query.now (told_rows n.now rows.now) next.now cells }
    requires joined { AreJoinedIn (goes_on_in query.now) n.now query.now (told_rows n.now rows.now) }
    ensures { IfOk result (λ a.
        (a.status ≡ Status.More) × IsReportedInPart n.now query.now a.text.items) }
{
    let text = print_more(
        alloc,
        n,
        query.start,
        query.goal,
        &query.sides,
        rows,
        next,
        cells,
    )?;
    Ok(Answer {
        status: Status::More,
        text,
    })
}

// The requests of a query.
#[derive(Drop)]
struct Asking<'a> {
    query: &'a Query,
}

impl<'a> Job for Asking<'a> {
    ghost fits = { λ j d. IsPut d j.query.now };

    ghost answers = { λ j d. IsAnswerTo d j.query.now };

    fn answer_with(
        &self,
        alloc: Global,
        f: &Fabric,
        deciders: &Deciders,
    ) -> Result<Answer, NoMemory> {
        let query = self.query;
        match reach(alloc, f, deciders, query)? {
            Reached::Through(header) => answer_through(alloc, f, deciders, query, &header),
            Reached::Blocked(rows) => answer_blocked(alloc, f.network(), query, rows.as_slice()),
            Reached::Tree(nodes) => answer_treed(alloc, f.network(), query, nodes.as_slice()),
            Reached::More(rows, next, cells) => {
                answer_more(alloc, f.network(), query, rows.as_slice(), &next, cells)
            }
        }
    }
}

// ---- the words

/// What is known of the requests of the query that the words give.
pub fn ask(alloc: Global, network: Network, words: &[String]) -> Result<Answer, NoMemory>
    requires { 6 ≤ length words.now }
    ensures { IfOk result (λ a. IsAsked network (map string_bytes words.now) a.status a.text.items) }
{
    match read_query(alloc, &network, words) {
        Ok(query) => answer_job(alloc, network, &Asking { query: &query }),
        Err(refusal) => {
            mem::forget(network);
            refuse_query(alloc, &refusal)
        }
    }
}
