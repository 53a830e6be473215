// What `unused` answers.
ghost use Rattle.std.specs.Prelude.{◌≡◌, ◌≤◌, IfOk, OnOk, length, map, string_bytes};
ghost use Rattle.vpc_model.specs.Appliances.{appliances_of};
ghost use Rattle.unused_rules.specs.Answered.{AreJudgedFor, IsUnusedAnswered, IsUnusedFor};
ghost use Rattle.unused_rules.specs.Chunks.{IsIdle};
ghost use Rattle.unused_rules.specs.Lines.{AddsLine, AddsLines, IsRulesText};
ghost use Rattle.unused_rules.specs.Needed.{IsAskedIn};
ghost use Rattle.unused_rules.specs.Rules.{rules_of};

use crate::chunks::Chunk;
use crate::judging::{Baseline, idle_at, needed_at};
use crate::lines::put_rule_line;
use crate::rules::{RuleName, rules_of};
use appliances::Deciders;
use block_report::put_number_line;
use command_job::{Answer, Job, Status, answer_job, answer_line, refuse_query};
use fabric::Fabric;
use query_words::{Query, read_unbounded_query};
use reference_check::Network;
use std::alloc::Global;
use std::mem;
use vpc_base::NoMemory;

// How many rules are judged at most.
const MOST_RULES: usize = 2000;

// Judges a rule, by a chunk that decides nothing, and appends its line.
fn put_judged(
    out: &mut Vec<u8>,
    base: &Baseline,
    rule: &RuleName,
    idle: &Option<Chunk>,
) -> Result<(), NoMemory>
    requires idle { IsIdle base.now.fabric.now base.now.query.now idle.now }
    ensures { OnOk result (AddsLine
        base.now.fabric.now base.now.query.now rule.now out.old.items out.new.items) }
{
    let need = needed_at(*out.allocator(), base, rule, idle)?;
    put_rule_line(out, base.fabric.network().description(), rule, &need)
}

fn put_all_judged(
    out: &mut Vec<u8>,
    f: &Fabric,
    deciders: &Deciders,
    query: &Query,
    rules: &[RuleName],
) -> Result<(), NoMemory>
    requires appliances { deciders.now.appliances ≡ appliances_of f.now }
    requires query { IsAskedIn f.now query.now }
    ensures { OnOk result (AddsLines f.now query.now rules.now out.old.items out.new.items) }
{
    let base = Baseline::of(f, deciders, query);
    let mut idle = None;
    for rule in rules {
        idle = idle_at(*out.allocator(), &base, rule, idle)?;
        put_judged(out, &base, rule, &idle)?;
    }
    Ok(())
}

// The rules of the network, and the query for which they are judged.
#[derive(Drop)]
struct Judging<'a> {
    query: &'a Query,
    rules: &'a [RuleName],
}

impl<'a> Job for Judging<'a> {
    ghost fits = { λ j d. IsAskedIn d j.query.now × (j.rules.now ≡ rules_of d) };

    ghost answers = { λ j d. AreJudgedFor d j.query.now };

    fn answer_with(
        &self,
        alloc: Global,
        f: &Fabric,
        deciders: &Deciders,
    ) -> Result<Answer, NoMemory> {
        let mut text = Vec::new(alloc);
        put_number_line(&mut text, b"rules", self.rules.len() as u128)?;
        put_all_judged(&mut text, f, deciders, self.query, self.rules)?;
        Ok(Answer {
            status: Status::Yes,
            text,
        })
    }
}

// Judges these rules, unless they are too many.
fn judge(
    alloc: Global,
    network: Network,
    query: &Query,
    rules: &[RuleName],
) -> Result<Answer, NoMemory>
    requires query { IsAskedIn network query.now }
    requires rules { rules.now ≡ rules_of network }
    ensures { IfOk result (λ a. IsUnusedFor network query.now a.status a.text.items) }
{
    if rules.len() <= MOST_RULES {
        answer_job(alloc, network, &Judging { query, rules })
    } else {
        mem::forget(network);
        answer_line(alloc, Status::Query, b"refused unused TooManyRules")
    }
}

fn judge_all(alloc: Global, network: Network, query: &Query) -> Result<Answer, NoMemory>
    requires { IsAskedIn network query.now }
    ensures { IfOk result (λ a. IsUnusedFor network query.now a.status a.text.items) }
{
    match rules_of(alloc, &network) {
        Ok(rules) => judge(alloc, network, query, rules.as_slice()),
        Err(no_memory) => {
            mem::forget(network);
            Err(no_memory)
        }
    }
}

/// For each rule of a network's security groups and network ACLs the first request of a query whose verdict would be
/// another value without it, or that there is none. Each rule is judged alone: of two equal rules both are unused, though
/// they can't both go. A network with more than 2,000 rules is refused. Fails for want of memory alone.
pub fn unused(alloc: Global, network: Network, words: &[String]) -> Result<Answer, NoMemory>
    requires { 6 ≤ length words.now }
    ensures { IfOk result (λ a.
        IsUnusedAnswered network (map string_bytes words.now) a.status a.text.items) }
{
    match read_unbounded_query(alloc, &network, words) {
        Ok(query) => judge_all(alloc, network, &query),
        Err(refusal) => {
            mem::forget(network);
            refuse_query(alloc, &refusal)
        }
    }
}
