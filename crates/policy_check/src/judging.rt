// Whether a rule holds.
ghost use Rattle.std.specs.Prelude.{◌≡◌, IfOk};
ghost use Rattle.box_walk.specs.Asking.{asked};
ghost use Rattle.header_boxes.specs.Rows.{IsFirstThrough};
ghost use Rattle.network_reach.specs.Reached.{IsQueryIn};
ghost use Rattle.vpc_model.specs.Appliances.{appliances_of};
ghost use Rattle.policy_check.specs.Judged.{IsFound};
ghost use Rattle.policy_check.specs.Stopped.{passing_of};

use crate::certainties::Certainty;
use crate::halts::{Halt, first_halt, first_stopped, halt_at};
use crate::rules::{PolicyRule, Wanted};
use appliances::Deciders;
use fabric::Fabric;
use network_reach::reach::first_through;
use query_words::Query;
use std::alloc::Global;
use vpc_base::{Header, NoMemory};

/// Why a rule fails.
#[derive(Clone, Copy)]
pub enum Failure {
    /// One request was to get through, and none does.
    NoneThrough,
    /// None was to get through: the first that does.
    Through(Header),
    /// All were to get through: the first that is stopped by something known, or its reply.
    Stopped(Halt),
}

/// What is found of a rule.
#[derive(Clone, Copy)]
pub enum Finding {
    /// It holds.
    Held,
    /// It fails.
    Failed(Failure),
    /// It isn't known: the first request that leaves the networks which are described, or whose reply does.
    NotKnown(Halt),
}

// One request is to get through.
fn judge_reachable(
    alloc: Global,
    f: &Fabric,
    deciders: &Deciders,
    query: &Query,
) -> Result<Finding, NoMemory>
    requires appliances { deciders.now.appliances ≡ appliances_of f.now }
    requires query { IsQueryIn f.now query.now }
    ensures { IfOk result (IsFound f.now Wanted.Reachable query.now) }
{
    match first_through(alloc, f, deciders, query)? {
        Some(_) => Ok(Finding::Held),
        None => match first_halt(alloc, f, deciders, query, Certainty::Unknown)? {
            Some(halt) => Ok(Finding::NotKnown(halt)),
            None => Ok(Finding::Failed(Failure::NoneThrough)),
        },
    }
}

// None is to get through.
fn judge_blocked(
    alloc: Global,
    f: &Fabric,
    deciders: &Deciders,
    query: &Query,
) -> Result<Finding, NoMemory>
    requires appliances { deciders.now.appliances ≡ appliances_of f.now }
    requires query { IsQueryIn f.now query.now }
    ensures { IfOk result (IsFound f.now Wanted.Blocked query.now) }
{
    match first_through(alloc, f, deciders, query)? {
        Some(h) => Ok(Finding::Failed(Failure::Through(h))),
        None => match first_halt(alloc, f, deciders, query, Certainty::Unknown)? {
            Some(halt) => Ok(Finding::NotKnown(halt)),
            None => Ok(Finding::Held),
        },
    }
}

// All are to get through, and this one is the first that doesn't: the first that something known stops is searched
// for; where there is none, nothing is known of this one.
fn judge_stopped(
    alloc: Global,
    f: &Fabric,
    deciders: &Deciders,
    query: &Query,
    h: Header,
) -> Result<Finding, NoMemory>
    requires appliances { deciders.now.appliances ≡ appliances_of f.now }
    requires query { IsQueryIn f.now query.now }
    requires first { IsFirstThrough
        (passing_of (asked f.now query.now.start query.now.goal)) query.now.sides h }
    ensures { IfOk result (IsFound f.now Wanted.Open query.now) }
{
    match first_halt(alloc, f, deciders, query, Certainty::Known)? {
        Some(halt) => Ok(Finding::Failed(Failure::Stopped(halt))),
        None => Ok(Finding::NotKnown(halt_at(f, deciders, query, h))),
    }
}

// All are to get through.
fn judge_open(
    alloc: Global,
    f: &Fabric,
    deciders: &Deciders,
    query: &Query,
) -> Result<Finding, NoMemory>
    requires appliances { deciders.now.appliances ≡ appliances_of f.now }
    requires query { IsQueryIn f.now query.now }
    ensures { IfOk result (IsFound f.now Wanted.Open query.now) }
{
    match first_stopped(alloc, f, deciders, query)? {
        Some(h) => judge_stopped(alloc, f, deciders, query, h),
        None => Ok(Finding::Held),
    }
}

/// What is found of a rule, by two searches at most. The first doesn't tell apart what stops requests, and asks boxes of
/// them as large as the rows on their walks let them be, whatever the size of the network; only where it leaves the rule
/// open a second one looks at what stops them.
pub fn finding_of(
    alloc: Global,
    f: &Fabric,
    deciders: &Deciders,
    rule: &PolicyRule,
) -> Result<Finding, NoMemory>
    requires appliances { deciders.now.appliances ≡ appliances_of f.now }
    requires query { IsQueryIn f.now rule.now.query }
    ensures { IfOk result (IsFound f.now rule.now.wanted rule.now.query) }
{
    let query = &rule.query;
    match rule.wanted {
        Wanted::Reachable => judge_reachable(alloc, f, deciders, query),
        Wanted::Blocked => judge_blocked(alloc, f, deciders, query),
        Wanted::Open => judge_open(alloc, f, deciders, query),
    }
}
