// What `expect` answers.
ghost use Rattle.std.specs.Prelude.{◌≡◌, All, IfOk};
ghost use Rattle.network_reach.specs.Reached.{IsQueryIn};
ghost use Rattle.vpc_model.specs.Appliances.{appliances_of};
ghost use Rattle.policy_check.specs.Policy.{AddsLine, AddsLines, AreJudged, ArePoliciesJudged};

use crate::counts::Tally;
use crate::judging::{Finding, finding_of};
use crate::rules::{PolicyRule, RulesFault, read_rules};
use crate::texts::{put_finding, put_tally};
use appliances::Deciders;
use command_job::{Answer, Job, answer_job, refuse_line};
use fabric::Fabric;
use reference_check::Network;
use std::alloc::Global;
use std::mem;
use vpc_base::NoMemory;

// ---- rules

// Judges a rule, and appends its line unless it holds.
fn put_judged(
    out: &mut Vec<u8>,
    f: &Fabric,
    deciders: &Deciders,
    rule: &PolicyRule,
) -> Result<Finding, NoMemory>
    requires appliances { deciders.now.appliances ≡ appliances_of f.now }
    requires query { IsQueryIn f.now rule.now.query }
    ensures { IfOk result (AddsLine f.now rule.now out.old.items out.new.items) }
{
    let n = f.network();
    // That the network is accepted is a clause of this call.
    let _ = n.description();
    let finding = finding_of(*out.allocator(), f, deciders, rule)?;
    put_finding(out, n, rule.line, &finding)?;
    Ok(finding)
}

// Judges rules one after another, and counts what is found of them.
fn put_all_judged(
    out: &mut Vec<u8>,
    f: &Fabric,
    deciders: &Deciders,
    rules: &[PolicyRule],
) -> Result<Tally, NoMemory>
    requires appliances { deciders.now.appliances ≡ appliances_of f.now }
    requires queries { All (λ rule. IsQueryIn f.now rule.query) rules.now }
    ensures { IfOk result (AddsLines f.now rules.now out.old.items out.new.items) }
{
    let mut tally = Tally {
        hold: 0,
        fail: 0,
        unknown: 0,
    };
    for rule in rules {
        let finding = put_judged(out, f, deciders, rule)?;
        tally = tally.with_one(&finding);
    }
    Ok(tally)
}

fn answer_rules(
    alloc: Global,
    f: &Fabric,
    deciders: &Deciders,
    rules: &[PolicyRule],
) -> Result<Answer, NoMemory>
    requires appliances { deciders.now.appliances ≡ appliances_of f.now }
    requires queries { All (λ rule. IsQueryIn f.now rule.query) rules.now }
    ensures { IfOk result (λ a. AreJudged f.now rules.now a.status a.text.items) }
{
    let mut text = Vec::new(alloc);
    let tally = put_all_judged(&mut text, f, deciders, rules)?;
    put_tally(&mut text, &tally)?;
    Ok(Answer {
        status: tally.status(),
        text,
    })
}

// The rules of a policy.
#[derive(Drop)]
struct Expecting<'a> {
    rules: &'a [PolicyRule],
}

impl<'a> Job for Expecting<'a> {
    ghost fits = { λ j d. All (λ rule. IsQueryIn d rule.query) j.rules.now };

    ghost answers = { λ j d. AreJudged d j.rules.now };

    fn answer_with(
        &self,
        alloc: Global,
        f: &Fabric,
        deciders: &Deciders,
    ) -> Result<Answer, NoMemory> {
        answer_rules(alloc, f, deciders, self.rules)
    }
}

// ---- the text

/// Whether each rule of a policy holds in the network, with the appliances that it describes: a line for each that
/// fails or isn't known, and how many do; or the first line that is no rule, before any is judged. Fails for want of
/// memory alone.
pub fn expect_rules(alloc: Global, network: Network, bytes: &[u8]) -> Result<Answer, NoMemory>
    ensures { IfOk result (λ a. ArePoliciesJudged network bytes.now a.status a.text.items) }
{
    match read_rules(alloc, &network, bytes) {
        Ok(rules) => {
            let job = Expecting {
                rules: rules.as_slice(),
            };
            answer_job(alloc, network, &job)
        }
        Err(RulesFault::BadLine(number)) => {
            mem::forget(network);
            refuse_line(alloc, b"rules", number)
        }
        Err(RulesFault::Memory) => {
            mem::forget(network);
            Err(NoMemory)
        }
    }
}
