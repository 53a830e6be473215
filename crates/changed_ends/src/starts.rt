// Where the requests that are asked for start.
ghost use Rattle.std.specs.Prelude.{◌≡◌, ◌++◌, All, IfOk, IfSome, OnOk, Some, filter, not};
ghost use Rattle.query_words.specs.ChangeQuery.{IsChangedEnd, has_source, internet_in_both, primary_in};
ghost use Rattle.vpc_model.specs.declared.places.End.TheVariants as ends;
ghost use Rattle.changed_ends.specs.Asked.{AreAllStarts, StartAt, can_send, is_goal, is_start, same_option, starts_among};

use crate::hosts::hosts_of_either;
use crate::outside::sources_of_either;
use packet_emulator::same_end;
use query_words::ChangedEnd;
use reference_check::Network;
use std::alloc::Global;
use vpc_base::NoMemory;
use vpc_model::{End, EniNo};

/// The internet, which each network has.
pub fn internet() -> ChangedEnd
    ensures { result ≡ internet_in_both }
{
    ChangedEnd {
        before: Some(End::Internet),
        after: Some(End::Internet),
    }
}

fn same_option(one: Option<End>, other: Option<End>) -> bool
    ensures { result ≡ same_option one other }
{
    match (one, other) {
        (None, None) => true,
        (Some(one), Some(other)) => same_end(one, other),
        _ => false,
    }
}

fn is_goal(goal: Option<ChangedEnd>, end: &ChangedEnd) -> bool
    ensures { result ≡ is_goal goal end.now }
{
    match goal {
        Some(goal) => same_option(goal.before, end.before) && same_option(goal.after, end.after),
        None => false,
    }
}

fn primary_at(n: &Network, eni: EniNo) -> Option<u32>
    ensures { result ≡ primary_in n.now (Some (ends.Interface eni)) }
{
    match n.description().interfaces.as_slice().get(eni.0 as usize) {
        Some(interface) => interface.primary,
        None => None,
    }
}

/// The primary address of an end, where the network has it and it has one.
pub fn primary_in(n: &Network, end: Option<End>) -> Option<u32>
    ensures { result ≡ primary_in n.now end }
{
    match end {
        Some(End::Interface(eni)) => primary_at(n, eni),
        _ => None,
    }
}

fn has_source(before: &Network, after: &Network, end: &ChangedEnd) -> bool
    ensures { result ≡ has_source before.now after.now end.now }
{
    primary_in(before, end.before).is_some() || primary_in(after, end.after).is_some()
}

fn can_send(before: &Network, after: &Network, src: Option<(u32, u32)>, end: &ChangedEnd) -> bool
    ensures { result ≡ can_send before.now after.now src end.now }
{
    match src {
        Some(_) => true,
        None => has_source(before, after, end),
    }
}

fn is_start(
    before: &Network,
    after: &Network,
    src: Option<(u32, u32)>,
    goal: Option<ChangedEnd>,
    end: &ChangedEnd,
) -> bool
    ensures { result ≡ is_start before.now after.now src goal end.now }
{
    can_send(before, after, src, end) && !is_goal(goal, end)
}

// Adds the hosts that are starts.
fn add_hosts(
    starts: &mut Vec<ChangedEnd>,
    before: &Network,
    after: &Network,
    src: Option<(u32, u32)>,
    goal: Option<ChangedEnd>,
    hosts: &[ChangedEnd],
) -> Result<(), NoMemory>
    ensures { OnOk result (starts.new.items
        ≡ starts.old.items ++ filter (is_start before.now after.now src goal) hosts.now) }
{
    for host in hosts {
        if is_start(before, after, src, goal, host) {
            starts.push(*host)?;
        }
    }
    Ok(())
}

/// Adds the networks that aren't described, without the goal.
pub(crate) fn add_outside(
    starts: &mut Vec<ChangedEnd>,
    goal: Option<ChangedEnd>,
    outside: &[ChangedEnd],
) -> Result<(), NoMemory>
    ensures { OnOk result (starts.new.items
        ≡ starts.old.items ++ filter (λ e. not (is_goal goal e)) outside.now) }
{
    for end in outside {
        if !is_goal(goal, end) {
            starts.push(*end)?;
        }
    }
    Ok(())
}

// The internet, then the hosts, then the networks that aren't described.
fn starts_among(
    alloc: Global,
    before: &Network,
    after: &Network,
    src: Option<(u32, u32)>,
    goal: Option<ChangedEnd>,
    hosts: &[ChangedEnd],
    outside: &[ChangedEnd],
) -> Result<Vec<ChangedEnd>, NoMemory>
    ensures { IfOk result (λ v. v.items
        ≡ starts_among before.now after.now src goal hosts.now outside.now) }
{
    let mut starts = Vec::new(alloc);
    if !is_goal(goal, &internet()) {
        starts.push(internet())?;
    }
    add_hosts(&mut starts, before, after, src, goal, hosts)?;
    add_outside(&mut starts, goal, outside)?;
    Ok(starts)
}

fn all_starts(
    alloc: Global,
    before: &Network,
    after: &Network,
    src: Option<(u32, u32)>,
    goal: Option<ChangedEnd>,
) -> Result<Vec<ChangedEnd>, NoMemory>
    ensures { IfOk result (λ v. AreAllStarts before.now after.now src goal v.items) }
{
    let hosts = hosts_of_either(alloc, before, after)?;
    let outside = sources_of_either(alloc, before, after)?;
    starts_among(
        alloc,
        before,
        after,
        src,
        goal,
        hosts.as_slice(),
        outside.as_slice(),
    )
}

/// Where requests start: at the end that is given, or at the internet, all hosts of either network and all networks that aren't
/// described and may open connections in either, without the goal.
/// Where no source is given, hosts without a primary address in either send nothing that is asked for.
pub fn starts_of(
    alloc: Global,
    before: &Network,
    after: &Network,
    src: Option<(u32, u32)>,
    start: Option<ChangedEnd>,
    goal: Option<ChangedEnd>,
) -> Result<Vec<ChangedEnd>, NoMemory>
    requires { IfSome start (IsChangedEnd before.now after.now) }
    ensures starts { IfOk result (λ v. StartAt before.now after.now src start goal v.items) }
    ensures described { IfOk result (λ v. All (IsChangedEnd before.now after.now) v.items) }
{
    match start {
        Some(start) => {
            let mut starts = Vec::new(alloc);
            starts.push(start)?;
            Ok(starts)
        }
        None => all_starts(alloc, before, after, src, goal),
    }
}
