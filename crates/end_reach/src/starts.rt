// Where the requests that are asked for start.
ghost use Rattle.std.specs.Prelude.{◌≡◌, ◌++◌, ◌∷◌, [], All, IfOk, IfSome, IsTrue, OnOk, cond, filter, map};
ghost use Rattle.vpc_model.specs.Sound.{is_end, is_eni};
ghost use Rattle.vpc_model.specs.declared.places.End.TheVariants as ends;
ghost use Rattle.end_reach.specs.Asked.{AreAllStarts, AreStarts, has_primary, has_source, is_far_start, is_goal, is_start, starts_among};

use described_hosts::hosts_by_id;
use listing_text::sources_by_id;
use packet_emulator::same_end;
use reference_check::Network;
use std::alloc::Global;
use vpc_base::NoMemory;
use vpc_model::{End, EniNo, FarNo};

fn is_goal(goal: Option<End>, end: End) -> bool
    ensures { result ≡ is_goal goal end }
{
    match goal {
        Some(goal) => same_end(end, goal),
        None => false,
    }
}

fn has_primary(n: &Network, eni: EniNo) -> bool
    ensures { result ≡ has_primary n.now eni }
{
    match n.description().interfaces.as_slice().get(eni.0 as usize) {
        Some(interface) => interface.primary.is_some(),
        None => false,
    }
}

fn has_source(n: &Network, src: Option<(u32, u32)>, eni: EniNo) -> bool
    ensures { result ≡ has_source n.now src eni }
{
    match src {
        Some(_) => true,
        None => has_primary(n, eni),
    }
}

fn is_start(n: &Network, src: Option<(u32, u32)>, goal: Option<End>, eni: EniNo) -> bool
    ensures { result ≡ is_start n.now src goal eni }
{
    has_source(n, src, eni) && !is_goal(goal, End::Interface(eni))
}

// Adds a host, where it is a start.
fn add_host(
    starts: &mut Vec<End>,
    n: &Network,
    src: Option<(u32, u32)>,
    goal: Option<End>,
    host: EniNo,
) -> Result<(), NoMemory>
    ensures { OnOk result (starts.new.items
        ≡ starts.old.items ++ cond (is_start n.now src goal host) (ends.Interface host ∷ []) []) }
{
    if is_start(n, src, goal, host) {
        starts.push(End::Interface(host))?;
    }
    Ok(())
}

// Adds the hosts that are starts.
fn add_hosts(
    starts: &mut Vec<End>,
    n: &Network,
    src: Option<(u32, u32)>,
    goal: Option<End>,
    hosts: &[EniNo],
) -> Result<(), NoMemory>
    ensures { OnOk result (starts.new.items
        ≡ starts.old.items ++ map ends.Interface (filter (is_start n.now src goal) hosts.now)) }
{
    for host in hosts {
        add_host(starts, n, src, goal, *host)?;
    }
    Ok(())
}

// The internet, where it isn't the goal.
fn first_starts(alloc: Global, goal: Option<End>) -> Result<Vec<End>, NoMemory>
    ensures { IfOk result (λ v. v.items ≡ cond (is_goal goal ends.Internet) [] (ends.Internet ∷ [])) }
{
    let mut starts = Vec::new(alloc);
    if !is_goal(goal, End::Internet) {
        starts.push(End::Internet)?;
    }
    Ok(starts)
}

// Whether a network that isn't described isn't the goal.
pub(crate) fn is_far_start(goal: Option<End>, far: FarNo) -> bool
    ensures { result ≡ is_far_start goal far }
{
    !is_goal(goal, End::Far(far))
}

// Adds a network that isn't described, where it isn't the goal.
fn add_far(starts: &mut Vec<End>, goal: Option<End>, far: FarNo) -> Result<(), NoMemory>
    ensures { OnOk result (starts.new.items
        ≡ starts.old.items ++ cond (is_far_start goal far) (ends.Far far ∷ []) []) }
{
    if is_far_start(goal, far) {
        starts.push(End::Far(far))?;
    }
    Ok(())
}

// Adds the networks that aren't described, without the goal.
fn add_outside(starts: &mut Vec<End>, goal: Option<End>, outside: &[FarNo]) -> Result<(), NoMemory>
    ensures { OnOk result (starts.new.items
        ≡ starts.old.items ++ map ends.Far (filter (is_far_start goal) outside.now)) }
{
    for far in outside {
        add_far(starts, goal, *far)?;
    }
    Ok(())
}

// The internet, then the hosts, then the networks that aren't described.
fn starts_among(
    alloc: Global,
    n: &Network,
    src: Option<(u32, u32)>,
    goal: Option<End>,
    hosts: &[EniNo],
    outside: &[FarNo],
) -> Result<Vec<End>, NoMemory>
    ensures { IfOk result (λ v. v.items ≡ starts_among n.now src goal hosts.now outside.now) }
{
    let mut starts = first_starts(alloc, goal)?;
    add_hosts(&mut starts, n, src, goal, hosts)?;
    add_outside(&mut starts, goal, outside)?;
    Ok(starts)
}

fn all_starts(
    alloc: Global,
    n: &Network,
    src: Option<(u32, u32)>,
    goal: Option<End>,
) -> Result<Vec<End>, NoMemory>
    ensures { IfOk result (λ v. AreAllStarts n.now src goal v.items) }
{
    let hosts = hosts_by_id(alloc, n)?;
    let outside = sources_by_id(alloc, n)?;
    starts_among(alloc, n, src, goal, hosts.as_slice(), outside.as_slice())
}

fn only(alloc: Global, start: End) -> Result<Vec<End>, NoMemory>
    ensures { IfOk result (λ v. v.items ≡ start ∷ []) }
{
    let mut starts = Vec::new(alloc);
    starts.push(start)?;
    Ok(starts)
}

/// Where requests start: at the end that is given, or at the internet, all hosts and all networks that aren't described and may open
/// connections, without the goal. Where no source is given, hosts without a primary address send nothing that is asked for.
pub fn starts_of(
    alloc: Global,
    n: &Network,
    src: Option<(u32, u32)>,
    start: Option<End>,
    goal: Option<End>,
) -> Result<Vec<End>, NoMemory>
    requires { IfSome start (λ e. IsTrue (is_end n.now e)) }
    ensures starts { IfOk result (λ v. AreStarts n.now src start goal v.items) }
    ensures described { IfOk result (λ v. All (λ e. IsTrue (is_end n.now e)) v.items) }
{
    match start {
        Some(start) => only(alloc, start),
        None => all_starts(alloc, n, src, goal),
    }
}
