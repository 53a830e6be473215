// Prints a request that gets through, with its reply.
ghost use Rattle.std.specs.Prelude.{◌≡◌, ◌++◌, All, IsTrue, OnOk, None, codes};
ghost use Rattle.block_report.specs.Reports.{reachable_text};
ghost use Rattle.block_report.specs.Hops.{hop_lines};
ghost use Rattle.block_report.specs.Walks.{arrived_line};
ghost use Rattle.block_report.specs.Words.{line_end};
ghost use Rattle.network_reach.specs.Reached.{IsQueryIn, meaning_in};
ghost use Rattle.vpc_laws.specs.Sound.{IsSoundHop};
ghost use Rattle.vpc_model.specs.Appliances.{appliances_of};
ghost use Rattle.vpc_model.specs.Sound.{is_end};
ghost use Rattle.vpc_model.specs.Told.{end_id};
ghost use Rattle.network_reach.specs.Reachable.{arrival_text, packet_line, packet_text, phase_text};

use appliances::Deciders;
use block_report::{put_header_line, put_line, put_walk};
use fabric::Fabric;
use packet_emulator::{Hops, both};
use query_words::Query;
use reference_check::Network;
use vpc_base::{Header, NoMemory};
use vpc_model::{End, Hop, Outcome};

#[tactic(auto, unfolding(crate::specs::Reachable::packet_line))]
fn put_packet_line(out: &mut Vec<u8>, h: &Header) -> Result<(), NoMemory>
    ensures { OnOk result (out.new.items ≡ out.old.items ++ packet_line h.now) }
{
    put_header_line(out, b"packet", h)
}

#[tactic(auto, unfolding(crate::specs::Reachable::packet_text))]
fn put_packet(out: &mut Vec<u8>, h: &Header) -> Result<(), NoMemory>
    ensures { OnOk result (out.new.items ≡ out.old.items ++ packet_text h.now) }
{
    put_line(out, b"reachable")?;
    put_packet_line(out, h)
}

// The hops of a walk that arrives at an end.
fn put_arrival(
    out: &mut Vec<u8>,
    n: &Network,
    hops: &[Hop],
    end: End,
    h: &Header,
) -> Result<(), NoMemory>
    requires hops { All (IsSoundHop n.now) hops.now }
    requires end { IsTrue (is_end n.now end) }
    ensures { OnOk result (out.new.items ≡ out.old.items ++ arrival_text n.now hops.now end) }
{
    put_walk(out, n, hops, &Outcome::Arrived(end, *h))
}

#[tactic(auto, unfolding(crate::specs::Reachable::phase_text))]
fn put_phase(
    out: &mut Vec<u8>,
    n: &Network,
    name: &[u8],
    hops: &[Hop],
    end: End,
    h: &Header,
) -> Result<(), NoMemory>
    requires hops { All (IsSoundHop n.now) hops.now }
    requires end { IsTrue (is_end n.now end) }
    ensures { OnOk result (out.new.items ≡ out.old.items ++ phase_text n.now name.now hops.now end) }
{
    put_line(out, name)?;
    put_arrival(out, n, hops, end, h)
}

/// Appends a request that gets through, with the hops of its walk and of its reply's.
pub fn put_reachable(
    out: &mut Vec<u8>,
    f: &Fabric,
    deciders: &Deciders,
    query: &Query,
    h: &Header,
) -> Result<(), NoMemory>
    requires appliances { deciders.now.appliances ≡ appliances_of f.now }
    requires query { IsQueryIn f.now query.now }
    requires through { meaning_in f.now query.now h.now ≡ None }
    ensures { OnOk result (out.new.items ≡ out.old.items
        ++ reachable_text f.now (appliances_of f.now) query.now.start query.now.goal h.now) }
{
    let n = f.network();
    let _ = n.description();
    let mut request = Hops::new();
    let mut reply = Hops::new();
    both(
        f,
        deciders,
        query.start,
        query.goal,
        *h,
        &mut request,
        &mut reply,
    );
    put_packet(out, h)?;
    put_phase(out, n, b"request", request.as_slice(), query.goal, h)?;
    put_phase(out, n, b"reply", reply.as_slice(), query.start, h)
}
