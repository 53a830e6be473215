// The lines of a walk with what decided.
ghost use Rattle.std.specs.Prelude.{◌≡◌, ◌++◌, All, OnOk};
ghost use Rattle.vpc_laws.specs.Sound.{EndsWell, IsSoundHop};
ghost use Rattle.vpc_model.specs.Connections.{same_header};
ghost use Rattle.walk_reasons.specs.Decisions.{decided};
ghost use Rattle.walk_reasons.specs.Parts.{hop_text, hops_text};
ghost use Rattle.walk_reasons.specs.Reasons.{decision_lines, reasons_text, rewritten};

use crate::deciding::put_decided_at;
use block_report::{put_header_line, put_hop, put_outcome};
use fabric::Fabric;
use vpc_base::{Header, NoMemory};
use vpc_model::{Hop, Outcome};

fn is_same(a: &Header, b: &Header) -> bool
    ensures { result ≡ same_header a.now b.now }
{
    a.proto == b.proto && (a.src == b.src && (a.dst == b.dst && (a.p == b.p && a.q == b.q)))
}

// What the header has become, where it is another than before.
fn put_rewritten(out: &mut Vec<u8>, f: &Fabric, before: &Header, h: &Header) -> Result<(), NoMemory>
    ensures { OnOk result (out.new.items ≡ out.old.items ++ decision_lines f.now (rewritten before.now h.now)) }
{
    let _ = f;
    if is_same(before, h) {
        Ok(())
    } else {
        put_header_line(out, b"becomes", h)
    }
}

// What decides at a hop.
fn put_decided(out: &mut Vec<u8>, f: &Fabric, hop: &Hop) -> Result<(), NoMemory>
    requires { IsSoundHop f.now hop.now }
    ensures { OnOk result (out.new.items ≡ out.old.items ++ decision_lines f.now (decided f.now hop.now)) }
{
    put_decided_at(out, f, &hop.header, &hop.by, hop.place)
}

// The lines of a hop: what the header has become, the hop, and what decides there.
fn put_hop_lines(
    out: &mut Vec<u8>,
    f: &Fabric,
    number: u128,
    before: &Header,
    hop: &Hop,
) -> Result<(), NoMemory>
    requires { IsSoundHop f.now hop.now }
    ensures { OnOk result (out.new.items ≡ out.old.items ++ hop_text f.now number before.now hop.now) }
{
    put_rewritten(out, f, before, &hop.header)?;
    put_hop(out, f.network(), number, hop)?;
    put_decided(out, f, hop)
}

// The lines of all hops of a packet that is sent with this header.
fn put_hops(out: &mut Vec<u8>, f: &Fabric, sent: &Header, hops: &[Hop]) -> Result<(), NoMemory>
    requires { All (IsSoundHop f.now) hops.now }
    ensures { OnOk result (out.new.items ≡ out.old.items ++ hops_text f.now 1 sent.now hops.now) }
{
    let mut number = 1;
    let mut before = *sent;
    for hop in hops {
        put_hop_lines(out, f, number, &before, hop)?;
        before = hop.header;
        number += 1;
    }
    Ok(())
}

/// Appends the lines of a walk of a packet that is sent with this header: its hops, each with what decides there, and how it ends.
pub fn put_reasons(
    out: &mut Vec<u8>,
    f: &Fabric,
    sent: &Header,
    hops: &[Hop],
    outcome: &Outcome,
) -> Result<(), NoMemory>
    requires hops { All (IsSoundHop f.now) hops.now }
    requires end { EndsWell f.now outcome.now }
    ensures { OnOk result (out.new.items ≡ out.old.items ++ reasons_text f.now sent.now hops.now outcome.now) }
{
    put_hops(out, f, sent, hops)?;
    put_outcome(out, f.network(), outcome)
}
