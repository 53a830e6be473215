// The lines of a matrix.
ghost use Rattle.std.specs.List.{flat_map};
ghost use Rattle.std.specs.Prelude.{◌≡◌, ◌≤◌, ◌∷◌, ◌++◌, [], All, OnOk, IsTrue};
ghost use Rattle.vpc_model.specs.Sound.{is_eni};
ghost use Rattle.reach_matrix.specs.Pairs.{have_addresses};
ghost use Rattle.reach_matrix.specs.Matrix.{Adds, AreTexts, IsPairLine, IsTold, names_text, pairs_from, pairs_of, range_word, ranges_text};

use crate::pairs::{has_primary, reach_by};
use block_report::{put, put_end, put_word};
use box_walk::RoundProbe;
use fabric::Fabric;
use fabric::rows::interface_at;
use prefix_text::put_number;
use vpc_base::NoMemory;
use vpc_model::EniNo;

fn put_range(out: &mut Vec<u8>, range: (u16, u16)) -> Result<(), NoMemory>
    ensures { OnOk result (out.new.items ≡ out.old.items ++ range_word range) }
{
    put(out, b" ")?;
    put_number(out, u128::from(range.0))?;
    put(out, b"-")?;
    put_number(out, u128::from(range.1))
}

fn put_each(out: &mut Vec<u8>, ranges: &[(u16, u16)]) -> Result<(), NoMemory>
    ensures { OnOk result (out.new.items ≡ out.old.items ++ flat_map range_word ranges.now) }
{
    for range in ranges {
        put_range(out, *range)?;
    }
    Ok(())
}

fn put_ranges(out: &mut Vec<u8>, ranges: &[(u16, u16)]) -> Result<(), NoMemory>
    ensures { OnOk result (out.new.items ≡ out.old.items ++ ranges_text ranges.now) }
{
    match ranges {
        [] => put_word(out, b"blocked"),
        _ => {
            put_word(out, b"open")?;
            put_each(out, ranges)
        }
    }
}

fn have_addresses(f: &Fabric, from: EniNo, to: EniNo) -> bool
    requires from { IsTrue (is_eni f.now from) }
    requires to { IsTrue (is_eni f.now to) }
    ensures { result ≡ have_addresses f.now (from, to) }
{
    has_primary(f, from) && has_primary(f, to)
}

// What is told of a pair.
fn put_told(
    out: &mut Vec<u8>,
    f: &Fabric,
    round: &mut RoundProbe,
    ports: (u16, u16),
    from: EniNo,
    to: EniNo,
) -> Result<(), NoMemory>
    requires network { round.old.fabric.now ≡ f.now }
    requires ports { ports.0 ≤ ports.1 }
    requires from { IsTrue (is_eni f.now from) }
    requires to { IsTrue (is_eni f.now to) }
    ensures text { OnOk result (Adds (IsTold f.now ports (from, to)) out.old.items out.new.items) }
    ensures network { round.new.fabric.now ≡ f.now }
{
    if !have_addresses(f, from, to) {
        return put_word(out, b"no-address");
    }
    let ranges = reach_by(*out.allocator(), f, round, from, to, ports)?;
    put_ranges(out, ranges.as_slice())
}

fn put_names(out: &mut Vec<u8>, f: &Fabric, from: EniNo, to: EniNo) -> Result<(), NoMemory>
    requires from { IsTrue (is_eni f.now from) }
    requires to { IsTrue (is_eni f.now to) }
    ensures { OnOk result (out.new.items ≡ out.old.items ++ names_text f.now (from, to)) }
{
    put(out, b"pair")?;
    put_word(out, interface_at(f, from).id.bytes())?;
    put_word(out, interface_at(f, to).id.bytes())
}

// The line of a pair, unless it is an interface with itself.
fn put_pair(
    out: &mut Vec<u8>,
    f: &Fabric,
    round: &mut RoundProbe,
    ports: (u16, u16),
    from: EniNo,
    to: EniNo,
) -> Result<(), NoMemory>
    requires network { round.old.fabric.now ≡ f.now }
    requires ports { ports.0 ≤ ports.1 }
    requires from { IsTrue (is_eni f.now from) }
    requires to { IsTrue (is_eni f.now to) }
    ensures text { OnOk result (Adds
        (AreTexts (IsPairLine f.now ports) (pairs_from (to ∷ []) from)) out.old.items out.new.items) }
    ensures network { round.new.fabric.now ≡ f.now }
{
    if to.0 == from.0 {
        return Ok(());
    }
    put_names(out, f, from, to)?;
    put_told(out, f, round, ports, from, to)?;
    put_end(out)
}

// The lines of an interface with each of the others.
fn put_row(
    out: &mut Vec<u8>,
    f: &Fabric,
    round: &mut RoundProbe,
    ports: (u16, u16),
    from: EniNo,
    hosts: &[EniNo],
) -> Result<(), NoMemory>
    requires network { round.old.fabric.now ≡ f.now }
    requires ports { ports.0 ≤ ports.1 }
    requires from { IsTrue (is_eni f.now from) }
    requires hosts { All (λ i. IsTrue (is_eni f.now i)) hosts.now }
    ensures text { OnOk result (Adds
        (AreTexts (IsPairLine f.now ports) (pairs_from hosts.now from)) out.old.items out.new.items) }
    ensures network { round.new.fabric.now ≡ f.now }
{
    for to in hosts {
        put_pair(out, f, round, ports, from, *to)?;
    }
    Ok(())
}

/// The lines of each host with each of the others.
pub(crate) fn put_rows(
    out: &mut Vec<u8>,
    f: &Fabric,
    round: &mut RoundProbe,
    ports: (u16, u16),
    hosts: &[EniNo],
) -> Result<(), NoMemory>
    requires network { round.old.fabric.now ≡ f.now }
    requires ports { ports.0 ≤ ports.1 }
    requires hosts { All (λ i. IsTrue (is_eni f.now i)) hosts.now }
    ensures text { OnOk result (Adds
        (AreTexts (IsPairLine f.now ports) (pairs_of hosts.now)) out.old.items out.new.items) }
    ensures network { round.new.fabric.now ≡ f.now }
{
    for from in hosts {
        put_row(out, f, round, ports, *from, hosts)?;
    }
    Ok(())
}
