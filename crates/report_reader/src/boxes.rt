// Boxes from five words.
ghost use Rattle.std.specs.Prelude.{◌≡◌, ◌≤◌, ◌<◌, ◌==◌, IfSome, Some, length, position};
ghost use Rattle.std.specs.List.{after_first, before_first};
ghost use Rattle.header_boxes.specs.Boxes.{IsValid};
ghost use Rattle.prefix_text.specs.Addr.{addr_of};
ghost use Rattle.report_reader.specs.Boxes.{addresses_of, box_of, is_inside, lies_in, ports_of, protos_of};

use header_boxes::Box5;
use prefix_text::{read_addr, read_range};

fn place_of_dash(text: &[u8]) -> Option<usize>
    ensures value { result ≡ position (λ c. c == 45) text.now }
    ensures within { IfSome result (λ at. at < length text.now) }
{
    text.iter().position(|c| *c == b'-')
}

// What stands before the first dash and what after it: all and nothing where there is none.
fn parted(text: &[u8]) -> (&[u8], &[u8])
    ensures before { result.0.now ≡ before_first (λ c. c == 45) text.now }
    ensures after { result.1.now ≡ after_first (λ c. c == 45) text.now }
{
    match place_of_dash(text) {
        Some(at) => (&text[..at], &text[at + 1..]),
        None => (text, &[]),
    }
}

// The address that a text writes, where that of another is known.
fn read_after(known: &[u8], addr: u32, text: &[u8]) -> Option<u32>
    requires { addr_of known.now ≡ Some addr }
    ensures { result ≡ addr_of text.now }
{
    if text == known {
        Some(addr)
    } else {
        read_addr(text)
    }
}

fn read_addresses(text: &[u8]) -> Option<(u32, u32)>
    ensures value { result ≡ addresses_of text.now }
    ensures valid { IfSome result (λ r. r.0 ≤ r.1) }
{
    let (before, after) = parted(text);
    let first = read_addr(before)?;
    let last = read_after(before, first, after)?;
    if first <= last {
        Some((first, last))
    } else {
        None
    }
}

fn read_ports(text: &[u8]) -> Option<(u16, u16)>
    ensures value { result ≡ ports_of text.now }
    ensures valid { IfSome result (λ r. r.0 ≤ r.1) }
{
    let (first, last) = read_range(text)?;
    if first <= last {
        Some((first, last))
    } else {
        None
    }
}

fn read_protos(text: &[u8]) -> Option<(u8, u8)>
    ensures value { result ≡ protos_of text.now }
    ensures valid { IfSome result (λ r. r.0 ≤ r.1) }
{
    let (first, last) = read_ports(text)?;
    if last <= 255 {
        Some((first as u8, last as u8))
    } else {
        None
    }
}

/// The box of five words: protocols, sources, destinations, p and q, each a range that isn't empty.
pub fn read_box(proto: &[u8], src: &[u8], dst: &[u8], p: &[u8], q: &[u8]) -> Option<Box5>
    ensures value { result ≡ box_of proto.now src.now dst.now p.now q.now }
    ensures valid { IfSome result IsValid }
{
    Some(Box5 {
        proto: read_protos(proto)?,
        src: read_addresses(src)?,
        dst: read_addresses(dst)?,
        p: read_ports(p)?,
        q: read_ports(q)?,
    })
}

fn lies_in(part: (u32, u32), whole: (u32, u32)) -> bool
    ensures { result ≡ lies_in part whole }
{
    whole.0 <= part.0 && part.1 <= whole.1
}

fn lies_in_ports(part: (u16, u16), whole: (u16, u16)) -> bool
    ensures { result ≡ lies_in part whole }
{
    whole.0 <= part.0 && part.1 <= whole.1
}

fn lies_in_protos(part: (u8, u8), whole: (u8, u8)) -> bool
    ensures { result ≡ lies_in part whole }
{
    whole.0 <= part.0 && part.1 <= whole.1
}

/// Whether each range of the box lies in that of the other.
pub fn is_inside(part: &Box5, whole: &Box5) -> bool
    ensures { result ≡ is_inside part.now whole.now }
{
    lies_in_protos(part.proto, whole.proto)
        && (lies_in(part.src, whole.src)
            && (lies_in(part.dst, whole.dst)
                && (lies_in_ports(part.p, whole.p) && lies_in_ports(part.q, whole.q))))
}
