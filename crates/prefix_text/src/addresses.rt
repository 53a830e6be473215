// IPv4 addresses, as numbers whose high byte is written first.
ghost use Rattle.std.specs.Prelude.{◌≡◌, ◌+◌, ◌≤◌, ◌++◌, OnOk, OnErr, codes, decimal};
ghost use Rattle.arrayvec.specs.ArrayVec.{array_vec_len};
ghost use Rattle.prefix_text.specs.Addr.{addr_of, addr_text};

use crate::buffers::append_octet;
use arrayvec::ArrayVec;
use std::net::Ipv4Addr;
use vpc_base::NoMemory;

/// The address that a text writes in dotted decimal notation: four numbers up to 255 joined by dots,
/// each without a leading zero. `None` for any other text. It takes no memory.
#[tactic(auto, using(crate::proofs::AddrLaws::parsed_addresses))]
pub fn read_addr(text: &[u8]) -> Option<u32>
    ensures { result ≡ addr_of text.now }
{
    Ipv4Addr::parse_ascii(text).ok().map(Ipv4Addr::to_bits)
}

// Appends a byte in decimal and a dot.
fn append_part<const N: usize>(buffer: &mut ArrayVec<u8, N>, octet: u8)
    requires { array_vec_len buffer.old + 4 ≤ N }
    ensures items { buffer.new.items ≡ buffer.old.items ++ (decimal octet ++ codes ".") }
    ensures len { array_vec_len buffer.new ≤ array_vec_len buffer.old + 4 }
{
    append_octet(buffer, octet);
    buffer.push(b'.');
}

/// Appends the address in dotted decimal notation, which takes fifteen characters at most.
pub fn append_addr<const N: usize>(buffer: &mut ArrayVec<u8, N>, addr: u32)
    requires { array_vec_len buffer.old + 15 ≤ N }
    ensures items { buffer.new.items ≡ buffer.old.items ++ addr_text addr }
    ensures len { array_vec_len buffer.new ≤ array_vec_len buffer.old + 15 }
{
    append_part(buffer, (addr / (1 << 24)) as u8);
    append_part(buffer, (addr / (1 << 16) % 256) as u8);
    append_part(buffer, (addr / (1 << 8) % 256) as u8);
    append_octet(buffer, (addr % 256) as u8);
}

/// The address in dotted decimal notation. It takes no memory.
pub fn dotted_quad(addr: u32) -> ArrayVec<u8, 15>
    ensures { result.items ≡ addr_text addr }
{
    let mut text = ArrayVec::new();
    append_addr(&mut text, addr);
    text
}

/// Appends the address in dotted decimal notation. Where memory is refused, nothing is added.
pub fn put_addr(out: &mut Vec<u8>, a: u32) -> Result<(), NoMemory>
    ensures ok { OnOk result (out.new.items ≡ out.old.items ++ addr_text a) }
    ensures err { OnErr result (out.new.items ≡ out.old.items) }
{
    out.extend_from_slice(dotted_quad(a).as_slice())?;
    Ok(())
}
