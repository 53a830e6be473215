// The words of printed lines.
ghost use Rattle.std.specs.Prelude.{◌≡◌, ◌++◌, OnOk, decimal};
ghost use Rattle.prefix_text.specs.Addr.{addr_text};
ghost use Rattle.block_report.specs.Words.{header_line, header_text, line_end, number_line, proto_text, word};

use prefix_text::{put_addr, put_number};
use vpc_base::{Header, NoMemory};

/// Appends a text.
pub fn put(out: &mut Vec<u8>, text: &[u8]) -> Result<(), NoMemory>
    ensures { OnOk result (out.new.items ≡ out.old.items ++ text.now) }
{
    out.extend_from_slice(text)?;
    Ok(())
}

/// Appends a blank and a text.
pub fn put_word(out: &mut Vec<u8>, text: &[u8]) -> Result<(), NoMemory>
    ensures { OnOk result (out.new.items ≡ out.old.items ++ word text.now) }
{
    put(out, b" ")?;
    put(out, text)
}

/// Appends a blank and a number.
pub fn put_number_word(out: &mut Vec<u8>, n: u128) -> Result<(), NoMemory>
    ensures { OnOk result (out.new.items ≡ out.old.items ++ word (decimal n)) }
{
    put(out, b" ")?;
    put_number(out, n)
}

/// Appends a blank and an address.
pub fn put_addr_word(out: &mut Vec<u8>, a: u32) -> Result<(), NoMemory>
    ensures { OnOk result (out.new.items ≡ out.old.items ++ word (addr_text a)) }
{
    put(out, b" ")?;
    put_addr(out, a)
}

/// Ends the line.
pub fn put_end(out: &mut Vec<u8>) -> Result<(), NoMemory>
    ensures { OnOk result (out.new.items ≡ out.old.items ++ line_end) }
{
    put(out, b"\n")
}

fn put_proto(out: &mut Vec<u8>, proto: u8) -> Result<(), NoMemory>
    ensures { OnOk result (out.new.items ≡ out.old.items ++ proto_text proto) }
{
    match proto {
        1 => put(out, b"icmp"),
        6 => put(out, b"tcp"),
        17 => put(out, b"udp"),
        n => put_number(out, u128::from(n)),
    }
}

/// Appends a header: protocol, source, destination, p and q.
pub fn put_header(out: &mut Vec<u8>, h: &Header) -> Result<(), NoMemory>
    ensures { OnOk result (out.new.items ≡ out.old.items ++ header_text h.now) }
{
    put_proto(out, h.proto)?;
    put_addr_word(out, h.src)?;
    put_addr_word(out, h.dst)?;
    put_number_word(out, u128::from(h.p))?;
    put_number_word(out, u128::from(h.q))
}

/// Appends a blank and a header.
pub fn put_header_word(out: &mut Vec<u8>, h: &Header) -> Result<(), NoMemory>
    ensures { OnOk result (out.new.items ≡ out.old.items ++ word (header_text h.now)) }
{
    put(out, b" ")?;
    put_header(out, h)
}

/// Appends a line.
pub fn put_line(out: &mut Vec<u8>, text: &[u8]) -> Result<(), NoMemory>
    ensures { OnOk result (out.new.items ≡ out.old.items ++ (text.now ++ line_end)) }
{
    put(out, text)?;
    put_end(out)
}

/// Appends a line of a name and a number.
pub fn put_number_line(out: &mut Vec<u8>, name: &[u8], number: u128) -> Result<(), NoMemory>
    ensures { OnOk result (out.new.items ≡ out.old.items ++ number_line name.now number) }
{
    put(out, name)?;
    put_number_word(out, number)?;
    put_end(out)
}

/// Appends a line of a name and a header.
pub fn put_header_line(out: &mut Vec<u8>, name: &[u8], h: &Header) -> Result<(), NoMemory>
    ensures { OnOk result (out.new.items ≡ out.old.items ++ header_line name.now h.now) }
{
    put(out, name)?;
    put_header_word(out, h)?;
    put_end(out)
}
