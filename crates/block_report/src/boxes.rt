// Boxes as text, made in a buffer of fixed length.
ghost use Rattle.std.specs.Prelude.{◌≡◌, ◌+◌, ◌≤◌, ◌++◌, OnOk};
ghost use Rattle.arrayvec.specs.ArrayVec.{array_vec_len};
ghost use Rattle.block_report.specs.Reports.{addresses_text, box_text};
ghost use Rattle.block_report.specs.Words.{word};
ghost use Rattle.prefix_text.specs.Range.{range_text};

use crate::words::put_word;
use arrayvec::ArrayVec;
use header_boxes::Box5;
use prefix_text::{append_addr, append_range};
use vpc_base::NoMemory;

// Two ranges of ports and one of protocols take eleven characters each at most, two of addresses 31, and there are four blanks.
const LONGEST: usize = 99;

fn append_ports<const N: usize>(text: &mut ArrayVec<u8, N>, ports: (u16, u16))
    requires { array_vec_len text.old + 12 ≤ N }
    ensures items { text.new.items ≡ text.old.items ++ word (range_text ports) }
    ensures len { array_vec_len text.new ≤ array_vec_len text.old + 12 }
{
    text.push(b' ');
    append_range(text, ports);
}

fn append_addresses<const N: usize>(text: &mut ArrayVec<u8, N>, addresses: (u32, u32))
    requires { array_vec_len text.old + 32 ≤ N }
    ensures items { text.new.items ≡ text.old.items ++ word (addresses_text addresses) }
    ensures len { array_vec_len text.new ≤ array_vec_len text.old + 32 }
{
    text.push(b' ');
    append_addr(text, addresses.0);
    text.push(b'-');
    append_addr(text, addresses.1);
}

fn box_bytes(b: &Box5) -> ArrayVec<u8, LONGEST>
    ensures { result.items ≡ box_text b.now }
{
    let mut text = ArrayVec::new();
    append_range(&mut text, (u16::from(b.proto.0), u16::from(b.proto.1)));
    append_addresses(&mut text, b.src);
    append_addresses(&mut text, b.dst);
    append_ports(&mut text, b.p);
    append_ports(&mut text, b.q);
    text
}

/// Appends a blank and a box: five ranges.
pub fn put_box_word(out: &mut Vec<u8>, b: &Box5) -> Result<(), NoMemory>
    ensures { OnOk result (out.new.items ≡ out.old.items ++ word (box_text b.now)) }
{
    put_word(out, box_bytes(b).as_slice())
}
