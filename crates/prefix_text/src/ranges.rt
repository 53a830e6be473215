// Ranges of ports.
ghost use Rattle.std.specs.Prelude.{◌≡◌, ◌+◌, ◌≤◌, ◌++◌};
ghost use Rattle.arrayvec.specs.ArrayVec.{array_vec_len};
ghost use Rattle.prefix_text.specs.Range.{range_of, range_text};

use crate::buffers::append_port;
use crate::numbers::read_number;
use crate::parts::parted;
use arrayvec::ArrayVec;

/// The two ends of a range of ports that the text writes: two decimal numbers up to 65535 joined by
/// `-`. The first may be the greater one: such a range holds no port. `None` for any other text.
pub fn read_range(text: &[u8]) -> Option<(u16, u16)>
    ensures { result ≡ range_of text.now }
{
    let (first, last) = parted(text, b'-');
    let first = read_number(first, u64::from(u16::MAX))?;
    let last = read_number(last, u64::from(u16::MAX))?;
    Some((first as u16, last as u16))
}

/// Appends the two ends of a range of ports, joined by `-`, which takes eleven characters at most.
pub fn append_range<const N: usize>(buffer: &mut ArrayVec<u8, N>, range: (u16, u16))
    requires { array_vec_len buffer.old + 11 ≤ N }
    ensures items { buffer.new.items ≡ buffer.old.items ++ range_text range }
    ensures len { array_vec_len buffer.new ≤ array_vec_len buffer.old + 11 }
{
    append_port(buffer, range.0);
    buffer.push(b'-');
    append_port(buffer, range.1);
}
