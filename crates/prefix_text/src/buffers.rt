// Texts in buffers of a fixed length, which take no memory.
ghost use Rattle.std.specs.Prelude.{◌≡◌, ◌+◌, ◌/◌, ◌%◌, ◌<◌, ◌≤◌, ◌++◌, ◌∷◌, [], length, decimal};
ghost use Rattle.arrayvec.specs.ArrayVec.{array_vec_len};

use arrayvec::ArrayVec;
use itoa::Buffer;

/// Appends a text for which there is room.
pub fn append<const N: usize>(buffer: &mut ArrayVec<u8, N>, text: &[u8])
    requires { array_vec_len buffer.old + length text.now ≤ N }
    ensures items { buffer.new.items ≡ buffer.old.items ++ text.now }
    ensures len { array_vec_len buffer.new ≡ array_vec_len buffer.old + length text.now }
{
    let appended = buffer.try_extend_from_slice(text);
    prove!(appended.is_ok());
}

// Appends the last two digits of a number of two digits or more.
fn append_pair<const N: usize>(buffer: &mut ArrayVec<u8, N>, pair: u8)
    requires room { array_vec_len buffer.old + 2 ≤ N }
    requires pair { pair < 100 }
    ensures items { buffer.new.items ≡ buffer.old.items ++ ((48 + pair / 10) ∷ (48 + pair % 10) ∷ []) }
    ensures len { array_vec_len buffer.new ≡ array_vec_len buffer.old + 2 }
{
    buffer.push(b'0' + pair / 10);
    buffer.push(b'0' + pair % 10);
}

/// Appends a byte in decimal, which takes three digits at most.
pub fn append_octet<const N: usize>(buffer: &mut ArrayVec<u8, N>, octet: u8)
    requires { array_vec_len buffer.old + 3 ≤ N }
    ensures items { buffer.new.items ≡ buffer.old.items ++ decimal octet }
    ensures len { array_vec_len buffer.new ≤ array_vec_len buffer.old + 3 }
{
    if octet < 10 {
        buffer.push(b'0' + octet);
    } else if octet < 100 {
        append_pair(buffer, octet);
    } else {
        buffer.push(b'0' + octet / 100);
        append_pair(buffer, octet % 100);
    }
}

/// Appends a port in decimal, which takes five digits at most.
pub fn append_port<const N: usize>(buffer: &mut ArrayVec<u8, N>, port: u16)
    requires { array_vec_len buffer.old + 5 ≤ N }
    ensures items { buffer.new.items ≡ buffer.old.items ++ decimal port }
    ensures len { array_vec_len buffer.new ≤ array_vec_len buffer.old + 5 }
{
    append(buffer, Buffer::new().format(port).as_bytes());
}
