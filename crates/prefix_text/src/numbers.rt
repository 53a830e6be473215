// Decimal numbers.
ghost use Rattle.std.specs.Prelude.{◌≡◌, ◌≤◌, ◌++◌, length, decimal, Some, None, if◌then◌else◌, IfSome, OnOk, OnErr};
ghost use Rattle.std.specs.Str.{all_ascii_digits};
ghost use Rattle.std.specs.Str.Parse.{digits_value};
ghost use Rattle.prefix_text.specs.Number.{number_of};

use crate::buffers::append;
use arrayvec::ArrayVec;
use itoa::Buffer;
use vpc_base::NoMemory;

// How many digits a number that is read may have.
const MAX_DIGITS: usize = 10;

// The value of digits, unless another byte stands among them.
fn digits(text: &[u8]) -> Option<u64>
    requires { length text.now ≤ MAX_DIGITS }
    ensures { result
        ≡ (if all_ascii_digits text.now then Some (digits_value 10 text.now) else None) }
{
    let mut n = 0u64;
    for c in text {
        if !c.is_ascii_digit() {
            return None;
        }
        n = n * 10 + u64::from(*c - b'0');
    }
    Some(n)
}

/// The number that a text writes: one to ten decimal digits, without a sign, a blank or a leading
/// zero (the project's profile). `None` for any other text, and past `max`. It takes no memory.
pub fn read_number(text: &[u8], max: u64) -> Option<u64>
    ensures value { result ≡ number_of text.now max }
    ensures within { IfSome result (λ n. n ≤ max) }
{
    if text.is_empty() || text.len() > MAX_DIGITS || (text.len() > 1 && text[0] == b'0') {
        return None;
    }
    let n = digits(text)?;
    if n <= max { Some(n) } else { None }
}

/// The number in decimal, without a leading zero. It takes no memory.
pub fn decimal_digits(n: u128) -> ArrayVec<u8, 39>
    ensures { result.items ≡ decimal n }
{
    let mut text = ArrayVec::new();
    append(&mut text, Buffer::new().format(n).as_bytes());
    text
}

/// Appends the number in decimal, without a leading zero. Where memory is refused, nothing is added.
pub fn put_number(out: &mut Vec<u8>, n: u128) -> Result<(), NoMemory>
    ensures ok { OnOk result (out.new.items ≡ out.old.items ++ decimal n) }
    ensures err { OnErr result (out.new.items ≡ out.old.items) }
{
    out.extend_from_slice(Buffer::new().format(n).as_bytes())?;
    Ok(())
}
