// Blocks of addresses.
ghost use Rattle.std.specs.Prelude.{◌≡◌, ◌≤◌, ◌<◌, ◌^◌, ◌%◌, ◌-◌, ◌++◌, OnOk, OnErr};
ghost use Rattle.prefix_text.specs.Block.{size_of, prefix_of, block_text};

use crate::addresses::{dotted_quad, read_addr};
use crate::buffers::append;
use crate::numbers::{decimal_digits, read_number};
use crate::parts::parted;
use arrayvec::ArrayVec;
use std::marker::Model;
use vpc_base::NoMemory;

/// A block of IPv4 addresses in CIDR notation. Its host bits are clear.
#[derive(Clone, Copy, Debug, PartialEq, Eq)]
pub struct Prefix {
    first: u32,
    length: u8,
}

impl Model for Prefix {
    ghost use Rattle.prefix_text.specs.Block.{Block, IsBlock};

    ghost Value = { Block };

    ghost view = { λ x. record { first = x.first; length = x.length } };

    ghost invariant = { λ x. IsBlock (record { first = x.first; length = x.length }) };

    ghost inverse = { λ b. record { first = b.first; length = b.length } };
}

fn size(length: u8) -> u64
    requires { length ≤ 32 }
    ensures value { result ≡ size_of length }
    ensures some { 0 < result }
    ensures fits { result ≤ 2 ^ 32 }
{
    1u64 << (32 - length)
}

impl Prefix {
    ghost use Rattle.prefix_text.specs.Block.{IsBlock, block_of, last_of, holds};

    /// The block of this length around an address, whose host bits are cleared.
    pub fn of(addr: u32, length: u8) -> Prefix
        requires { length ≤ 32 }
        ensures { result ≡ block_of addr length }
    {
        let host = u64::from(addr) % size(length);
        Prefix {
            first: addr - host as u32,
            length,
        }
    }

    /// The least address.
    pub fn first(&self) -> u32
        ensures value { result ≡ self.now.first }
        ensures block { IsBlock self.now }
    {
        self.first
    }

    /// The greatest address.
    pub fn last(&self) -> u32
        ensures { result ≡ last_of self.now }
    {
        self.first + (size(self.length) - 1) as u32
    }

    /// How many leading bits the addresses share, up to 32.
    pub fn length(&self) -> u8
        ensures value { result ≡ self.now.length }
        ensures short { result ≤ 32 }
    {
        self.length
    }

    /// Whether the address lies in the block.
    pub fn holds(&self, addr: u32) -> bool
        ensures { result ≡ holds addr self.now }
    {
        self.first <= addr && addr <= self.last()
    }
}

/// The prefix that a text writes in CIDR notation (RFC 4632): an address, `/` and a decimal number up
/// to 32. Host bits may be set and are cleared, as EC2's `CreateVpc` does with a block that it is
/// given. `None` for any other text. It takes no memory.
pub fn read_prefix(text: &[u8]) -> Option<Prefix>
    ensures { result ≡ prefix_of text.now }
{
    let (addr, length) = parted(text, b'/');
    let addr = read_addr(addr)?;
    let length = read_number(length, 32)?;
    Some(Prefix::of(addr, length as u8))
}

/// The prefix in CIDR notation. It takes no memory.
#[tactic(auto, using(crate::proofs::NumberLaws::two_digits))]
pub fn cidr_notation(prefix: &Prefix) -> ArrayVec<u8, 18>
    ensures { result.items ≡ block_text prefix.now }
{
    let mut text = ArrayVec::new();
    append(&mut text, dotted_quad(prefix.first()).as_slice());
    text.push(b'/');
    append(
        &mut text,
        decimal_digits(u128::from(prefix.length())).as_slice(),
    );
    text
}

/// Appends the prefix in CIDR notation. Where memory is refused, nothing is added.
pub fn put_prefix(out: &mut Vec<u8>, x: &Prefix) -> Result<(), NoMemory>
    ensures ok { OnOk result (out.new.items ≡ out.old.items ++ block_text x.now) }
    ensures err { OnErr result (out.new.items ≡ out.old.items) }
{
    out.extend_from_slice(cidr_notation(x).as_slice())?;
    Ok(())
}
