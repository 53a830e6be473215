// Prints why words give no query or packet.
ghost use Rattle.std.specs.Prelude.{◌≡◌, ◌++◌, OnOk, decimal};
ghost use Rattle.block_report.specs.Queries.{query_refusal_text};
ghost use Rattle.block_report.specs.Words.{word};

use crate::{put, put_number_word, put_word};
use query_words::QueryRefusal;
use vpc_base::NoMemory;

// A name with the number of a word.
fn put_numbered(out: &mut Vec<u8>, name: &[u8], number: u64) -> Result<(), NoMemory>
    ensures { OnOk result (out.new.items ≡ out.old.items ++ (name.now ++ word (decimal number))) }
{
    put(out, name)?;
    put_number_word(out, u128::from(number))
}

// A name with the id of a row.
fn put_named(out: &mut Vec<u8>, name: &[u8], id: &[u8]) -> Result<(), NoMemory>
    ensures { OnOk result (out.new.items ≡ out.old.items ++ (name.now ++ word id.now)) }
{
    put(out, name)?;
    put_word(out, id)
}

/// Appends the first cause against the words of a query or a packet, with its argument.
pub fn put_query_refusal(out: &mut Vec<u8>, cause: &QueryRefusal) -> Result<(), NoMemory>
    ensures { OnOk result (out.new.items ≡ out.old.items ++ query_refusal_text cause.now) }
{
    match cause {
        QueryRefusal::BadWord(number) => put_numbered(out, b"BadWord", *number),
        QueryRefusal::UnknownId(number) => put_numbered(out, b"UnknownId", *number),
        QueryRefusal::NotAnEnd(id) => put_named(out, b"NotAnEnd", id.bytes()),
        QueryRefusal::NotAStart(number) => put_numbered(out, b"NotAStart", *number),
        QueryRefusal::BothInternet => put(out, b"BothInternet"),
        QueryRefusal::EmptyRange(number) => put_numbered(out, b"EmptyRange", *number),
        QueryRefusal::MaxOutOfRange => put(out, b"MaxOutOfRange"),
        QueryRefusal::NoAddress(id) => put_named(out, b"NoAddress", id.bytes()),
        QueryRefusal::Memory => put(out, b"want of memory"),
    }
}
