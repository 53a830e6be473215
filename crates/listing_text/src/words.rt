// The words that are repeated.
ghost use Rattle.std.specs.Prelude.{◌≡◌, ◌++◌, ◌≤◌, OnOk, length, map, string_bytes};
ghost use Rattle.std.specs.List.{flat_map};
ghost use Rattle.block_report.specs.Words.{word};
ghost use Rattle.listing_text.specs.Texts.{given_words, query_line};

use block_report::{put, put_end, put_word};
use query_words::word;
use vpc_base::NoMemory;

// The words after the first `before`, but for `max` and its number.
fn given_words(before: usize, words: &[String]) -> &[String]
    requires some { 2 ≤ before }
    requires counted { before ≤ length words.now }
    ensures { map string_bytes result.now ≡ given_words before (map string_bytes words.now) }
{
    let given = &words[before..];
    if word(words, words.len() - 1) == "max" {
        &given[..given.len().saturating_sub(2)]
    } else {
        given
    }
}

fn put_words(out: &mut Vec<u8>, words: &[String]) -> Result<(), NoMemory>
    ensures { OnOk result (out.new.items
        ≡ out.old.items ++ flat_map word (map string_bytes words.now)) }
{
    for text in words {
        put_word(out, text.as_bytes())?;
    }
    Ok(())
}

/// Appends the line of the query, which the words after the command and its files give.
pub fn put_query(out: &mut Vec<u8>, before: usize, words: &[String]) -> Result<(), NoMemory>
    requires some { 2 ≤ before }
    requires counted { before ≤ length words.now }
    ensures { OnOk result (out.new.items
        ≡ out.old.items ++ query_line before (map string_bytes words.now)) }
{
    put(out, b"query")?;
    put_words(out, given_words(before, words))?;
    put_end(out)
}
