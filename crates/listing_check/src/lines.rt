// The first two lines of a listing: what it is, and the question that it answers.
ghost use Rattle.std.specs.Prelude.{[], ◌≡◌, ◌≢◌, IfNone, IfOk, IfSome, None, Some, bytes_eq, codes, decimal, drop, map, slice_index_or, take};
ghost use Rattle.query_words.specs.Events.{words_of};
ghost use Rattle.query_words.specs.declared.refusal.QueryRefusal.TheVariants as refusals;
ghost use Rattle.report_check.specs.Certified.{report_refusal_line};
ghost use Rattle.report_reader.specs.Boxes.{word_at};
ghost use Rattle.report_reader.specs.Reports.{lines_of, pieces_of};
ghost use Rattle.listing_check.specs.Lines.{all_lines, are_question, begins_with, end_with_max, query_words, question_words};

use command_job::{Answer, Status};
use query_words::QueryRefusal;
use report_check::refuse_fault;
use report_reader::ReportFault;
use std::alloc::{AllocError, Global};
use vpc_base::NoMemory;

// ---- the first line

// What stands between newlines, up to the second of them: enough to tell the first line.
fn two_pieces(alloc: Global, text: &[u8]) -> Result<Vec<&[u8]>, AllocError>
    ensures { IfOk result (λ v. map (λ l. l.now) v.items ≡ take 2 (pieces_of text.now)) }
{
    text.split(|c| *c == b'\n').take(2).collect(alloc)
}

// The first line, which ends where another piece follows; an empty one where there is none.
fn first_line<'a>(pieces: &[&'a [u8]]) -> &'a [u8]
    ensures { result.now ≡ slice_index_or (lines_of (map (λ l. l.now) pieces.now)) 0 [] }
{
    if pieces.len() < 2 { &[] } else { pieces[0] }
}

/// Whether the first line of a text is this one. The rest of the text isn't read.
pub fn begins_with(alloc: Global, tag: &[u8], text: &[u8]) -> Result<bool, NoMemory>
    ensures { IfOk result (λ b. b ≡ begins_with tag.now (all_lines text.now)) }
{
    let pieces = two_pieces(alloc, text)?;
    Ok(first_line(pieces.as_slice()) == tag)
}

// ---- the question

fn words_of(alloc: Global, line: &[u8]) -> Result<Vec<&[u8]>, AllocError>
    ensures { IfOk result (λ v. map (λ w. w.now) v.items ≡ words_of line.now) }
{
    line.split(|c| *c == b' ').collect(alloc)
}

fn begin_with_query(words: &[&[u8]]) -> bool
    ensures { result ≡ bytes_eq (word_at (map (λ w. w.now) words.now) 0) (codes "query") }
{
    match words {
        [first, ..] => *first == b"query".as_slice(),
        [] => false,
    }
}

fn end_with_max(words: &[&[u8]]) -> bool
    ensures { result ≡ end_with_max (map (λ w. w.now) words.now) }
{
    words.len() >= 2 && words[words.len() - 2] == b"max".as_slice()
}

fn are_question(words: &[&[u8]]) -> bool
    ensures { result ≡ are_question (map (λ w. w.now) words.now) }
{
    begin_with_query(words) && !end_with_max(words)
}

fn query_words(alloc: Global, line: &[u8]) -> Result<Option<Vec<&[u8]>>, NoMemory>
    ensures words { IfOk result (λ o. IfSome o
        (λ v. query_words line.now ≡ Some (map (λ w. w.now) v.items))) }
    ensures none { IfOk result (λ o. IfNone o (query_words line.now ≡ None)) }
{
    let words = words_of(alloc, line)?;
    if are_question(words.as_slice()) {
        Ok(Some(words))
    } else {
        Ok(None)
    }
}

/// The words of the second line, where it is `query` with the words that a command had after its files, but for `max N`.
pub fn question_words<'a>(
    alloc: Global,
    lines: &[&'a [u8]],
) -> Result<Option<Vec<&'a [u8]>>, NoMemory>
    ensures words { IfOk result (λ o. IfSome o (λ v.
        question_words (map (λ l. l.now) lines.now) ≡ Some (map (λ w. w.now) v.items))) }
    ensures none { IfOk result (λ o. IfNone o (question_words (map (λ l. l.now) lines.now) ≡ None)) }
{
    match lines.get(1) {
        Some(line) => query_words(alloc, line),
        None => Ok(None),
    }
}

/// Want of memory is no answer; any other refusal says that the words are no question.
pub fn unless_memory(refusal: &QueryRefusal) -> Result<(), NoMemory>
    ensures { IfOk result (λ u. refusal.now ≢ refusals.Memory) }
{
    match refusal {
        QueryRefusal::Memory => Err(NoMemory),
        QueryRefusal::BadWord(_)
        | QueryRefusal::UnknownId(_)
        | QueryRefusal::NotAnEnd(_)
        | QueryRefusal::NotAStart(_)
        | QueryRefusal::BothInternet
        | QueryRefusal::EmptyRange(_)
        | QueryRefusal::MaxOutOfRange
        | QueryRefusal::NoAddress(_) => Ok(()),
    }
}

// ---- what follows

/// The lines after the first two.
pub fn later_lines<'a, 'b>(lines: &'a [&'b [u8]]) -> &'a [&'b [u8]]
    ensures { result.now ≡ drop 2 lines.now }
{
    if lines.len() < 2 { &[] } else { &lines[2..] }
}

/// Refuses a listing for the line with this number, from 1.
pub fn refuse_line(alloc: Global, number: u64) -> Result<Answer, NoMemory>
    ensures { IfOk result (λ a. (a.status ≡ Status.Query)
        × (a.text.items ≡ report_refusal_line (decimal number))) }
{
    refuse_fault(alloc, ReportFault::BadLine(number))
}
