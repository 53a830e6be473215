// Answers of one line.
ghost use Rattle.std.specs.Prelude.{◌≡◌, ◌≢◌, IfOk, decimal};
ghost use Rattle.query_words.specs.declared.refusal.QueryRefusal.TheVariants as refusals;
ghost use Rattle.command_job.specs.Lines.{file_refusal_line, line, query_refusal_line};

use crate::status::{Answer, Status};
use block_report::{put, put_end, put_number_word, put_query_refusal, put_word};
use query_words::QueryRefusal;
use std::alloc::Global;
use vpc_base::NoMemory;

/// An answer of this line.
pub fn answer_line(alloc: Global, status: Status, text: &[u8]) -> Result<Answer, NoMemory>
    ensures { IfOk result (λ a. (a.status ≡ status) × (a.text.items ≡ line text.now)) }
{
    let mut all = Vec::new(alloc);
    put(&mut all, text)?;
    put_end(&mut all)?;
    Ok(Answer { status, text: all })
}

/// Refuses the words of a query for the first cause against them.
pub fn refuse_query(alloc: Global, refusal: &QueryRefusal) -> Result<Answer, NoMemory>
    ensures line { IfOk result (λ a.
        (a.status ≡ Status.Query) × (a.text.items ≡ query_refusal_line refusal.now)) }
    ensures cause { IfOk result (λ a. refusal.now ≢ refusals.Memory) }
{
    if let QueryRefusal::Memory = refusal {
        return Err(NoMemory);
    }
    let mut text = Vec::new(alloc);
    put(&mut text, b"refused query ")?;
    put_query_refusal(&mut text, refusal)?;
    put_end(&mut text)?;
    Ok(Answer {
        status: Status::Query,
        text,
    })
}

/// Refuses a second file, as one of `events`, for this cause.
pub fn refuse_file(alloc: Global, name: &[u8], cause: &[u8]) -> Result<Answer, NoMemory>
    ensures { IfOk result (λ a.
        (a.status ≡ Status.Query) × (a.text.items ≡ file_refusal_line name.now cause.now)) }
{
    let mut text = Vec::new(alloc);
    put(&mut text, b"refused")?;
    put_word(&mut text, name)?;
    put_word(&mut text, cause)?;
    put_end(&mut text)?;
    Ok(Answer {
        status: Status::Query,
        text,
    })
}

/// Refuses a second file for its first line that is outside its grammar, by the line's number, from 1.
pub fn refuse_line(alloc: Global, name: &[u8], number: u64) -> Result<Answer, NoMemory>
    ensures { IfOk result (λ a.
        (a.status ≡ Status.Query) × (a.text.items ≡ file_refusal_line name.now (decimal number))) }
{
    let mut text = Vec::new(alloc);
    put(&mut text, b"refused")?;
    put_word(&mut text, name)?;
    put_number_word(&mut text, u128::from(number))?;
    put_end(&mut text)?;
    Ok(Answer {
        status: Status::Query,
        text,
    })
}
