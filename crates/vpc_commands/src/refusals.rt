// Refusals of words and of descriptions.
ghost use Rattle.std.specs.Prelude.{◌≡◌, IfOk, false};
ghost use Rattle.block_report.specs.Refusals.{cause_text};
ghost use Rattle.bundle.specs.Meaning.{is_memory};
ghost use Rattle.vpc_commands.specs.Due.{words_text};
ghost use Rattle.vpc_commands.specs.Files.{refusal_line, refused_text};

use crate::files::Which;
use crate::words::WordsRefusal;
use block_report::{put, put_cause, put_end, put_number_word, put_word};
use bundle::BundleRefusal;
use command_job::{Answer, Status};
use std::alloc::Global;
use vpc_base::NoMemory;

/// Refuses the words of a command.
pub fn refuse_words(alloc: Global, refusal: WordsRefusal) -> Result<Answer, NoMemory>
    ensures { IfOk result (λ a. (a.status ≡ Status.Words) × (a.text.items ≡ words_text refusal)) }
{
    let mut text = Vec::new(alloc);
    put(&mut text, b"refused words")?;
    put_number_word(&mut text, u128::from(refusal.word))?;
    put_end(&mut text)?;
    Ok(Answer {
        status: Status::Words,
        text,
    })
}

fn refused_text(which: Which) -> &'static [u8]
    ensures { result.now ≡ refused_text which }
{
    match which {
        Which::First => b"refused description",
        Which::After => b"refused description after",
    }
}

/// Refuses a description for this cause.
pub fn refuse_description(alloc: Global, which: Which, cause: &[u8]) -> Result<Answer, NoMemory>
    ensures { IfOk result (λ a.
        (a.status ≡ Status.Description) × (a.text.items ≡ refusal_line which cause.now)) }
{
    let mut text = Vec::new(alloc);
    put(&mut text, refused_text(which))?;
    put_word(&mut text, cause)?;
    put_end(&mut text)?;
    Ok(Answer {
        status: Status::Description,
        text,
    })
}

/// Refuses a bundle for the first cause against it.
pub fn refuse_bundle(alloc: Global, which: Which, cause: &BundleRefusal) -> Result<Answer, NoMemory>
    ensures line { IfOk result (λ a.
        (a.status ≡ Status.Description) × (a.text.items ≡ refusal_line which (cause_text cause.now))) }
    ensures cause { IfOk result (λ a. is_memory cause.now ≡ false) }
{
    if cause.is_memory() {
        return Err(NoMemory);
    }
    let mut text = Vec::new(alloc);
    put_cause(&mut text, cause)?;
    refuse_description(alloc, which, text.as_slice())
}
