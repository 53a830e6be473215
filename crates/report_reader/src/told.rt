// What is told of a stop, from its words.
ghost use Rattle.std.specs.Prelude.{◌≡◌, IfOk};
ghost use Rattle.report_reader.specs.Stops.{id_of, ids_of, phase_of, told_by, told_of};

use block_report::name_spelled;
use std::alloc::Global;
use vpc_base::NoMemory;
use vpc_model::{Id, Phase, StopName, StopText};

fn phase_of(word: &[u8]) -> Option<Phase>
    ensures { result ≡ phase_of word.now }
{
    if word == b"request".as_slice() {
        Some(Phase::Request)
    } else if word == b"reply".as_slice() {
        Some(Phase::Reply)
    } else {
        None
    }
}

fn id_of(alloc: Global, word: &[u8]) -> Result<Option<Id>, NoMemory>
    ensures { IfOk result (λ id. id ≡ id_of word.now) }
{
    Id::of(alloc, word)
}

// The component and the rule.
fn read_ids(alloc: Global, id: &[u8], rule: &[u8]) -> Result<Option<(Id, Id)>, NoMemory>
    ensures { IfOk result (λ pair. pair ≡ ids_of id.now rule.now) }
{
    let Some(id) = id_of(alloc, id)? else {
        return Ok(None);
    };
    match id_of(alloc, rule)? {
        Some(rule) => Ok(Some((id, rule))),
        None => Ok(None),
    }
}

// What is told in a phase by a name.
fn read_told_by(
    alloc: Global,
    phase: Phase,
    name: StopName,
    id: &[u8],
    rule: &[u8],
) -> Result<Option<StopText>, NoMemory>
    ensures { IfOk result (λ told. told ≡ told_by phase name id.now rule.now) }
{
    match read_ids(alloc, id, rule)? {
        Some((id, rule)) => Ok(Some(StopText {
            phase,
            name,
            id,
            rule,
        })),
        None => Ok(None),
    }
}

/// What is told of a stop by the words of its phase, its name, its component and its rule.
pub fn read_told(
    alloc: Global,
    phase: &[u8],
    name: &[u8],
    id: &[u8],
    rule: &[u8],
) -> Result<Option<StopText>, NoMemory>
    ensures { IfOk result (λ told. told ≡ told_of phase.now name.now id.now rule.now) }
{
    match (phase_of(phase), name_spelled(name)) {
        (Some(phase), Some(name)) => read_told_by(alloc, phase, name, id, rule),
        _ => Ok(None),
    }
}
