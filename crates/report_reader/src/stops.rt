// What is told of a stop, compared with a text.
ghost use Rattle.std.specs.Prelude.{◌≡◌, ◌↔◌, IsTrue, bytes_eq, codes};
ghost use Rattle.prefix_text.specs.Block.{block_text};
ghost use Rattle.vpc_model.specs.Sound.{has_text};
ghost use Rattle.vpc_model.specs.Told.{name_of, stop_id, stop_rule, told_stop};

use crate::words::is_number;
use block_report::{RuleWord, access_text, rule_of, stop_id};
use prefix_text::{Prefix, cidr_notation};
use reference_check::Network;
use vpc_model::{Phase, Stop, StopName, StopText};

fn is_name(a: StopName, b: StopName) -> bool
    ensures { IsTrue result ↔ (a ≡ b) }
{
    a == b
}

fn is_block(text: &[u8], block: &Prefix) -> bool
    ensures { result ≡ bytes_eq text.now (block_text block.now) }
{
    text == cidr_notation(block).as_slice()
}

fn is_dash(text: &[u8]) -> bool
    ensures { result ≡ bytes_eq text.now (codes "-") }
{
    text == b"-".as_slice()
}

/// Whether a text is the rule of a stop, or a dash where it has none. It takes no memory.
pub fn is_rule(n: &Network, text: &[u8], s: &Stop) -> bool
    requires { IsTrue (has_text n.now s.now) }
    ensures { result ≡ bytes_eq text.now (stop_rule n.now s.now) }
{
    match rule_of(n, s) {
        RuleWord::Row(number) => is_number(text, u64::from(number)),
        RuleWord::Block(block) => is_block(text, block),
        RuleWord::List(id) => text == id.bytes(),
        RuleWord::Access(access) => text == access_text(access),
        RuleWord::None => is_dash(text),
    }
}

fn is_component(n: &Network, text: &[u8], s: &Stop) -> bool
    requires { IsTrue (has_text n.now s.now) }
    ensures { result ≡ bytes_eq text.now (stop_id n.now s.now) }
{
    text == stop_id(n, s)
}

/// Whether a text is what is told of a stop in a phase. It takes no memory. Rules compare as they are
/// spelled: a prefix whose host bits are set is another text.
pub fn same_text(n: &Network, text: &StopText, phase: Phase, s: &Stop) -> bool
    requires { IsTrue (has_text n.now s.now) }
    ensures { IsTrue result ↔ (text.now ≡ told_stop n.now phase s.now) }
{
    text.phase == phase
        && is_name(text.name, s.name())
        && is_component(n, text.id.bytes(), s)
        && is_rule(n, text.rule.bytes(), s)
}
