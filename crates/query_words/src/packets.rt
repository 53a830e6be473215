// The words of a packet.
ghost use Rattle.std.specs.Prelude.{◌≡◌, IfOk, IsTrue, length, map, string_bytes};
ghost use Rattle.vpc_model.specs.Place.{start_of};
ghost use Rattle.vpc_model.specs.Sound.{is_sound};
ghost use Rattle.query_words.specs.Packet.{header_of, packet_of};
ghost use Rattle.query_words.specs.Refusal.{Answers};

use crate::QueryRefusal;
use crate::ends::read_end;
use crate::words::{
    CommandWords, NumberedWords, expect_word, read_address, read_label, read_port, read_proto,
};
use reference_check::Network;
use std::alloc::Global;
use vpc_base::Header;
use vpc_model::Event;

fn read_header<W: NumberedWords>(words: &W) -> Result<Header, QueryRefusal>
    requires { length (W.words words.now) ≡ 10 }
    ensures { result ≡ header_of (W.words words.now) }
{
    let proto = read_proto(words, 6)?;
    let src = read_address(words, 7)?;
    let dst = read_address(words, 8)?;
    let p = read_port(words, 9, proto)?;
    let q = read_port(words, 10, proto)?;
    Ok(Header {
        proto,
        src,
        dst,
        p,
        q,
    })
}

/// The packet that ten words give, counted as those of `trace`.
pub(crate) fn read_event<W: NumberedWords>(
    alloc: Global,
    n: &Network,
    words: &W,
) -> Result<Event, QueryRefusal>
    requires { length (W.words words.now) ≡ 10 }
    ensures answer { Answers (packet_of n.now (W.words words.now)) result }
    ensures described { IfOk result (λ e. IsTrue (is_sound n.now (start_of e.start))) }
{
    let label = read_label(words, 3)?;
    expect_word(words, 4, b"from")?;
    let start = read_end(alloc, n, words, 5)?;
    let header = read_header(words)?;
    Ok(Event {
        label,
        start,
        header,
    })
}

/// The packet that the words of `trace FILE LABEL from END PROTO SRC DST P Q` give, with the end where it
/// starts.
pub fn read_packet(alloc: Global, n: &Network, words: &[String]) -> Result<Event, QueryRefusal>
    requires { length words.now ≡ 10 }
    ensures answer { Answers (packet_of n.now (map string_bytes words.now)) result }
    ensures described { IfOk result (λ e. IsTrue (is_sound n.now (start_of e.start))) }
{
    read_event(alloc, n, &CommandWords(words))
}
