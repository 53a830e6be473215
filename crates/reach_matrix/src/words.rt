// The words of `matrix`.
ghost use Rattle.std.specs.Prelude.{◌≡◌, ◌≤◌, IfOk, codes, length, map, string_bytes};
ghost use Rattle.query_words.specs.Pairs.{IsSide, read_ports, some_ports};
ghost use Rattle.query_words.specs.Words.{expect_word};
ghost use Rattle.reach_matrix.specs.Words.{IsMatrixCount, port_pair, ports_asked};

use prefix_text::read_range;
use query_words::{QueryRefusal, word};

fn expect_port(words: &[String]) -> Result<(), QueryRefusal>
    requires { 3 ≤ length words.now }
    ensures { result ≡ expect_word (codes "port") (map string_bytes words.now) 3 }
{
    if word(words, 3) == "port" {
        Ok(())
    } else {
        Err(QueryRefusal::BadWord(3))
    }
}

fn some_ports(ports: (u16, u16)) -> Result<(u16, u16), QueryRefusal>
    ensures value { result ≡ some_ports 4 ports }
    ensures some { IfOk result IsSide }
{
    if ports.0 <= ports.1 {
        Ok(ports)
    } else {
        Err(QueryRefusal::EmptyRange(4))
    }
}

fn read_ports(words: &[String]) -> Result<(u16, u16), QueryRefusal>
    requires { 4 ≤ length words.now }
    ensures value { result ≡ read_ports (map string_bytes words.now) 4 }
    ensures some { IfOk result IsSide }
{
    match read_range(word(words, 4).as_bytes()) {
        Some(ports) => some_ports(ports),
        None => Err(QueryRefusal::BadWord(4)),
    }
}

fn port_pair(words: &[String]) -> Result<(u16, u16), QueryRefusal>
    requires { 4 ≤ length words.now }
    ensures value { result ≡ port_pair (map string_bytes words.now) }
    ensures some { IfOk result IsSide }
{
    expect_port(words)?;
    read_ports(words)
}

/// The ports that the words ask for.
pub(crate) fn ports_asked(words: &[String]) -> Result<(u16, u16), QueryRefusal>
    requires { IsMatrixCount (length words.now) }
    ensures value { result ≡ ports_asked (map string_bytes words.now) }
    ensures some { IfOk result IsSide }
{
    if words.len() == 2 {
        Ok((0, u16::MAX))
    } else {
        port_pair(words)
    }
}
