// What a line of a flow log says.
ghost use Rattle.std.specs.Prelude.{◌≡◌, ◌==◌, IsTrue, length, map};
ghost use Rattle.std.specs.List.{list_all, list_any};
ghost use Rattle.std.specs.Option.{option_zip};
ghost use Rattle.prefix_text.specs.Number.{number_of};
ghost use Rattle.vpc_model.specs.Id.{is_id, is_visible};
ghost use Rattle.flow_check.specs.Records.{action_of, address_of, eni_of, flow_in, has_ports, port_of, ports_in, record_by, record_of};

use crate::words::{fields_of, word};
use prefix_text::{read_addr, read_number};
use std::marker::Model;

/// What became of the packets of a flow.
#[derive(Clone, Copy)]
pub enum Action {
    /// The security groups and the network ACL let them pass.
    Accept,
    /// One of them did not.
    Reject,
}

/// The id of an interface, as it stands in a line. Contracts see its bytes.
#[derive(Drop)]
pub struct EniWord<'a> {
    text: &'a [u8],
}

impl<'a> Model for EniWord<'a> {
    ghost use Rattle.std.specs.Prelude.{List, ℕ};

    ghost Value = { List ℕ };

    ghost view = { λ w. w.text.now };
}

impl<'a> EniWord<'a> {
    pub fn bytes(&self) -> &'a [u8]
        ensures { result.now ≡ self.now }
    {
        self.text
    }
}

/// A protocol (IANA, "Protocol Numbers") with the ports of its packets, both 0 where it isn't TCP or UDP.
#[derive(Clone, Copy)]
pub struct Ports {
    pub proto: u8,
    pub p: u16,
    pub q: u16,
}

/// Packets between two addresses that passed an interface, or did not. None stands for an IPv6 address.
#[derive(Drop)]
pub struct Flow<'a> {
    pub eni: EniWord<'a>,
    pub src: Option<u32>,
    pub dst: Option<u32>,
    pub ports: Ports,
    pub action: Action,
}

/// What a line says of its interval of time.
#[derive(Drop)]
pub enum Record<'a> {
    /// No packet came.
    NoData,
    /// Some packets were left out of the log.
    SkipData,
    Seen(Flow<'a>),
}

fn are_visible(text: &[u8]) -> bool
    ensures { result ≡ list_all is_visible text.now }
{
    text.iter().all(|c| 33 <= *c && *c <= 126)
}

fn is_id(text: &[u8]) -> bool
    ensures { result ≡ is_id text.now }
{
    let length = text.len();
    1 <= length && length <= 256 && are_visible(text)
}

fn read_eni(word: &[u8]) -> Option<EniWord>
    ensures { result ≡ eni_of word.now }
{
    if is_id(word) {
        Some(EniWord { text: word })
    } else {
        None
    }
}

fn has_colon(word: &[u8]) -> bool
    ensures { result ≡ list_any (λ c. c == 58) word.now }
{
    word.iter().any(|c| *c == b':')
}

fn read_address(word: &[u8]) -> Option<Option<u32>>
    ensures { result ≡ address_of word.now }
{
    if has_colon(word) {
        return Some(None);
    }
    match read_addr(word) {
        Some(address) => Some(Some(address)),
        None => None,
    }
}

/// Whether packets of the protocol have ports: TCP and UDP alone.
pub fn has_ports(proto: u8) -> bool
    ensures { result ≡ has_ports proto }
{
    proto == 6 || proto == 17
}

fn read_port(proto: u8, word: &[u8]) -> Option<u16>
    ensures { result ≡ port_of proto word.now }
{
    if has_ports(proto) {
        Some(read_number(word, 65535)? as u16)
    } else {
        Some(0)
    }
}

fn read_action(word: &[u8]) -> Option<Action>
    ensures { result ≡ action_of word.now }
{
    if word == b"ACCEPT".as_slice() {
        Some(Action::Accept)
    } else if word == b"REJECT".as_slice() {
        Some(Action::Reject)
    } else {
        None
    }
}

fn read_proto(word: &[u8]) -> Option<u8>
    ensures { result ≡ number_of word.now 255 }
{
    Some(read_number(word, 255)? as u8)
}

fn read_ports(words: &[&[u8]]) -> Option<Ports>
    requires { length words.now ≡ 14 }
    ensures { result ≡ ports_in (map (λ w. w.now) words.now) }
{
    let proto = read_proto(word(words, 8))?;
    let p = read_port(proto, word(words, 6))?;
    let q = read_port(proto, word(words, 7))?;
    Some(Ports { proto, p, q })
}

fn read_ends(src: &[u8], dst: &[u8]) -> Option<(Option<u32>, Option<u32>)>
    ensures { result ≡ option_zip (address_of src.now) (address_of dst.now) }
{
    let src = read_address(src)?;
    let dst = read_address(dst)?;
    Some((src, dst))
}

fn read_flow<'a>(words: &[&'a [u8]]) -> Option<Flow<'a>>
    requires { length words.now ≡ 14 }
    ensures { result ≡ flow_in (map (λ w. w.now) words.now) }
{
    let eni = read_eni(word(words, 3))?;
    let (src, dst) = read_ends(word(words, 4), word(words, 5))?;
    let ports = read_ports(words)?;
    let action = read_action(word(words, 13))?;
    Some(Flow {
        eni,
        src,
        dst,
        ports,
        action,
    })
}

fn read_by<'a>(status: &[u8], words: &[&'a [u8]]) -> Option<Record<'a>>
    requires { length words.now ≡ 14 }
    ensures { result ≡ record_by status.now (map (λ w. w.now) words.now) }
{
    if status == b"NODATA".as_slice() {
        Some(Record::NoData)
    } else if status == b"SKIPDATA".as_slice() {
        Some(Record::SkipData)
    } else if status == b"OK".as_slice() {
        Some(Record::Seen(read_flow(words)?))
    } else {
        None
    }
}

/// What a line says, none where it is outside the grammar. It takes no memory.
pub fn read_record(line: &[u8]) -> Option<Record>
    ensures { result ≡ record_of line.now }
{
    let fields = fields_of(line)?;
    let words = fields.as_slice();
    if word(words, 1) != b"2".as_slice() {
        return None;
    }
    read_by(word(words, 14), words)
}
