// One translation, and look-ups in lists of them.
ghost use Rattle.std.specs.List.{count_by, list_any};
ghost use Rattle.std.specs.Prelude.{◌≡◌, ◌&&◌, ◌==◌, ◌≤◌, ◌-◌, ◌^◌, option_and_then, option_map};
ghost use Rattle.vpc_base.specs.Header.{reply_of};
ghost use Rattle.vpc_model.specs.Connections.{same_header};
ghost use Rattle.vpc_model.specs.Nat as nats;
ghost use Rattle.nat_gateway.specs.Tables.{made_into};

use std::marker::Model;
use vpc_base::Header;
use vpc_model::NatNo;

/// An open that a NAT gateway sent out, before and after it. Contracts see it as the model's `Translation`.
#[derive(Clone, Copy)]
pub struct NatEntry {
    pub nat: NatNo,
    pub before: Header,
    pub after: Header,
}

impl Model for NatEntry {
    ghost use Rattle.vpc_model.specs.Nat.{Translation};

    ghost Value = { Translation };

    ghost view = { λ e. record { nat = e.nat; before = e.before; after = e.after } };

    ghost inverse = { λ t. record { nat = t.nat; before = t.before; after = t.after } };
}

/// No translation of a session: it fills the places of a list of fixed length.
impl Default for NatEntry {
    fn default() -> NatEntry {
        NatEntry {
            nat: NatNo::default(),
            before: Header::default(),
            after: Header::default(),
        }
    }
}

/// Why a NAT gateway doesn't send an open out.
#[derive(Clone, Copy, Debug, PartialEq, Eq)]
pub enum NatStop {
    /// It isn't TCP, UDP or ICMP.
    Protocol,
    /// 55,000 opens share the gateway, the protocol, the destination and the destination port.
    Full,
}

impl NatEntry {
    // The open is this one.
    fn is_of(&self, nat: NatNo, h: &Header) -> bool
        ensures { result ≡ (self.now.nat.0 == nat.0) && same_header self.now.before h.now }
    {
        self.nat.0 == nat.0 && is_same(&self.before, h)
    }

    // It became this header.
    fn became(&self, nat: NatNo, h: &Header) -> bool
        ensures { result ≡ (self.now.nat.0 == nat.0) && same_header self.now.after h.now }
    {
        self.nat.0 == nat.0 && is_same(&self.after, h)
    }

    fn shares(&self, nat: NatNo, h: &Header) -> bool
        ensures { result ≡ nats.shares nat h.now self.now }
    {
        let after = &self.after;
        self.nat.0 == nat.0 && (after.proto == h.proto && (after.dst == h.dst && after.q == h.q))
    }
}

fn is_same(a: &Header, b: &Header) -> bool
    ensures { result ≡ same_header a.now b.now }
{
    a.proto == b.proto && (a.src == b.src && (a.dst == b.dst && (a.p == b.p && a.q == b.q)))
}

/// What an open became.
pub(crate) fn after_of(entries: &[NatEntry], nat: NatNo, h: &Header) -> Option<Header>
    ensures { result ≡ option_map (λ t. t.after) (nats.translation_of entries.now nat h.now) }
{
    for t in entries {
        if t.is_of(nat, h) {
            return Some(t.after);
        }
    }
    None
}

/// What a translated open was.
pub(crate) fn before_of(entries: &[NatEntry], nat: NatNo, h: &Header) -> Option<Header>
    ensures { result ≡ option_map (λ t. t.before) (made_into entries.now nat h.now) }
{
    for t in entries {
        if t.became(nat, h) {
            return Some(t.before);
        }
    }
    None
}

/// The answer to an open, if there is one.
pub(crate) fn answer_to(before: Option<Header>) -> Option<Header>
    ensures { result ≡ option_and_then reply_of before }
{
    match before {
        Some(before) => before.reply(),
        None => None,
    }
}

/// How many opens share the gateway, protocol, destination and q.
pub(crate) fn count_sharing(entries: &[NatEntry], nat: NatNo, h: &Header) -> usize
    ensures { result ≡ count_by (nats.shares nat h.now) entries.now }
{
    entries.iter().filter(|t| t.shares(nat, h)).count()
}

/// Whether one of those has the port.
pub(crate) fn is_taken(entries: &[NatEntry], nat: NatNo, h: &Header, port: u32) -> bool
    ensures { result ≡ nats.is_taken entries.now nat h.now port }
{
    entries.iter().any(|t| t.has(nat, h, port))
}

impl NatEntry {
    fn has(&self, nat: NatNo, h: &Header, port: u32) -> bool
        ensures { result ≡ (nats.shares nat h.now self.now && (self.now.after.p == port)) }
    {
        self.shares(nat, h) && u32::from(self.after.p) == port
    }
}

/// Whether packets of the protocol go out.
pub(crate) fn is_translatable(proto: u8) -> bool
    ensures { result ≡ nats.is_translatable proto }
{
    proto == ICMP || (proto == TCP || proto == UDP)
}

pub(crate) const ICMP: u8 = 1;

pub(crate) const TCP: u8 = 6;

pub(crate) const UDP: u8 = 17;

/// The port that is tried first.
pub(crate) fn first_port(p: u16) -> u32
    ensures port { result ≡ nats.first_port p }
    ensures least { 1024 ≤ result }
    ensures most { result ≤ 65535 }
{
    let p = u32::from(p);
    if p < 1024 { p + 1024 } else { p }
}
