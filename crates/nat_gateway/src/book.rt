// What a walk asks of a NAT gateway's translations.
ghost use Rattle.std.specs.Prelude.{◌≡◌, ◌≤◌, ◌<◌, ◌+◌, ◌^◌, ◌++◌, ◌∷◌, [], List, None, option_map, true, ℕ};
ghost use Rattle.nat_gateway.specs.Book.{outward_of, sent_by};
ghost use Rattle.vpc_laws.specs.Translations.{IsBook};
ghost use Rattle.vpc_model.specs.Nat as model;

use crate::entry::is_translatable;
use crate::{NatEntry, NatStop};
use vpc_base::Header;
use vpc_model::NatNo;

/// The opens that NAT gateways sent out, in the order in which they were added, and how many more it takes
/// without memory (VPC User Guide, "NAT gateways").
pub trait NatBook {
    ghost use Rattle.vpc_laws.specs.Translations.{IsBook};
    ghost use Rattle.nat_gateway.specs.Book.{outward_of};
    ghost use Rattle.vpc_model.specs.Nat.{Translation, inward};

    ghost entries: { Self → List Translation };

    ghost spare: { Self → ℕ };

    /// What an open becomes at a gateway whose own private address this is. A new one gets a port that no
    /// other of the gateway, protocol, destination and q has: its own from 1,024 on, or else the next free one.
    fn outward(&mut self, nat: NatNo, own: u32, h: &Header) -> Result<Header, NatStop>
        requires { 0 < spare self.old }
        ensures answer { let due = outward_of (entries self.old) nat own h.now in result ≡ due.answer }
        ensures entries { let due = outward_of (entries self.old) nat own h.now in
            entries self.new ≡ due.entries }
        ensures spare { spare self.old ≤ spare self.new + 1 }
        ensures in_order { IsBook (entries self.new) };

    /// What an answer becomes: the answer to the open before its translation.
    fn inward(&self, nat: NatNo, h: &Header) -> Option<Header>
        ensures answer { result ≡ inward (entries self.now) nat h.now }
        ensures in_order { IsBook (entries self.now) };
}

/// What the rule of opens asks of a form of the book.
pub(crate) trait Entries {
    ghost use Rattle.vpc_laws.specs.Translations.{IsBook};
    ghost use Rattle.vpc_model.specs.Nat.{Translation, first_port, free_port, is_full, is_taken, translation_of};

    ghost entries: { Self → List Translation };

    ghost spare: { Self → ℕ };

    /// What the open became, if it was sent out before.
    fn known(&self, nat: NatNo, h: &Header) -> Option<Header>
        ensures known { result ≡ option_map (λ t. t.after) (translation_of (entries self.now) nat h.now) }
        ensures in_order { IsBook (entries self.now) };

    fn is_full(&self, nat: NatNo, h: &Header) -> bool
        ensures { result ≡ is_full (entries self.now) nat h.now };

    fn free_port(&mut self, nat: NatNo, h: &Header) -> u16
        ensures port { result ≡ free_port (is_taken (entries self.old) nat h.now) (first_port h.now.p) }
        ensures entries { entries self.new ≡ entries self.old }
        ensures spare { spare self.new ≡ spare self.old };

    fn append(&mut self, t: NatEntry)
        requires room { 0 < spare self.old }
        requires in_order { IsBook (entries self.old ++ t ∷ []) }
        ensures entries { entries self.new ≡ entries self.old ++ t ∷ [] }
        ensures spare { spare self.old ≤ spare self.new + 1 };
}

/// The rule of opens.
pub(crate) fn send<B: Entries>(
    book: &mut B,
    nat: NatNo,
    own: u32,
    h: &Header,
) -> Result<Header, NatStop>
    requires { 0 < B.spare book.old }
    ensures answer { let due = outward_of (B.entries book.old) nat own h.now in result ≡ due.answer }
    ensures entries { let due = outward_of (B.entries book.old) nat own h.now in
        B.entries book.new ≡ due.entries }
    ensures spare { B.spare book.old ≤ B.spare book.new + 1 }
    ensures in_order { IsBook (B.entries book.new) }
{
    let known = book.known(nat, h);
    if !is_translatable(h.proto) {
        return Err(NatStop::Protocol);
    }
    match known {
        Some(after) => Ok(after),
        None => send_unknown(book, nat, own, h),
    }
}

fn send_unknown<B: Entries>(
    book: &mut B,
    nat: NatNo,
    own: u32,
    h: &Header,
) -> Result<Header, NatStop>
    requires room { 0 < B.spare book.old }
    requires translatable { model.is_translatable h.now.proto ≡ true }
    requires unknown { model.translation_of (B.entries book.old) nat h.now ≡ None }
    requires in_order { IsBook (B.entries book.old) }
    ensures answer { let due = sent_by (B.entries book.old) nat own h.now None in result ≡ due.answer }
    ensures entries { let due = sent_by (B.entries book.old) nat own h.now None in
        B.entries book.new ≡ due.entries }
    ensures spare { B.spare book.old ≤ B.spare book.new + 1 }
    ensures in_order { IsBook (B.entries book.new) }
{
    known_port(h.p);
    if book.is_full(nat, h) {
        return Err(NatStop::Full);
    }
    Ok(send_anew(book, nat, own, h))
}

// Says what the type says of a port that is behind a reference.
fn known_port(p: u16)
    ensures { p < 2 ^ 16 }
{
    let _ = p;
}

fn send_anew<B: Entries>(book: &mut B, nat: NatNo, own: u32, h: &Header) -> Header
    requires room { 0 < B.spare book.old }
    requires in_order { let t = model.new_translation (B.entries book.old) nat own h.now in
        IsBook (B.entries book.old ++ t ∷ []) }
    ensures answer { let t = model.new_translation (B.entries book.old) nat own h.now in result ≡ t.after }
    ensures entries { let t = model.new_translation (B.entries book.old) nat own h.now in
        B.entries book.new ≡ B.entries book.old ++ t ∷ [] }
    ensures spare { B.spare book.old ≤ B.spare book.new + 1 }
{
    let p = book.free_port(nat, h);
    let after = Header { src: own, p, ..*h };
    let before = *h;
    book.append(NatEntry { nat, before, after });
    after
}
