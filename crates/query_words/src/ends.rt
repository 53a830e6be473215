// Where packets start and arrive.
ghost use Rattle.std.specs.Prelude.{◌≡◌, ◌≤◌, IfOk, IfSome, IsTrue, length};
ghost use Rattle.vpc_model.specs.Far.{far_of_id};
ghost use Rattle.vpc_model.specs.Lookup.{interface_at};
ghost use Rattle.vpc_model.specs.Sound.{is_end, is_eni, is_far};
ghost use Rattle.query_words.specs.Ends.{AreDescribed, end_at, end_of, end_with, ends_of, far_end_at, far_named, is_endpoint, is_service, known_end, not_both, start_of};
ghost use Rattle.query_words.specs.Refusal.{Answers};

use crate::QueryRefusal;
use crate::words::{NumberedWords, expect_word};
use reference_check::Network;
use std::alloc::Global;
use vpc_model::{End, EniNo, FarKind, FarNo, Interface, InterfaceKind};

// An interface as an end, where it belongs to no gateway.
pub(crate) fn end_at(alloc: Global, n: &Network, eni: EniNo) -> Result<End, QueryRefusal>
    requires { IsTrue (is_eni n.now eni) }
    ensures answer { Answers (end_at n.now eni) result }
    ensures described { IfOk result (λ e. IsTrue (is_end n.now e)) }
{
    let row = n.interface_at(eni);
    match row.kind {
        InterfaceKind::Host => Ok(End::Interface(eni)),
        InterfaceKind::Gateway => Err(QueryRefusal::NotAnEnd(row.id.copied(alloc)?)),
    }
}

// A network that isn't described as an end, where no described VPC is at the other side.
fn far_end_at(alloc: Global, n: &Network, k: FarNo) -> Result<End, QueryRefusal>
    requires { IsTrue (is_far n.now k) }
    ensures answer { Answers (far_end_at n.now k) result }
    ensures described { IfOk result (λ e. IsTrue (is_end n.now e)) }
{
    let row = n.far_at(k);
    if n.is_far_end(row) {
        Ok(End::Far(k))
    } else {
        Err(QueryRefusal::NotAnEnd(row.id.copied(alloc)?))
    }
}

// The network to which what has the id leads.
fn far_with(alloc: Global, n: &Network, id: &[u8]) -> Result<Option<End>, QueryRefusal>
    ensures answer { Answers (far_named n.now (far_of_id n.now id.now)) result }
    ensures described { IfOk result (λ end. IfSome end (λ e. IsTrue (is_end n.now e))) }
{
    match n.far(id) {
        Some(k) => Ok(Some(far_end_at(alloc, n, k)?)),
        None => Ok(None),
    }
}

/// The end with an id: an interface, else a network that isn't described.
pub(crate) fn end_with(alloc: Global, n: &Network, id: &[u8]) -> Result<Option<End>, QueryRefusal>
    ensures answer { Answers (end_with n.now id.now) result }
    ensures described { IfOk result (λ end. IfSome end (λ e. IsTrue (is_end n.now e))) }
{
    match n.eni(id) {
        Some(eni) => Ok(Some(end_at(alloc, n, eni)?)),
        None => far_with(alloc, n, id),
    }
}

// The end with an id, which the word with this number is.
fn known_end(alloc: Global, n: &Network, id: &[u8], number: usize) -> Result<End, QueryRefusal>
    ensures answer { Answers (known_end n.now id.now number) result }
    ensures described { IfOk result (λ e. IsTrue (is_end n.now e)) }
{
    match end_with(alloc, n, id)? {
        Some(end) => Ok(end),
        None => Err(QueryRefusal::UnknownId(number as u64)),
    }
}

/// The end that a word names. The word `internet` always means the internet, also where a row has that id.
pub(crate) fn read_end<W: NumberedWords>(
    alloc: Global,
    n: &Network,
    words: &W,
    number: usize,
) -> Result<End, QueryRefusal>
    requires first { 3 ≤ number }
    requires last { number ≤ length (W.words words.now) }
    ensures answer { Answers (end_of n.now (W.words words.now) number) result }
    ensures described { IfOk result (λ e. IsTrue (is_end n.now e)) }
{
    let word = words.word(number);
    if word == b"internet".as_slice() {
        Ok(End::Internet)
    } else {
        known_end(alloc, n, word, number)
    }
}

fn is_endpoint(kind: &FarKind) -> bool
    ensures { result ≡ is_endpoint kind.now }
{
    match kind {
        FarKind::PrivateGateway(_) | FarKind::Attachment(_) | FarKind::Peering(..) => false,
        FarKind::Endpoint(_) => true,
    }
}

/// Whether the end is a service behind a gateway endpoint, which opens no connections.
pub fn is_service(n: &Network, end: End) -> bool
    requires { IsTrue (is_end n.now end) }
    ensures { result ≡ is_service n.now end }
{
    match end {
        End::Interface(_) | End::Internet => false,
        End::Far(k) => is_endpoint(&n.far_at(k).kind),
    }
}

/// The start of requests that a word names.
pub(crate) fn read_start<W: NumberedWords>(
    alloc: Global,
    n: &Network,
    words: &W,
    number: usize,
) -> Result<End, QueryRefusal>
    requires first { 3 ≤ number }
    requires last { number ≤ length (W.words words.now) }
    ensures answer { Answers (start_of n.now (W.words words.now) number) result }
    ensures described { IfOk result (λ e. IsTrue (is_end n.now e)) }
{
    let end = read_end(alloc, n, words, number)?;
    if is_service(n, end) {
        Err(QueryRefusal::NotAStart(number as u64))
    } else {
        Ok(end)
    }
}

/// The two ends of a query.
#[derive(Clone, Copy)]
pub(crate) struct Ends {
    pub start: End,
    pub goal: End,
}

fn not_both(start: End, goal: End) -> Result<Ends, QueryRefusal>
    ensures { result ≡ not_both start goal }
{
    match (start, goal) {
        (End::Internet, End::Internet) => Err(QueryRefusal::BothInternet),
        _ => Ok(Ends { start, goal }),
    }
}

/// The ends that `from END to END` names, from the third word on.
pub(crate) fn read_ends<W: NumberedWords>(
    alloc: Global,
    n: &Network,
    words: &W,
) -> Result<Ends, QueryRefusal>
    requires { 6 ≤ length (W.words words.now) }
    ensures answer { Answers (ends_of n.now (W.words words.now)) result }
    ensures described { IfOk result (λ e. AreDescribed n.now e.start e.goal) }
{
    expect_word(words, 3, b"from")?;
    let start = read_start(alloc, n, words, 4)?;
    expect_word(words, 5, b"to")?;
    let goal = read_end(alloc, n, words, 6)?;
    not_both(start, goal)
}
