// The requests of a query for which a rule may decide anything.
ghost use Rattle.std.specs.Prelude.{◌≡◌, ◌==◌, [], IfSome, IsTrue, None, Some, cond, false, option_map, slice_get};
ghost use Rattle.header_boxes.specs.Boxes.{IsValid};
ghost use Rattle.unused_rules.specs.Concerned.{answered_box, asked_box, filter_of, filter_of_permission, filter_of_row, first_by, first_of, kept_by, part_before, proto_side};

use crate::lines::{permissions_of, row_at};
use crate::rules::RuleName;
use header_boxes::Box5;
use std::cmp::Ordering;
use vpc_base::Header;
use vpc_model::{AclRow, Description, Permission};

/// The packets that a rule may match, by their protocol and q.
#[derive(Clone, Copy)]
pub struct Filter {
    /// None for all protocols.
    pub proto: Option<u8>,
    pub from: u16,
    pub to: u16,
}

/// Parts of a query outside which a rule decides nothing.
#[derive(Clone, Copy)]
pub struct Concerned {
    /// The requests that it may match.
    pub asked: Option<Box5>,
    /// Those whose replies it may match.
    pub answered: Option<Box5>,
}

// ---- what a rule matches

fn filter_at(permissions: &[Permission], place: usize) -> Option<Filter>
    ensures { result ≡ option_map filter_of_permission (slice_get permissions.now place) }
{
    match permissions.get(place) {
        None => None,
        Some(p) => Some(Filter {
            proto: p.proto,
            from: p.q_from,
            to: p.q_to,
        }),
    }
}

fn filter_of_row(row: Option<AclRow>) -> Option<Filter>
    ensures { result ≡ option_map filter_of_row row }
{
    match row {
        None => None,
        Some(r) => Some(Filter {
            proto: r.proto,
            from: r.q_from,
            to: r.q_to,
        }),
    }
}

fn filter_of(d: &Description, rule: &RuleName) -> Option<Filter>
    ensures { result ≡ filter_of d.now rule.now }
{
    match rule {
        RuleName::Permission(r) => {
            let place = (r.number as usize).saturating_sub(1);
            filter_at(permissions_of(d, r.group, r.dir), place)
        }
        RuleName::AclRow(a, place) => filter_of_row(row_at(d, *a, *place)),
    }
}

fn has_nats(d: &Description) -> bool
    ensures { result ≡ false → d.now.nats ≡ [] }
{
    match d.nats.as_slice() {
        [] => false,
        _ => true,
    }
}

// Whether a rule may match all requests of some sides. No answer depends on it, but the time that a search takes.
fn may_match_all(sides: &Box5, f: &Filter) -> bool {
    let of_all = match f.proto {
        None => true,
        Some(n) => sides.proto == (n, n),
    };
    of_all && (f.from <= sides.q.0 && sides.q.1 <= f.to)
}

fn unless_all(sides: &Box5, filter: Option<Filter>) -> Option<Filter>
    ensures { IfSome result (λ f. filter ≡ Some f) }
{
    match filter {
        None => None,
        Some(f) => {
            if may_match_all(sides, &f) {
                None
            } else {
                Some(f)
            }
        }
    }
}

/// What a rule matches, where packets keep their ports: no NAT gateway translates any. Nothing where there is no such rule, or it
/// may match all requests of the sides.
pub(crate) fn kept_filter(d: &Description, sides: &Box5, rule: &RuleName) -> Option<Filter>
    ensures { IfSome result (λ f. (filter_of d.now rule.now ≡ Some f) × (d.now.nats ≡ [])) }
{
    if has_nats(d) {
        None
    } else {
        unless_all(sides, filter_of(d, rule))
    }
}

// ---- requests

fn proto_side(proto: Option<u8>, side: (u8, u8)) -> (u8, u8)
    ensures { result ≡ proto_side proto side }
{
    match proto {
        None => side,
        Some(n) => (n, n),
    }
}

/// The requests of some sides that a rule may match, and what it may match of other sides.
pub(crate) fn asked_box(sides: &Box5, f: &Filter) -> Box5
    ensures { result ≡ asked_box sides.now f.now }
{
    Box5 {
        proto: proto_side(f.proto, sides.proto),
        src: sides.src,
        dst: sides.dst,
        p: sides.p,
        q: (f.from, f.to),
    }
}

fn answered_side(side: (u16, u16), f: &Filter) -> (u16, u16)
    ensures { result ≡ cond (f.now.from == 0) side (f.now.from, f.now.to) }
{
    if f.from == 0 { side } else { (f.from, f.to) }
}

/// The requests of some sides whose replies a rule may match.
pub(crate) fn answered_box(sides: &Box5, f: &Filter) -> Box5
    ensures { result ≡ answered_box sides.now f.now }
{
    Box5 {
        proto: proto_side(f.proto, sides.proto),
        src: sides.src,
        dst: sides.dst,
        p: answered_side(sides.p, f),
        q: sides.q,
    }
}

// ---- parts

impl Concerned {
    /// Whether there are no such requests.
    pub(crate) fn is_empty(&self) -> bool
        ensures { IsTrue result → (self.now.asked ≡ None) × (self.now.answered ≡ None) }
    {
        match (self.asked, self.answered) {
            (None, None) => true,
            (Some(_), _) => false,
            (None, Some(_)) => false,
        }
    }
}

// The second of two headers, if it comes before the first.
fn first_by(order: Ordering, h: Header, k: Header) -> Header
    ensures { result ≡ first_by order h k }
{
    match order {
        Ordering::Less => k,
        Ordering::Equal => h,
        Ordering::Greater => h,
    }
}

/// The first of two headers, if there are any.
pub(crate) fn first_of(one: Option<Header>, other: Option<Header>) -> Option<Header>
    ensures { result ≡ first_of one other }
{
    match (one, other) {
        (None, other) => other,
        (Some(h), None) => Some(h),
        (Some(h), Some(k)) => Some(first_by(k.order(&h), h, k)),
    }
}

fn kept_by(order: Ordering, b: Box5) -> Option<Box5>
    ensures { result ≡ kept_by order b }
{
    match order {
        Ordering::Less => Some(b),
        Ordering::Equal => None,
        Ordering::Greater => None,
    }
}

/// A part that begins before a header, if one was found: no header of another comes before it.
pub(crate) fn part_before(part: Option<Box5>, found: Option<Header>) -> Option<Box5>
    requires { IfSome part IsValid }
    ensures { result ≡ part_before part found }
{
    match (part, found) {
        (None, _) => None,
        (Some(b), None) => Some(b),
        (Some(b), Some(h)) => kept_by(b.low().order(&h), b),
    }
}
