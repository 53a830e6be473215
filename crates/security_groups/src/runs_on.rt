// Whether one of some rules allows the headers of an image.
ghost use Rattle.std.specs.Prelude.{◌≡◌, ◌≤◌, length, take, true};
ghost use Rattle.std.specs.List.Sorted.{IsNonDecreasingBy};
ghost use Rattle.box_images.specs.Answers.{Answers};
ghost use Rattle.box_images.specs.Images.{IsImageOfWalk, IsValidImage, header_at};
ghost use Rattle.header_boxes.specs.Boxes.{holds, low_of};
ghost use Rattle.vpc_base.specs.declared.headers.Header.{Header};
ghost use Rattle.security_groups.specs.Dividing.{FindsOne, IsLeftWith};
ghost use Rattle.security_groups.specs.Rules.{DivideRules, allows, any_allows};
ghost use Rattle.security_groups.specs.Tables.{AreEnded, AreLasts, BeginAfter};

use crate::asking::allows;
use crate::members::Members;
use crate::on_images::{allows_on, could_allow};
use crate::port_tables::run_of;
use crate::rules::Rule;
use address_sets::AddressSet;
use box_images::{Image, Part, Side};
use header_boxes::Box5;
use image_tests::begins_on;
use vpc_base::{Dir, Header};

// The rules have begun at a port that no header is below.
fn any_in_on(
    lists: &[AddressSet],
    members: &Members,
    rules: &[Rule],
    dir: Dir,
    q: u16,
    i: &Image,
) -> Part<bool>
    requires valid { IsValidImage i.now }
    requires walk { IsImageOfWalk i.now }
    requires above { (h : Header) → holds h i.now.part ≡ true → q ≤ (header_at i.now h).q }
    ensures { Answers (DivideRules lists.now members.now rules.now)
        (λ h. any_allows lists.now members.now dir rules.now (header_at i.now h)) i.now.part result }
{
    let mut rest = *i;
    for rule in rules {
        if let Some(allowed) = allows_on(lists, members, rule, dir, q, &rest) {
            if allowed.told {
                return Part {
                    body: allowed.body,
                    told: true,
                };
            }
            rest.keep(&allowed.body);
        }
    }
    Part {
        body: rest.part,
        told: false,
    }
}

/// The rules of a table that begin at or before a port, by runs of 16.
#[derive(Clone, Copy)]
pub struct BegunRules<'a> {
    pub rules: &'a [Rule],
    /// The greatest last port of each run.
    pub lasts: &'a [u16],
    /// How many of the first runs end before the port.
    pub ended: usize,
}

/// Whether one of the rules allows the headers of an image, by runs of rules. Those that end before a port that no header is
/// below, as the first ones do, aren't asked.
pub fn any_in_runs_on(
    lists: &[AddressSet],
    members: &Members,
    begun: &BegunRules,
    dir: Dir,
    q: u16,
    i: &Image,
) -> Part<bool>
    requires valid { IsValidImage i.now }
    requires walk { IsImageOfWalk i.now }
    requires runs { AreLasts begun.now.rules.now begun.now.lasts.now }
    requires ended { AreEnded begun.now.lasts.now q begun.now.ended }
    requires above { (h : Header) → holds h i.now.part ≡ true → q ≤ (header_at i.now h).q }
    ensures { Answers (DivideRules lists.now members.now begun.now.rules.now)
        (λ h. any_allows lists.now members.now dir begun.now.rules.now (header_at i.now h))
        i.now.part result }
{
    let mut rest = *i;
    for k in begun.ended..begun.lasts.len() {
        if q <= begun.lasts[k] {
            let allowed = any_in_on(lists, members, run_of(begun.rules, k), dir, q, &rest);
            if allowed.told {
                return Part {
                    body: allowed.body,
                    told: true,
                };
            }
            rest = rest.within(&allowed.body);
        }
    }
    Part {
        body: rest.part,
        told: false,
    }
}

// How many later rules are passed over at most, so that a question doesn't look at all of them each time it is asked.
const MOST_PASSED: u8 = 64;

/// The body of headers that none of the rules from this number on allows, all of which begin after the port of
/// the low corner. It ends before the first port of the first one that could allow a header, if one comes to that port.
pub fn before_next(
    lists: &[AddressSet],
    members: &Members,
    rules: &[Rule],
    begun: usize,
    dir: Dir,
    i: &Image,
) -> Box5
    requires valid { IsValidImage i.now }
    requires walk { IsImageOfWalk i.now }
    requires ascend { IsNonDecreasingBy (λ r. r.q_from) rules.now }
    requires within { begun ≤ length rules.now }
    requires later { BeginAfter rules.now begun (header_at i.now (low_of i.now.part)).q }
    ensures { IsLeftWith lists.now members.now dir rules.now (take begun rules.now) i.now result }
{
    let last = i.greatest(Side::Q);
    let mut passed = 0u8;
    for rule in &rules[begun..] {
        // Where no header comes to a rule's first port, none comes to that of a later one.
        if last < u32::from(rule.q_from) {
            return i.part;
        }
        if passed == MOST_PASSED || could_allow(lists, members, rule, dir, i) {
            return begins_on(i, rule.q_from).body;
        }
        passed = passed.saturating_add(1);
    }
    i.part
}

// Whether a rule allows the packet, where most rules end before its port: that is asked first and in place.
fn allows_at(lists: &[AddressSet], members: &Members, rule: &Rule, dir: Dir, h: &Header) -> bool
    ensures { result ≡ allows lists.now members.now dir h.now rule.now }
{
    if rule.q_to < h.q {
        return false;
    }
    allows(lists, members, rule, dir, h)
}

fn allowing_in(
    lists: &[AddressSet],
    members: &Members,
    rules: &[Rule],
    dir: Dir,
    h: &Header,
) -> Option<usize>
    ensures { FindsOne (allows lists.now members.now dir h.now) rules.now result }
{
    for (k, rule) in rules.iter().enumerate() {
        if allows_at(lists, members, rule, dir, h) {
            return Some(k);
        }
    }
    None
}

/// The number of a rule that allows the packet, if one does, by runs, of which the first ones end before its port.
pub fn allowing_in_runs(
    lists: &[AddressSet],
    members: &Members,
    begun: &BegunRules,
    dir: Dir,
    h: &Header,
) -> Option<usize>
    requires runs { AreLasts begun.now.rules.now begun.now.lasts.now }
    requires ended { AreEnded begun.now.lasts.now h.now.q begun.now.ended }
    ensures { FindsOne (allows lists.now members.now dir h.now) begun.now.rules.now result }
{
    for k in begun.ended..begun.lasts.len() {
        if h.q <= begun.lasts[k] {
            let allowing = allowing_in(lists, members, run_of(begun.rules, k), dir, h);
            if let Some(number) = allowing {
                return Some(16 * k + number);
            }
        }
    }
    None
}
