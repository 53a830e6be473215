// Rules in ascending order of their first ports.
ghost use Rattle.std.specs.Prelude.{◌≡◌, ◌*◌, ◌<◌, ◌≤◌, IfOk, IsPermutation, length};
ghost use Rattle.std.specs.List.Sorted.{IsNonDecreasingBy};
ghost use Rattle.security_groups.specs.Asking.{least, lesser};
ghost use Rattle.security_groups.specs.Rules.{allows};
ghost use Rattle.security_groups.specs.Tables.{AreBegun, AreEnded, AreLasts, AreTops, EndBy, run_of};

use crate::asking::allows;
use crate::members::Members;
use crate::on_images::allows_on;
use crate::rules::Rule;
use crate::runs_on::{BegunRules, allowing_in_runs, any_in_runs_on, before_next};
use address_sets::AddressSet;
use box_images::{Image, Part};
use header_boxes::Box5;
use std::alloc::{AllocError, Global};
use std::marker::Model;
use vpc_base::{Dir, Header};

fn sort(rules: &mut Vec<Rule>)
    ensures same { IsPermutation rules.old.items rules.new.items }
    ensures ascend { IsNonDecreasingBy (λ r. r.q_from) rules.new.items }
{
    rules.sort_unstable_by_key(|rule| rule.q_from);
}

// 16 rules, or those that are left.
pub fn run_of(rules: &[Rule], k: usize) -> &[Rule]
    requires { 16 * k ≤ length rules.now }
    ensures { result.now ≡ run_of k rules.now }
{
    let rest = &rules[16 * k..];
    if rest.len() < 16 { rest } else { &rest[..16] }
}

// The greatest last port.
fn last_of(rules: &[Rule]) -> u16
    ensures { EndBy result rules.now }
{
    let mut last = 0;
    for rule in rules {
        if last < rule.q_to {
            last = rule.q_to;
        }
    }
    last
}

// The greatest last port of each run.
fn lasts_of(alloc: Global, rules: &[Rule]) -> Result<Vec<u16>, AllocError>
    ensures { IfOk result (λ v. AreLasts rules.now v.items) }
{
    let mut lasts = Vec::new(alloc);
    for k in 0..rules.len().div_ceil(16) {
        lasts.push(last_of(run_of(rules, k)))?;
    }
    Ok(lasts)
}

// For each run the greatest last port of it and those before it.
fn tops_of(alloc: Global, lasts: &[u16]) -> Result<Vec<u16>, AllocError>
    ensures { IfOk result (λ v. AreTops lasts.now v.items) }
{
    let mut tops = Vec::new(alloc);
    let mut top = 0;
    for last in lasts {
        if top < *last {
            top = *last;
        }
        tops.push(top)?;
    }
    Ok(tops)
}

fn lesser(one: Option<u32>, other: Option<u32>) -> Option<u32>
    ensures { result ≡ lesser one other }
{
    match one {
        None => other,
        Some(a) => match other {
            None => Some(a),
            Some(b) => { if b < a { Some(b) } else { Some(a) } }
        },
    }
}

// The least number of a rule that allows the packet.
fn least_in(
    lists: &[AddressSet],
    members: &Members,
    rules: &[Rule],
    dir: Dir,
    h: &Header,
) -> Option<u32>
    ensures { result ≡ least (allows lists.now members.now dir h.now) rules.now }
{
    let mut least = None;
    for rule in rules {
        if allows(lists, members, rule, dir, h) {
            least = lesser(least, Some(rule.number));
        }
    }
    least
}

// The least number of a rule that allows the header, among the runs that don't end before the port: the first ones do.
fn least_in_runs(
    lists: &[AddressSet],
    members: &Members,
    begun: &BegunRules,
    dir: Dir,
    h: &Header,
) -> Option<u32>
    requires runs { AreLasts begun.now.rules.now begun.now.lasts.now }
    requires ended { AreEnded begun.now.lasts.now h.now.q begun.now.ended }
    ensures { result ≡ least (allows lists.now members.now dir h.now) begun.now.rules.now }
{
    let mut least = None;
    for k in begun.ended..begun.lasts.len() {
        if h.q <= begun.lasts[k] {
            least = lesser(
                least,
                least_in(lists, members, run_of(begun.rules, k), dir, h),
            );
        }
    }
    least
}

/// Rules, with the greatest last port of each run of 16, and of all runs up to it. Contracts see the rules, in ascending
/// order of their first ports.
pub struct PortTable {
    rules: Vec<Rule>,
    lasts: Vec<u16>,
    tops: Vec<u16>,
}

impl Drop for PortTable {
    fn drop(self) {
        let PortTable { rules, lasts, tops } = self;
        drop(rules);
        drop(lasts);
        drop(tops);
    }
}

impl Model for PortTable {
    ghost use Rattle.std.specs.Prelude.{List};
    ghost use Rattle.security_groups.specs.declared.rules.Rule.{Rule};
    ghost use Rattle.security_groups.specs.Tables.{IsTable};

    ghost Value = { List Rule };

    ghost view = { λ t. t.rules.items };

    ghost invariant = { λ t. IsTable t.rules.items t.lasts.items t.tops.items };
}

impl PortTable {
    ghost use Rattle.std.specs.Prelude.{IfSome, true};
    ghost use Rattle.box_images.specs.Answers.{Answers};
    ghost use Rattle.box_images.specs.Images.{IsImageOfWalk, IsValidImage, header_at};
    ghost use Rattle.header_boxes.specs.Boxes.{holds};
    ghost use Rattle.vpc_base.specs.declared.headers.Header.{Header};
    ghost use Rattle.security_groups.specs.Dividing.{FindsOne, IsAllowedOn, rule_at};
    ghost use Rattle.security_groups.specs.Rules.{DivideRules, any_allows};

    /// The rules, in ascending order of their first ports.
    pub fn as_slice(&self) -> &[Rule]
        ensures { result.now ≡ self.now }
    {
        self.rules.as_slice()
    }

    /// The table of some rules, in any order. It takes time n log n.
    pub fn of(alloc: Global, mut rules: Vec<Rule>) -> Result<PortTable, AllocError>
        ensures { IfOk result (IsPermutation rules.items) }
    {
        sort(&mut rules);
        let lasts = lasts_of(alloc, rules.as_slice())?;
        let tops = tops_of(alloc, lasts.as_slice())?;
        Ok(PortTable { rules, lasts, tops })
    }

    // The rules that begin at or before a port.
    fn begun(&self, q: u16) -> BegunRules<'_>
        ensures rules { AreBegun self.now q result.rules.now }
        ensures lasts { AreLasts result.rules.now result.lasts.now }
        ensures ended { AreEnded result.lasts.now q result.ended }
    {
        let begun = self.rules.partition_point(|rule| rule.q_from <= q);
        let runs = begun.div_ceil(16);
        let ended = self.tops[..runs].partition_point(|top| *top < q);
        BegunRules {
            rules: &self.rules[..begun],
            lasts: &self.lasts[..runs],
            ended,
        }
    }

    /// The least number of a rule that allows the packet. It asks the rules that begin at or before its
    /// port, run by run, but no run of which all rules end before it.
    pub fn least_allowing(
        &self,
        lists: &[AddressSet],
        members: &Members,
        dir: Dir,
        h: &Header,
    ) -> Option<u32>
        ensures { result ≡ least (allows lists.now members.now dir h.now) self.now }
    {
        least_in_runs(lists, members, &self.begun(h.q), dir, h)
    }

    // The number of a rule in this order that allows the packet, if one does. It asks as `least_allowing`
    // does, and stops at the first one.
    fn allowing(
        &self,
        lists: &[AddressSet],
        members: &Members,
        dir: Dir,
        h: &Header,
    ) -> Option<usize>
        ensures { FindsOne (allows lists.now members.now dir h.now) self.now result }
    {
        allowing_in_runs(lists, members, &self.begun(h.q), dir, h)
    }

    // Whether the rule of this number allows the headers of an image.
    fn one_allows_on(
        &self,
        number: usize,
        lists: &[AddressSet],
        members: &Members,
        dir: Dir,
        i: &Image,
    ) -> Option<Part<bool>>
        requires valid { IsValidImage i.now }
        requires walk { IsImageOfWalk i.now }
        requires within { number < length self.now }
        ensures { IfSome result (Answers (DivideRules lists.now members.now self.now)
            (λ h. allows lists.now members.now dir (header_at i.now h) (rule_at self.now number))
            i.now.part) }
    {
        let q = i.value(&i.part.low()).q;
        allows_on(lists, members, &self.rules[number], dir, q, i)
    }

    /// The body on which one rule allows the headers of an image: one that allows the low corner, if there is such a rule.
    pub fn allowed_on(
        &self,
        lists: &[AddressSet],
        members: &Members,
        dir: Dir,
        i: &Image,
    ) -> Option<Box5>
        requires valid { IsValidImage i.now }
        requires walk { IsImageOfWalk i.now }
        ensures { IfSome result (IsAllowedOn lists.now members.now dir self.now i.now) }
    {
        let low = i.value(&i.part.low());
        let number = self.allowing(lists, members, dir, &low)?;
        let allowed = self.one_allows_on(number, lists, members, dir, i)?;
        if allowed.told {
            Some(allowed.body)
        } else {
            None
        }
    }

    /// Whether one of the rules allows the headers of an image. It asks those that begin at or before the
    /// port of the low corner, run by run, but no run of which all rules end before it. Of those that begin
    /// later, the first one that could allow a header ends the body.
    pub fn any_allows_on(
        &self,
        lists: &[AddressSet],
        members: &Members,
        dir: Dir,
        i: &Image,
    ) -> Part<bool>
        requires valid { IsValidImage i.now }
        requires walk { IsImageOfWalk i.now }
        ensures { Answers (DivideRules lists.now members.now self.now)
            (λ h. any_allows lists.now members.now dir self.now (header_at i.now h))
            i.now.part result }
    {
        let q = i.value(&i.part.low()).q;
        let begun = self.begun(q);
        let rest = i.within(&before_next(
            lists,
            members,
            self.rules.as_slice(),
            begun.rules.len(),
            dir,
            i,
        ));
        any_in_runs_on(lists, members, &begun, dir, q, &rest)
    }
}
