// What is told of stops: a name, a component and a rule.
ghost use Rattle.std.specs.Prelude.{◌≡◌, ◌++◌, IfOk, IsTrue, OnOk, decimal, slice_index_or};
ghost use Rattle.block_report.specs.Rules.{rule_word};
ghost use Rattle.prefix_text.specs.Block.{block_text};
ghost use Rattle.vpc_model.specs.Access.{access_text};
ghost use Rattle.vpc_model.specs.Id.{is_id};
ghost use Rattle.vpc_model.specs.Lookup.{table_at, tgw_table_at};
ghost use Rattle.vpc_model.specs.Sound.{has_component, has_foreign_text, has_stop_rule, has_text, is_route, is_tgw_route};
ghost use Rattle.vpc_model.specs.Step.Router.{no_route};
ghost use Rattle.vpc_model.specs.Step.Transit.{no_tgw_route};
ghost use Rattle.vpc_model.specs.declared.stops.Foreign.TheVariants as foreign;
ghost use Rattle.vpc_model.specs.Told.{component_id, foreign_id, reach_text, rule_text, stop_id, stop_rule, target_id, told_stop};

use crate::places::{end_id, place_id};
use crate::words::put;
use prefix_text::{Prefix, put_number, put_prefix};
use reference_check::Network;
use std::alloc::Global;
use vpc_base::NoMemory;
use vpc_model::{
    Access, Component, Foreign, Id, Phase, Reach, Route, Stop, StopRule, StopText, TableNo, Target,
    TgwRoute, TgwTableNo,
};

// ---- the component

// A route of a route table by its number there.
fn route_at<'a>(n: &'a Network, t: TableNo, k: u32) -> &'a Route
    requires { IsTrue (is_route n.now t k) }
    ensures { let table = table_at n.now t in result.now ≡ slice_index_or table.routes k no_route }
{
    &n.table_at(t).routes.as_slice()[k as usize]
}

// A route of a transit gateway route table by its number there.
fn tgw_route_at<'a>(n: &'a Network, t: TgwTableNo, k: u32) -> &'a TgwRoute
    requires { IsTrue (is_tgw_route n.now t k) }
    ensures { let table = tgw_table_at n.now t in result.now ≡ slice_index_or table.routes k no_tgw_route }
{
    &n.tgw_table_at(t).routes.as_slice()[k as usize]
}

fn target_id(target: &Target) -> &[u8]
    ensures value { result.now ≡ target_id target.now }
    ensures visible { IsTrue (is_id result.now) }
{
    match target {
        Target::Local => b"local",
        Target::Internet(id) => id.bytes(),
        Target::Nat(id) => id.bytes(),
        Target::Transit(id) => id.bytes(),
        Target::Peer(id) => id.bytes(),
        Target::Interface(id) => id.bytes(),
        Target::Other(id) => id.bytes(),
    }
}

// The attachment of a transit gateway route, which is described or not.
fn far_attachment_id<'a>(n: &'a Network, t: TgwTableNo, k: u32) -> &'a [u8]
    requires { IsTrue (has_foreign_text n.now (foreign.FarAttachment t k)) }
    ensures value { result.now ≡ foreign_id n.now (foreign.FarAttachment t k) }
    ensures visible { IsTrue (is_id result.now) }
{
    match &tgw_route_at(n, t, k).attachment {
        Some(id) => id.bytes(),
        None => unreachable!(),
    }
}

fn foreign_id<'a>(n: &'a Network, f: &Foreign) -> &'a [u8]
    requires { IsTrue (has_foreign_text n.now f.now) }
    ensures value { result.now ≡ foreign_id n.now f.now }
    ensures visible { IsTrue (is_id result.now) }
{
    match *f {
        Foreign::Target(t, k) => target_id(&route_at(n, t, k).target),
        Foreign::Nat(g) => n.nat_at(g).id.bytes(),
        Foreign::Peering(x) => n.peering_at(x).id.bytes(),
        Foreign::Attachment(a) => n.attachment_at(a).id.bytes(),
        Foreign::Table(t) => n.tgw_table_at(t).id.bytes(),
        Foreign::FarAttachment(t, k) => far_attachment_id(n, t, k),
    }
}

fn component_id<'a>(n: &'a Network, component: Component) -> &'a [u8]
    requires { IsTrue (has_component n.now component) }
    ensures value { result.now ≡ component_id n.now component }
    ensures visible { IsTrue (is_id result.now) }
{
    match component {
        Component::Interface(i) => n.interface_at(i).id.bytes(),
        Component::Table(t) => n.table_at(t).id.bytes(),
        Component::Target(t, k) => target_id(&route_at(n, t, k).target),
        Component::Acl(a) => n.acl_at(a).id.bytes(),
        Component::Vpc(v) => n.vpc_at(v).id.bytes(),
        Component::Subnet(s) => n.subnet_at(s).id.bytes(),
        Component::InternetGateway(g) => n.igw_at(g).id.bytes(),
        Component::NatGateway(g) => n.nat_at(g).id.bytes(),
        Component::Peering(x) => n.peering_at(x).id.bytes(),
        Component::Attachment(a) => n.attachment_at(a).id.bytes(),
        Component::TransitTable(t) => n.tgw_table_at(t).id.bytes(),
        Component::Foreign(f) => foreign_id(n, &f),
        Component::Place(p) => place_id(n, &p),
        Component::End(end) => end_id(n, &end),
    }
}

/// The id of the component that stops a packet.
pub fn stop_id<'a>(n: &'a Network, s: &Stop) -> &'a [u8]
    requires { IsTrue (has_text n.now s.now) }
    ensures value { result.now ≡ stop_id n.now s.now }
    ensures visible { IsTrue (is_id result.now) }
{
    component_id(n, s.component())
}

// ---- the rule

/// The rule that stops a packet, as it is printed: the number of an ACL's row, the block or the prefix list of a
/// route, what Block Public Access lets pass, or none.
#[derive(Clone, Copy)]
pub enum RuleWord<'a> {
    Row(u16),
    Block(&'a Prefix),
    List(&'a Id),
    Access(Access),
    None,
}

fn word_of_reach(reach: &Reach) -> RuleWord
    ensures { rule_word result ≡ reach_text reach.now }
{
    match reach {
        Reach::Block(block) => RuleWord::Block(block),
        Reach::List(id) => RuleWord::List(id),
    }
}

fn word_of_rule<'a>(n: &'a Network, rule: StopRule) -> RuleWord<'a>
    requires { IsTrue (has_stop_rule n.now rule) }
    ensures { rule_word result ≡ rule_text n.now rule }
{
    match rule {
        StopRule::None => RuleWord::None,
        StopRule::AclRow(number) => RuleWord::Row(number),
        StopRule::Route(t, k) => word_of_reach(&route_at(n, t, k).reach),
        StopRule::TransitRoute(t, k) => RuleWord::Block(&tgw_route_at(n, t, k).block),
        StopRule::Access(s) => RuleWord::Access(n.access_in(n.subnet_at(s))),
    }
}

/// The rule of a stop.
pub fn rule_of<'a>(n: &'a Network, s: &Stop) -> RuleWord<'a>
    requires { IsTrue (has_text n.now s.now) }
    ensures { rule_word result ≡ stop_rule n.now s.now }
{
    word_of_rule(n, s.rule())
}

fn put_row_number(out: &mut Vec<u8>, number: u16) -> Result<(), NoMemory>
    ensures text { OnOk result (out.new.items ≡ out.old.items ++ decimal number) }
    ensures visible { IsTrue (is_id (decimal number)) }
{
    put_number(out, u128::from(number))
}

fn put_block(out: &mut Vec<u8>, block: &Prefix) -> Result<(), NoMemory>
    ensures text { OnOk result (out.new.items ≡ out.old.items ++ block_text block.now) }
    ensures visible { IsTrue (is_id (block_text block.now)) }
{
    let _ = block.first();
    put_prefix(out, block)
}

fn put_id(out: &mut Vec<u8>, id: &Id) -> Result<(), NoMemory>
    ensures text { OnOk result (out.new.items ≡ out.old.items ++ id.now) }
    ensures visible { IsTrue (is_id id.now) }
{
    put(out, id.bytes())
}

/// A mode of Block Public Access, as it is printed.
pub fn access_text(access: Access) -> &'static [u8]
    ensures text { result.now ≡ access_text access }
    ensures visible { IsTrue (is_id result.now) }
{
    match access {
        Access::Off => b"off",
        Access::BlockIngress => b"block-ingress",
        Access::BlockBidirectional => b"block-bidirectional",
    }
}

fn put_rule(out: &mut Vec<u8>, rule: RuleWord) -> Result<(), NoMemory>
    ensures text { OnOk result (out.new.items ≡ out.old.items ++ rule_word rule.entry) }
    ensures visible { IsTrue (is_id (rule_word rule.entry)) }
{
    match rule {
        RuleWord::Row(number) => put_row_number(out, number),
        RuleWord::Block(block) => put_block(out, block),
        RuleWord::List(id) => put_id(out, id),
        RuleWord::Access(access) => put(out, access_text(access)),
        RuleWord::None => put(out, b"-"),
    }
}

/// Appends the rule that stops a packet, or a dash.
pub fn put_stop_rule(out: &mut Vec<u8>, n: &Network, s: &Stop) -> Result<(), NoMemory>
    requires { IsTrue (has_text n.now s.now) }
    ensures text { OnOk result (out.new.items ≡ out.old.items ++ stop_rule n.now s.now) }
    ensures visible { IsTrue (is_id (stop_rule n.now s.now)) }
{
    put_rule(out, rule_of(n, s))
}

// ---- all of it

// A text that is an id.
fn id_of(alloc: Global, text: &[u8]) -> Result<Id, NoMemory>
    requires { IsTrue (is_id text.now) }
    ensures { IfOk result (λ id. id ≡ text.now) }
{
    match Id::of(alloc, text)? {
        Some(id) => Ok(id),
        None => unreachable!(),
    }
}

fn rule_id(alloc: Global, n: &Network, s: &Stop) -> Result<Id, NoMemory>
    requires { IsTrue (has_text n.now s.now) }
    ensures { IfOk result (λ id. id ≡ stop_rule n.now s.now) }
{
    let mut rule = Vec::new(alloc);
    put_stop_rule(&mut rule, n, s)?;
    id_of(alloc, rule.as_slice())
}

/// What is told of a stop in a phase.
pub fn stop_text(alloc: Global, n: &Network, phase: Phase, s: &Stop) -> Result<StopText, NoMemory>
    requires { IsTrue (has_text n.now s.now) }
    ensures told { IfOk result (λ t. t ≡ told_stop n.now phase s.now) }
    // Both are ids, as those of the network and the texts of numbers and blocks are.
    ensures id { IfOk result (λ t. IsTrue (is_id t.id)) }
    ensures rule { IfOk result (λ t. IsTrue (is_id t.rule)) }
{
    Ok(StopText {
        phase,
        name: s.name(),
        id: id_of(alloc, stop_id(n, s))?,
        rule: rule_id(alloc, n, s)?,
    })
}
