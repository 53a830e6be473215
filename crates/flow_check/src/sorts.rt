// What becomes of a line of a flow log.
ghost use Rattle.std.specs.Prelude.{◌≡◌, IfSome, IsTrue, is_some};
ghost use Rattle.vpc_model.specs.Lookup.{eni_no, has_address, has_interface, interface_at, subnet_of, vpc_of_subnet};
ghost use Rattle.vpc_model.specs.Sound.{is_eni, is_vpc};
ghost use Rattle.vpc_model.specs.Step.Crossing.{is_gateway};
ghost use Rattle.flow_check.specs.Owners.{is_near, is_own};
ghost use Rattle.flow_check.specs.Rules.{direction_of, is_neighbour, one_of};
ghost use Rattle.flow_check.specs.Sorts.{accepted_by, header_of, judged_at, refused_by, sort_at, sort_between, sort_of, sort_towards};

use crate::kinds::FlowKind;
use crate::records::{Action, Flow, Ports, Record, has_ports};
use crate::rules::{border_stop, connection_stop, groups_pass, met_first};
use fabric::Fabric;
use fabric::rows::{interface_at, subnet_of, vpc_of};
use vpc_base::{Dir, Header};
use vpc_model::{By, EniNo, InterfaceKind, Stop, VpcNo};

/// What becomes of a line.
#[derive(Clone, Copy)]
pub enum Sort {
    NoData,
    SkipData,
    /// Its interface isn't described.
    Unknown,
    /// The rules say nothing of it.
    Skipped,
    /// What it says was done is what the rules say.
    Agrees,
    Differs(FlowKind),
}

// ---- by the rules

fn accepted_by(stop: Option<Stop>) -> Sort
    ensures { result ≡ accepted_by stop }
{
    match stop {
        Some(stop) => Sort::Differs(FlowKind::Accepted(stop)),
        None => Sort::Agrees,
    }
}

fn refused_by(by: Option<By>) -> Sort
    ensures { result ≡ refused_by by }
{
    match by {
        Some(by) => Sort::Differs(FlowKind::Rejected(by)),
        None => Sort::Agrees,
    }
}

fn judge_accepted(f: &Fabric, i: EniNo, dir: Dir, h: &Header, inside: bool) -> Sort
    requires { IsTrue (is_eni f.now i) }
    ensures { result ≡ judged_at f.now i dir h.now Action.Accept inside }
{
    let border = border_stop(f, i, dir, h, inside);
    let groups = connection_stop(f, i, dir, h);
    accepted_by(met_first(dir, border, groups))
}

fn judge_rejected(f: &Fabric, i: EniNo, dir: Dir, h: &Header, inside: bool) -> Sort
    requires { IsTrue (is_eni f.now i) }
    ensures { result ≡ judged_at f.now i dir h.now Action.Reject inside }
{
    match border_stop(f, i, dir, h, inside) {
        Some(_) => Sort::Agrees,
        None => refused_by(groups_pass(f, i, dir, h)),
    }
}

fn judge_at(f: &Fabric, i: EniNo, dir: Dir, h: &Header, action: Action, inside: bool) -> Sort
    requires { IsTrue (is_eni f.now i) }
    ensures { result ≡ judged_at f.now i dir h.now action inside }
{
    match action {
        Action::Accept => judge_accepted(f, i, dir, h, inside),
        Action::Reject => judge_rejected(f, i, dir, h, inside),
    }
}

// ---- by the flow

fn is_gateway(kind: InterfaceKind) -> bool
    ensures { result ≡ is_gateway kind }
{
    match kind {
        InterfaceKind::Host => false,
        InterfaceKind::Gateway => true,
    }
}

fn one_of(src: bool, dst: bool) -> Option<Dir>
    ensures { result ≡ one_of src dst }
{
    match (src, dst) {
        (true, false) => Some(Dir::Outward),
        (false, true) => Some(Dir::Inward),
        (true, true) => None,
        (false, false) => None,
    }
}

// ---- by its addresses

// The interface of the VPC that has an address: one look-up tells whose the address is, and of which subnet.
fn owner(f: &Fabric, i: EniNo, v: VpcNo, address: u32) -> Option<EniNo>
    requires interface { IsTrue (is_eni f.now i) }
    requires vpc { v ≡ vpc_of_subnet f.now (subnet_of f.now i) }
    requires lies { IsTrue (is_vpc f.now v) }
    ensures own { has_address (interface_at f.now i) address ≡ is_own i result }
    ensures near { is_neighbour f.now (interface_at f.now i) address ≡ is_near f.now i result }
    ensures described { IfSome result (λ j. IsTrue (is_eni f.now j)) }
{
    let n = f.network();
    let _ = n.description();
    n.host(v, address)
}

// Whether an address is the interface's own.
fn is_own(i: EniNo, owner: Option<EniNo>) -> bool
    ensures { result ≡ is_own i owner }
{
    match owner {
        Some(j) => j.0 == i.0,
        None => false,
    }
}

// Whether it is that of an interface of the same subnet.
fn is_near(f: &Fabric, i: EniNo, owner: Option<EniNo>) -> bool
    requires interface { IsTrue (is_eni f.now i) }
    requires owner { IfSome owner (λ j. IsTrue (is_eni f.now j)) }
    ensures { result ≡ is_near f.now i owner }
{
    match owner {
        Some(j) => interface_at(f, j).subnet.bytes() == interface_at(f, i).subnet.bytes(),
        None => false,
    }
}

fn sort_header(f: &Fabric, i: EniNo, h: &Header, action: Action) -> Sort
    requires { IsTrue (is_eni f.now i) }
    ensures { result ≡ sort_towards f.now i h.now action
        (direction_of (interface_at f.now i) h.now.src h.now.dst) }
{
    let v = vpc_of(f, subnet_of(f, i));
    let src = owner(f, i, v, h.src);
    let dst = owner(f, i, v, h.dst);
    match one_of(is_own(i, src), is_own(i, dst)) {
        Some(Dir::Inward) => judge_at(f, i, Dir::Inward, h, action, is_near(f, i, src)),
        Some(Dir::Outward) => judge_at(f, i, Dir::Outward, h, action, is_near(f, i, dst)),
        None => Sort::Skipped,
    }
}

fn header_of(ports: &Ports, src: u32, dst: u32) -> Header
    ensures { result ≡ header_of ports.now src dst }
{
    Header {
        proto: ports.proto,
        src,
        dst,
        p: ports.p,
        q: ports.q,
    }
}

// IPv6 is not judged.
fn sort_between(f: &Fabric, i: EniNo, flow: &Flow) -> Sort
    requires { IsTrue (is_eni f.now i) }
    ensures { result ≡ sort_between f.now i flow.now.ports flow.now.action flow.now.src flow.now.dst }
{
    let Some(src) = flow.src else {
        return Sort::Skipped;
    };
    let Some(dst) = flow.dst else {
        return Sort::Skipped;
    };
    sort_header(f, i, &header_of(&flow.ports, src, dst), flow.action)
}

fn sort_at(f: &Fabric, i: EniNo, flow: &Flow) -> Sort
    requires { IsTrue (is_eni f.now i) }
    ensures { result ≡ sort_at f.now i flow.now }
{
    if is_gateway(interface_at(f, i).kind) || !has_ports(flow.ports.proto) {
        Sort::Skipped
    } else {
        sort_between(f, i, flow)
    }
}

// The interface with this id.
fn eni_named(f: &Fabric, id: &[u8]) -> Option<EniNo>
    ensures found { is_some result ≡ has_interface f.now id.now }
    ensures number { IfSome result (λ i. i ≡ eni_no f.now id.now) }
    ensures described { IfSome result (λ i. IsTrue (is_eni f.now i)) }
{
    f.network().eni(id)
}

/// What becomes of a line. It takes no memory: one look-up of its interface by id, two of its addresses, and the
/// indexes of the rules.
pub fn sort_of(f: &Fabric, record: &Record) -> Sort
    ensures { result ≡ sort_of f.now record.now }
{
    match record {
        Record::NoData => Sort::NoData,
        Record::SkipData => Sort::SkipData,
        Record::Seen(flow) => match eni_named(f, flow.eni.bytes()) {
            Some(i) => sort_at(f, i, flow),
            None => Sort::Unknown,
        },
    }
}
