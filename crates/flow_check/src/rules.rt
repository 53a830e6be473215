// What the rules say of the packets of a flow at an interface.
ghost use Rattle.std.specs.Prelude.{◌≡◌, ◌<◌, ◌^◌, IsTrue, option_map};
ghost use Rattle.vpc_model.specs.declared.outcomes.By.TheVariants as bys;
ghost use Rattle.vpc_base.specs.Dir.{opposite};
ghost use Rattle.vpc_model.specs.Groups.{first_rule};
ghost use Rattle.vpc_model.specs.Lookup.{interface_at};
ghost use Rattle.vpc_model.specs.Sound.{is_eni};
ghost use Rattle.flow_check.specs.Rules.{acl_stop, border_stop, connection_stop, groups_pass, groups_stop, met_first, other_way_passes};

use fabric::Fabric;
use fabric::rows::{interface_at, subnet_of};
use vpc_base::{Dir, Header};
use vpc_model::{By, EniNo, RuleRef, Stop, far_address};

// ---- the ACL

// The stop of the ACL of an interface's subnet, if it refuses the packet (VPC User Guide, "Network ACLs").
fn acl_stop(f: &Fabric, i: EniNo, dir: Dir, h: &Header) -> Option<Stop>
    requires { IsTrue (is_eni f.now i) }
    ensures { result ≡ acl_stop f.now i dir h.now }
{
    let n = f.network();
    let _ = n.description();
    let a = n.acl_of(subnet_of(f, i));
    match (f.acl(a).decide(dir, h), dir) {
        ((true, _), _) => None,
        ((false, rule), Dir::Inward) => Some(Stop::AclIn(a, rule)),
        ((false, rule), Dir::Outward) => Some(Stop::AclOut(a, rule)),
    }
}

/// The stop of the ACL of an interface's subnet, where the packet crosses the border of the subnet: between neighbours no
/// ACL is evaluated (VPC User Guide, "Network ACLs").
pub fn border_stop(f: &Fabric, i: EniNo, dir: Dir, h: &Header, inside: bool) -> Option<Stop>
    requires { IsTrue (is_eni f.now i) }
    ensures { result ≡ border_stop f.now i dir h.now inside }
{
    if inside { None } else { acl_stop(f, i, dir, h) }
}

// ---- the groups

// Says what the type says of an address that is behind a reference.
fn fits(address: u32)
    ensures { address < 2 ^ 32 }
{
    let _ = address;
}

fn first_rule(f: &Fabric, i: EniNo, dir: Dir, h: &Header) -> Option<RuleRef>
    requires { IsTrue (is_eni f.now i) }
    ensures { result ≡ first_rule f.now (interface_at f.now i) dir h.now }
{
    fits(far_address(dir, h));
    f.groups().allows(i, dir, h)
}

fn by_rule(rule: Option<RuleRef>) -> Option<By>
    ensures { result ≡ option_map (λ r. bys.Rule r) rule }
{
    match rule {
        Some(rule) => Some(By::Rule(rule)),
        None => None,
    }
}

/// By what the groups of an interface let a packet pass that belongs to no connection; those of an interface without
/// groups let everything pass (VPC User Guide, "Security groups").
pub fn groups_pass(f: &Fabric, i: EniNo, dir: Dir, h: &Header) -> Option<By>
    requires { IsTrue (is_eni f.now i) }
    ensures { result ≡ groups_pass f.now i dir h.now }
{
    match interface_at(f, i).groups.as_slice() {
        [] => Some(By::NoGroups),
        _ => by_rule(first_rule(f, i, dir, h)),
    }
}

fn opposite(dir: Dir) -> Dir
    ensures { result ≡ opposite dir }
{
    match dir {
        Dir::Inward => Dir::Outward,
        Dir::Outward => Dir::Inward,
    }
}

fn other_way_passes(f: &Fabric, i: EniNo, dir: Dir, h: &Header) -> bool
    requires { IsTrue (is_eni f.now i) }
    ensures { result ≡ other_way_passes f.now i dir h.now }
{
    match h.reply() {
        Some(reply) => groups_pass(f, i, opposite(dir), &reply).is_some(),
        None => false,
    }
}

fn groups_stop(i: EniNo, dir: Dir) -> Stop
    ensures { result ≡ groups_stop i dir }
{
    match dir {
        Dir::Inward => Stop::GroupsIn(i),
        Dir::Outward => Stop::GroupsOut(i),
    }
}

/// The stop of the groups of an interface, unless they let the packet pass or its reply the other way: then it belongs to
/// a connection, whichever side opened it.
pub fn connection_stop(f: &Fabric, i: EniNo, dir: Dir, h: &Header) -> Option<Stop>
    requires { IsTrue (is_eni f.now i) }
    ensures { result ≡ connection_stop f.now i dir h.now }
{
    if groups_pass(f, i, dir, h).is_some() || other_way_passes(f, i, dir, h) {
        None
    } else {
        Some(groups_stop(i, dir))
    }
}

/// The stop that a packet meets first: the ACL stands before the groups on its way in, and behind them on its way out.
pub fn met_first(dir: Dir, border: Option<Stop>, groups: Option<Stop>) -> Option<Stop>
    ensures { result ≡ met_first dir border groups }
{
    match dir {
        Dir::Inward => border.or(groups),
        Dir::Outward => groups.or(border),
    }
}
