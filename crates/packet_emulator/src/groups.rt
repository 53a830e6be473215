// How a packet passes the groups of an interface.
ghost use Rattle.std.specs.Prelude.{◌≡◌, ◌≤◌, ◌<◌, ◌+◌, ◌^◌, IsTrue, None, Some};
ghost use Rattle.vpc_model.specs.Connections.{label_passing, open_passing, passing_of};
ghost use Rattle.vpc_base.specs.declared.headers.Label.TheVariants as labels;
ghost use Rattle.vpc_model.specs.Groups.{first_rule};
ghost use Rattle.vpc_model.specs.Lookup.{interface_at};
ghost use Rattle.vpc_model.specs.Sound.{is_eni};

use conn_tracking::{Entry, Tracker};
use fabric::Fabric;
use fabric::rows::interface_at;
use vpc_base::{Dir, Header, Label};
use vpc_model::{By, EniNo, RuleRef, far_address};

// The first rule of an interface's groups that allows the packet.
fn rule_of(f: &Fabric, i: EniNo, dir: Dir, h: &Header) -> Option<RuleRef>
    requires { IsTrue (is_eni f.now i) }
    ensures { result ≡ first_rule f.now (interface_at f.now i) dir h.now }
{
    fits(far_address(dir, h));
    f.groups().allows(i, dir, h)
}

// Says what the type says of an address that is behind a reference.
fn fits(address: u32)
    ensures { address < 2 ^ 32 }
{
    let _ = address;
}

// An open passes by a rule, and makes a connection.
fn pass_open<T: Tracker>(conns: &mut T, e: Entry, rule: Option<RuleRef>) -> Option<By>
    requires { 0 < T.spare conns.old }
    ensures by { let p = open_passing (T.conns conns.old) e rule in result ≡ p.by }
    ensures conns { let p = open_passing (T.conns conns.old) e rule in T.conns conns.new ≡ p.conns }
    ensures spare { T.spare conns.old ≤ T.spare conns.new + 1 }
{
    match rule {
        Some(rule) => {
            conns.add(e);
            Some(By::Rule(rule))
        }
        None => None,
    }
}

// An answer that isn't tracked passes by a rule.
fn pass_answer<T: Tracker>(f: &Fabric, i: EniNo, dir: Dir, h: &Header, conns: &T) -> Option<By>
    requires { IsTrue (is_eni f.now i) }
    ensures { let p = label_passing f.now labels.Answer i dir h.now (T.conns conns.now)
        in result ≡ p.by }
{
    if conns.tracked(i, dir, h) {
        return Some(By::Tracked);
    }
    match rule_of(f, i, dir, h) {
        Some(rule) => Some(By::Rule(rule)),
        None => None,
    }
}

fn pass_label<T: Tracker>(
    f: &Fabric,
    label: Label,
    i: EniNo,
    dir: Dir,
    h: &Header,
    conns: &mut T,
) -> Option<By>
    requires eni { IsTrue (is_eni f.now i) }
    requires room { 0 < T.spare conns.old }
    ensures by { let p = label_passing f.now label i dir h.now (T.conns conns.old)
        in result ≡ p.by }
    ensures conns { let p = label_passing f.now label i dir h.now (T.conns conns.old)
        in T.conns conns.new ≡ p.conns }
    ensures spare { T.spare conns.old ≤ T.spare conns.new + 1 }
{
    match label {
        Label::Opening => {
            let rule = rule_of(f, i, dir, h);
            let e = Entry {
                eni: i,
                dir,
                header: *h,
            };
            pass_open(conns, e, rule)
        }
        Label::Answer => pass_answer(f, i, dir, h, conns),
    }
}

/// By what a packet passes the groups of an interface, if they let it (VPC User Guide, "Security groups"). An
/// interface without groups lets everything pass.
pub fn pass<T: Tracker>(
    f: &Fabric,
    label: Label,
    i: EniNo,
    dir: Dir,
    h: &Header,
    conns: &mut T,
) -> Option<By>
    requires eni { IsTrue (is_eni f.now i) }
    requires room { 0 < T.spare conns.old }
    ensures by { let p = passing_of f.now label i dir h.now (T.conns conns.old) in result ≡ p.by }
    ensures conns { let p = passing_of f.now label i dir h.now (T.conns conns.old)
        in T.conns conns.new ≡ p.conns }
    ensures spare { T.spare conns.old ≤ T.spare conns.new + 1 }
{
    match interface_at(f, i).groups.as_slice() {
        [] => Some(By::NoGroups),
        _ => pass_label(f, label, i, dir, h, conns),
    }
}
