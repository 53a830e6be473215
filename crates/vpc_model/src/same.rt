// Whether two stops, or two verdicts, are one.
ghost use Rattle.std.specs.Prelude.{◌≡◌, ◌↔◌, IsTrue};

use crate::{Component, End, Foreign, Phase, Place, Stop, StopName, StopRule, Verdict};

fn same_name(a: StopName, b: StopName) -> bool
    ensures { IsTrue result ↔ (a ≡ b) }
{
    a == b
}

fn same_place(a: Place, b: Place) -> bool
    ensures { IsTrue result ↔ (a ≡ b) }
{
    a == b
}

fn same_end(a: End, b: End) -> bool
    ensures { IsTrue result ↔ (a ≡ b) }
{
    a == b
}

fn same_foreign(a: Foreign, b: Foreign) -> bool
    ensures { IsTrue result ↔ (a ≡ b) }
{
    a == b
}

fn same_component(a: Component, b: Component) -> bool
    ensures { IsTrue result ↔ (a ≡ b) }
{
    match (a, b) {
        (Component::Interface(x), Component::Interface(y)) => x == y,
        (Component::Table(x), Component::Table(y)) => x == y,
        (Component::Target(t, x), Component::Target(u, y)) => t == u && x == y,
        (Component::Acl(x), Component::Acl(y)) => x == y,
        (Component::Vpc(x), Component::Vpc(y)) => x == y,
        (Component::Subnet(x), Component::Subnet(y)) => x == y,
        (Component::InternetGateway(x), Component::InternetGateway(y)) => x == y,
        (Component::NatGateway(x), Component::NatGateway(y)) => x == y,
        (Component::Peering(x), Component::Peering(y)) => x == y,
        (Component::Attachment(x), Component::Attachment(y)) => x == y,
        (Component::TransitTable(x), Component::TransitTable(y)) => x == y,
        (Component::Foreign(x), Component::Foreign(y)) => same_foreign(x, y),
        (Component::Place(x), Component::Place(y)) => same_place(x, y),
        (Component::End(x), Component::End(y)) => same_end(x, y),
        _ => false,
    }
}

fn same_rule(a: StopRule, b: StopRule) -> bool
    ensures { IsTrue result ↔ (a ≡ b) }
{
    a == b
}

/// Whether two stops are one: of one name, by one component and one rule of it.
pub fn same_stop(a: &Stop, b: &Stop) -> bool
    ensures { IsTrue result ↔ (a.now ≡ b.now) }
{
    let a = a.parts();
    let b = b.parts();
    same_name(a.0, b.0) && (same_component(a.1, b.1) && same_rule(a.2, b.2))
}

fn same_phase(a: Phase, b: Phase) -> bool
    ensures { IsTrue result ↔ (a ≡ b) }
{
    a == b
}

/// Whether two verdicts are one: both let the request through, or both stop it in one phase by one stop.
pub fn same_verdict(a: &Verdict, b: &Verdict) -> bool
    ensures { IsTrue result ↔ (a.now ≡ b.now) }
{
    match (a, b) {
        (Verdict::Through, Verdict::Through) => true,
        (Verdict::Stopped(p, s), Verdict::Stopped(q, t)) => same_phase(*p, *q) && same_stop(s, t),
        (Verdict::Through, Verdict::Stopped(..)) => false,
        (Verdict::Stopped(..), Verdict::Through) => false,
    }
}
