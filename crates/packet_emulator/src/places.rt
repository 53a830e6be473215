// Whether two places are one.
ghost use Rattle.std.specs.Prelude.{◌≡◌};
ghost use Rattle.vpc_model.specs.Walk.{is_visited, same_came, same_enter, same_place};

use vpc_model::{Came, EnterBy, Hop, Place};

fn same_came(a: Came, b: Came) -> bool
    ensures { result ≡ same_came a b }
{
    match (a, b) {
        (Came::Host(i), Came::Host(j)) => i.0 == j.0,
        (Came::Nat(n), Came::Nat(o)) => n.0 == o.0,
        (Came::Transit(x), Came::Transit(y)) => x.0 == y.0,
        (Came::Firewall(e), Came::Firewall(g)) => e.0 == g.0,
        _ => false,
    }
}

fn same_enter(a: EnterBy, b: EnterBy) -> bool
    ensures { result ≡ same_enter a b }
{
    match (a, b) {
        (EnterBy::Gateway, EnterBy::Gateway) => true,
        (EnterBy::Peering(x), EnterBy::Peering(y)) => x.0 == y.0,
        (EnterBy::Far(k), EnterBy::Far(l)) => k.0 == l.0,
        _ => false,
    }
}

/// Whether two places are one. A router that was reached in another way is another place.
pub fn same_place(a: Place, b: Place) -> bool
    ensures { result ≡ same_place a b }
{
    match (a, b) {
        (Place::OutOf(i), Place::OutOf(j)) => i.0 == j.0,
        (Place::Router(s, c), Place::Router(t, e)) => s.0 == t.0 && same_came(c, e),
        (Place::Enter(v, b), Place::Enter(w, c)) => v.0 == w.0 && same_enter(b, c),
        (Place::Into(i), Place::Into(j)) => i.0 == j.0,
        (Place::IgwOut(v), Place::IgwOut(w)) => v.0 == w.0,
        (Place::Internet, Place::Internet) => true,
        (Place::IgwIn(v), Place::IgwIn(w)) => v.0 == w.0,
        (Place::NatOut(n), Place::NatOut(o)) => n.0 == o.0,
        (Place::NatIn(n), Place::NatIn(o)) => n.0 == o.0,
        (Place::Peer(x, v), Place::Peer(y, w)) => x.0 == y.0 && v.0 == w.0,
        (Place::Tgw(x, s), Place::Tgw(y, t)) => x.0 == y.0 && s.0 == t.0,
        (Place::TgwLeave(x, s), Place::TgwLeave(y, t)) => x.0 == y.0 && s.0 == t.0,
        (Place::FarOut(k), Place::FarOut(l)) => k.0 == l.0,
        (Place::FarIn(k), Place::FarIn(l)) => k.0 == l.0,
        (Place::Inspect(e), Place::Inspect(g)) => e.0 == g.0,
        _ => false,
    }
}

/// Whether the place is among the hops.
pub fn is_visited(hops: &[Hop], place: Place) -> bool
    ensures { result ≡ is_visited hops.now place }
{
    hops.iter().any(|h| same_place(h.place, place))
}
