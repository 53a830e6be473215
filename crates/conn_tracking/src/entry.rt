// One tracked connection, and tests of lists of them.
ghost use Rattle.std.specs.Prelude.{◌≡◌, refl};
ghost use Rattle.std.specs.Cmp.{eq_by_cmp_equiv, partial_equiv_from_equiv, partial_order_from_total};
ghost use Rattle.std.specs.List.{list_any};
ghost use Rattle.std.specs.Ordering.{as_partial_cmp, eq_by_cmp};
ghost use Rattle.vpc_base.specs.Dir as dirs;
ghost use Rattle.vpc_model.specs.Connections.{same_connection};
ghost use Rattle.conn_tracking.specs.Order.{dir_is_outward, order_of_connections, order_of_connections_total};

use crate::order_by_ports;
use std::cmp::Ordering;
use std::marker::Model;
use vpc_base::{Dir, Header};
use vpc_model::EniNo;

/// An open that passed the security groups of an interface in a direction. Contracts see it as the
/// model's `Connection`.
#[derive(Clone, Copy)]
pub struct Entry {
    pub eni: EniNo,
    pub dir: Dir,
    pub header: Header,
}

impl Model for Entry {
    ghost use Rattle.vpc_model.specs.Connections.{Connection};

    ghost Value = { Connection };

    ghost view = { λ e. record { eni = e.eni; dir = e.dir; header = e.header } };

    ghost inverse = { λ c. record { eni = c.eni; dir = c.dir; header = c.header } };
}

/// No connection of a session: it fills the places of a list of fixed length.
impl Default for Entry {
    fn default() -> Entry {
        Entry {
            eni: EniNo::default(),
            dir: Dir::Inward,
            header: Header::default(),
        }
    }
}

/// By header, then interface, then direction.
impl Ord for Entry {
    ghost cmp = { order_of_connections };

    ghost total = { order_of_connections_total };

    ghost matches_partial_cmp = { λ a b. refl };

    ghost matches_eq = { λ a b. refl };

    #[inline]
    fn cmp(&self, other: &Entry) -> Ordering {
        let headers = order_by_ports(&self.header, &other.header);
        let interfaces = Ordering::or_cmp(headers, &self.eni.0, &other.eni.0);
        Ordering::or_cmp(interfaces, &is_outward(self.dir), &is_outward(other.dir))
    }
}

impl PartialOrd for Entry {
    ghost partial_cmp = { as_partial_cmp order_of_connections };

    ghost laws = { partial_order_from_total order_of_connections_total };

    fn partial_cmp(&self, other: &Entry) -> Option<Ordering> {
        Some(self.cmp(other))
    }
}

impl PartialEq for Entry {
    ghost eq = { eq_by_cmp order_of_connections };

    ghost laws = { partial_equiv_from_equiv (eq_by_cmp_equiv order_of_connections_total) };

    fn eq(&self, other: &Entry) -> bool {
        matches!(self.cmp(other), Ordering::Equal)
    }
}

impl Eq for Entry {
    ghost laws = { eq_by_cmp_equiv order_of_connections_total };
}

fn is_outward(dir: Dir) -> bool
    ensures { result ≡ dir_is_outward dir }
{
    match dir {
        Dir::Inward => false,
        Dir::Outward => true,
    }
}

/// The other direction.
pub(crate) fn opposite(dir: Dir) -> Dir
    ensures { result ≡ dirs.opposite dir }
{
    match dir {
        Dir::Inward => Dir::Outward,
        Dir::Outward => Dir::Inward,
    }
}

/// Whether the entry is in the list.
pub(crate) fn is_among(entries: &[Entry], e: &Entry) -> bool
    ensures { result ≡ list_any (same_connection e.now) entries.now }
{
    entries.iter().any(|other| is_same(e, other))
}

fn is_same(a: &Entry, b: &Entry) -> bool
    ensures { result ≡ same_connection a.now b.now }
{
    matches!(a.cmp(b), Ordering::Equal)
}
