// The order in which headers are looked up.
ghost use Rattle.std.specs.Prelude.{◌≡◌};
ghost use Rattle.conn_tracking.specs.Order.{order_by_ports};

use std::cmp::Ordering;
use vpc_base::Header;

/// An order of headers for look-ups: by `p`, then `q`, destination, source and protocol. A field is read only where
/// those before it are equal, and the headers of a session differ in `p` more often than in any other.
#[inline]
pub fn order_by_ports(a: &Header, b: &Header) -> Ordering
    ensures { result ≡ order_by_ports a.now b.now }
{
    let order = a.p.cmp(&b.p);
    let order = Ordering::or_cmp(order, &a.q, &b.q);
    let order = Ordering::or_cmp(order, &a.dst, &b.dst);
    let order = Ordering::or_cmp(order, &a.src, &b.src);
    Ordering::or_cmp(order, &a.proto, &b.proto)
}
