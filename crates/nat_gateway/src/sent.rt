// Keys of tables.
ghost use Rattle.std.specs.Prelude.{◌≡◌, refl};
ghost use Rattle.std.specs.Cmp.{eq_by_cmp_equiv, partial_equiv_from_equiv, partial_order_from_total};
ghost use Rattle.std.specs.Ordering.{as_partial_cmp, eq_by_cmp};
ghost use Rattle.nat_gateway.specs.Sent.{flow_of, order_of_sent, order_of_sent_total, with_port};

use conn_tracking::order_by_ports;
use std::cmp::Ordering;
use vpc_base::Header;
use vpc_model::NatNo;

/// A header at a NAT gateway.
#[derive(Clone, Copy)]
pub struct Sent {
    pub nat: NatNo,
    pub header: Header,
}

impl Sent {
    /// What the translations have in common that must not share a port: all that they change is left out.
    pub fn flow(nat: NatNo, h: &Header) -> Sent
        ensures { result ≡ flow_of nat h.now }
    {
        let header = Header { src: 0, p: 0, ..*h };
        Sent { nat, header }
    }

    pub fn with_port(&self, port: u16) -> Sent
        ensures { result ≡ with_port self.now port }
    {
        let header = Header {
            p: port,
            ..self.header
        };
        Sent {
            nat: self.nat,
            header,
        }
    }
}

/// By header, then gateway.
impl Ord for Sent {
    ghost cmp = { order_of_sent };

    ghost total = { order_of_sent_total };

    ghost matches_partial_cmp = { λ a b. refl };

    ghost matches_eq = { λ a b. refl };

    #[inline]
    fn cmp(&self, other: &Sent) -> Ordering {
        let headers = order_by_ports(&self.header, &other.header);
        Ordering::or_cmp(headers, &self.nat.0, &other.nat.0)
    }
}

impl PartialOrd for Sent {
    ghost partial_cmp = { as_partial_cmp order_of_sent };

    ghost laws = { partial_order_from_total order_of_sent_total };

    fn partial_cmp(&self, other: &Sent) -> Option<Ordering> {
        Some(self.cmp(other))
    }
}

impl PartialEq for Sent {
    ghost eq = { eq_by_cmp order_of_sent };

    ghost laws = { partial_equiv_from_equiv (eq_by_cmp_equiv order_of_sent_total) };

    fn eq(&self, other: &Sent) -> bool {
        matches!(self.cmp(other), Ordering::Equal)
    }
}

impl Eq for Sent {
    ghost laws = { eq_by_cmp_equiv order_of_sent_total };
}
