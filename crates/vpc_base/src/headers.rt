// Packet headers and their replies.
ghost use Rattle.std.specs.Prelude.{◌≡◌};
ghost use Rattle.vpc_base.specs.Header.{echo, exchanged, opening_of, order_of, reply_of};

use std::cmp::Ordering;

/// The fields of an IPv4 packet that filters and routes look at.
///
/// For TCP (6) and UDP (17) `p` is the source port and `q` the destination port. For ICMP (1) `p` is
/// the identifier and `q` is 256 times the type plus the code. For every other protocol both are 0 in
/// what is read as a packet.
#[derive(Clone, Copy, Debug, PartialEq, Eq, Default)]
pub struct Header {
    pub proto: u8,
    pub src: u32,
    pub dst: u32,
    pub p: u16,
    pub q: u16,
}

/// Whether a packet is the first of its connection or a reply. Only answers consult tracked
/// connections, and only opens make them (a choice of this project's profile).
#[derive(Clone, Copy, Debug, PartialEq, Eq)]
pub enum Label {
    Opening,
    Answer,
}

/// The way in which a packet passes an interface or an ACL, seen from the instance or the subnet.
#[derive(Clone, Copy, Debug, PartialEq, Eq)]
pub enum Dir {
    Inward,
    Outward,
}

const ICMP: u8 = 1;

const ECHO_REQUEST: u16 = 2048;

const ECHO_REPLY: u16 = 0;

impl Header {
    /// The header of a packet that answers this one: addresses exchanged, and ports exchanged or, for
    /// an ICMP echo request (RFC 792, types 8 and 0), the type of an echo reply. Other ICMP messages
    /// have no answer.
    pub fn reply(&self) -> Option<Header>
        ensures { result ≡ reply_of self.now }
    {
        if self.proto != ICMP {
            return Some(self.exchanged());
        }
        if self.q != ECHO_REQUEST {
            return None;
        }
        Some(self.echo(ECHO_REPLY))
    }

    /// The header whose reply this one is, so that which open a packet answers is one look-up: ports
    /// exchanged back or, for an ICMP echo reply, the type of an echo request. Other ICMP messages answer
    /// none.
    pub fn opening(&self) -> Option<Header>
        ensures { result ≡ opening_of self.now }
    {
        if self.proto != ICMP {
            return Some(self.exchanged());
        }
        if self.q != ECHO_REPLY {
            return None;
        }
        Some(self.echo(ECHO_REQUEST))
    }

    fn exchanged(&self) -> Header
        ensures { result ≡ exchanged self.now }
    {
        self.backward(self.q, self.p)
    }

    // The ICMP message of type and code `q` that travels back with the same identifier.
    fn echo(&self, q: u16) -> Header
        ensures { result ≡ echo self.now q }
    {
        self.backward(self.p, q)
    }

    fn backward(&self, p: u16, q: u16) -> Header
        ensures { result ≡
            record { proto = self.now.proto; src = self.now.dst; dst = self.now.src; p = p; q = q } }
    {
        Header {
            proto: self.proto,
            src: self.dst,
            dst: self.src,
            p,
            q,
        }
    }

    /// The order of headers: by protocol, then source, destination, `p` and `q`.
    pub fn order(&self, other: &Header) -> Ordering
        ensures { result ≡ order_of self.now other.now }
    {
        let ports = self.p.cmp(&other.p).then(self.q.cmp(&other.q));
        let addresses = self
            .src
            .cmp(&other.src)
            .then(self.dst.cmp(&other.dst).then(ports));
        self.proto.cmp(&other.proto).then(addresses)
    }
}
