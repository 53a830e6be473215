// What ACL rows and the rules of security groups compare.
ghost use Rattle.std.specs.Prelude.{◌≡◌};
ghost use Rattle.vpc_model.specs.Filter.{far_address, is_between, matches_proto};

use vpc_base::{Dir, Header};

/// The address at the other side: the source of inbound packets, the destination of outbound ones.
pub fn far_address(dir: Dir, h: &Header) -> u32
    ensures { result ≡ far_address dir h.now }
{
    match dir {
        Dir::Inward => h.src,
        Dir::Outward => h.dst,
    }
}

/// Whether a rule is for the protocol; one without is for every protocol.
pub fn matches_proto(rule: Option<u8>, proto: u8) -> bool
    ensures { result ≡ matches_proto rule proto }
{
    match rule {
        None => true,
        Some(n) => n == proto,
    }
}

/// Whether the number lies between two, both included.
pub fn is_between(from: u16, to: u16, q: u16) -> bool
    ensures { result ≡ is_between from to q }
{
    from <= q && q <= to
}
