// Products over the five sides of a box.
ghost use Rattle.std.specs.Prelude.{◌≡◌, ◌≤◌, ◌*◌, ◌^◌};

/// The product of a number for each side, each at most the size of that side's field, which is at most
/// 2^104.
#[tactic(auto, using(crate::proofs::SideProducts::two_sides, crate::proofs::SideProducts::three_sides, crate::proofs::SideProducts::four_sides, crate::proofs::SideProducts::five_sides))]
pub fn product(proto: u64, src: u64, dst: u64, p: u64, q: u64) -> u128
    requires proto { proto ≤ 2 ^ 8 }
    requires src { src ≤ 2 ^ 32 }
    requires dst { dst ≤ 2 ^ 32 }
    requires p { p ≤ 2 ^ 16 }
    requires q { q ≤ 2 ^ 16 }
    ensures value { result ≡ proto * (src * (dst * (p * q))) }
    ensures bound { result ≤ 2 ^ 104 }
{
    let ports = u128::from(p) * u128::from(q);
    let to = u128::from(dst) * ports;
    let from = u128::from(src) * to;
    u128::from(proto) * from
}
