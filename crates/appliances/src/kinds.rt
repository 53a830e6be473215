// What appliances of described kinds forward.
ghost use Rattle.std.specs.Prelude.{◌≡◌, IfOk};
ghost use Rattle.vpc_model.specs.Appliances.{boxes_of_kind, passes};

use header_boxes::Box5;
use std::alloc::Global;
use vpc_base::{Header, NoMemory};
use vpc_model::{ApplianceKind, is_between};

const TCP: u8 = 6;

const UDP: u8 = 17;

/// The boxes of the headers that an appliance of this kind forwards: any header, none, TCP and UDP from and
/// to the ports of a service, or packets from and to the addresses of a block.
pub fn kind_boxes(alloc: Global, kind: &ApplianceKind) -> Result<Vec<Box5>, NoMemory>
    ensures { IfOk result (λ v. v.items ≡ boxes_of_kind kind.now) }
{
    let boxes = kind.boxes();
    Ok(boxes.as_slice().to_vec(alloc)?)
}

/// Whether an appliance of this kind forwards the header, which is so where one of its boxes holds it. It
/// compares fields and makes no box.
pub fn kind_passes(kind: &ApplianceKind, h: &Header) -> bool
    ensures { result ≡ passes (boxes_of_kind kind.now) h.now }
{
    let Header {
        proto,
        src,
        dst,
        p,
        q,
    } = *h;
    match kind {
        ApplianceKind::All => true,
        ApplianceKind::Nothing => false,
        ApplianceKind::Service(from, to) => {
            (proto == TCP || proto == UDP)
                && (is_between(*from, *to, q) || is_between(*from, *to, p))
        }
        ApplianceKind::Peer(block) => block.holds(src) || block.holds(dst),
    }
}
