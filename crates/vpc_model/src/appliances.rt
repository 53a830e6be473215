// The boxes of headers that appliances forward.
ghost use Rattle.std.specs.Prelude.{◌≡◌, ◌≤◌, ◌+◌, ◌++◌, ◌∷◌, [], length};
ghost use Rattle.vpc_model.specs.Appliances.{all_headers, boxes_of_block, boxes_of_kind, service_boxes};

use crate::ApplianceKind;
use arrayvec::ArrayVec;
use header_boxes::Box5;
use prefix_text::Prefix;

const TCP: u8 = 6;

const UDP: u8 = 17;

fn every_header() -> Box5
    ensures { result ≡ all_headers }
{
    Box5 {
        proto: (0, u8::MAX),
        src: (0, u32::MAX),
        dst: (0, u32::MAX),
        p: (0, u16::MAX),
        q: (0, u16::MAX),
    }
}

// Adds what goes to and comes from these ports, by one protocol.
fn add_service(boxes: &mut ArrayVec<Box5, 4>, proto: u8, ports: (u16, u16))
    requires { length boxes.old.items + 2 ≤ 4 }
    ensures { boxes.new.items ≡ boxes.old.items ++ service_boxes proto ports }
{
    let by_protocol = Box5 {
        proto: (proto, proto),
        ..every_header()
    };
    boxes.push(Box5 {
        q: ports,
        ..by_protocol
    });
    boxes.push(Box5 {
        p: ports,
        ..by_protocol
    });
}

// TCP and UDP to and from these ports.
fn service(ports: (u16, u16)) -> ArrayVec<Box5, 4>
    ensures { result.items ≡ service_boxes 6 ports ++ service_boxes 17 ports }
{
    let mut boxes = ArrayVec::new();
    add_service(&mut boxes, TCP, ports);
    add_service(&mut boxes, UDP, ports);
    boxes
}

// From and to the addresses of a block.
fn peer(block: &Prefix) -> ArrayVec<Box5, 4>
    ensures { result.items ≡ boxes_of_block block.now }
{
    let addresses = (block.first(), block.last());
    let mut boxes = ArrayVec::new();
    boxes.push(Box5 {
        src: addresses,
        ..every_header()
    });
    boxes.push(Box5 {
        dst: addresses,
        ..every_header()
    });
    boxes
}

fn everything() -> ArrayVec<Box5, 4>
    ensures { result.items ≡ all_headers ∷ [] }
{
    let mut boxes = ArrayVec::new();
    boxes.push(every_header());
    boxes
}

fn nothing() -> ArrayVec<Box5, 4>
    ensures { result.items ≡ [] }
{
    ArrayVec::new()
}

impl ApplianceKind {
    /// The boxes of the headers that an appliance of this kind forwards.
    pub fn boxes(&self) -> ArrayVec<Box5, 4>
        ensures { result.items ≡ boxes_of_kind self.now }
    {
        match self {
            ApplianceKind::All => everything(),
            ApplianceKind::Nothing => nothing(),
            ApplianceKind::Service(from, to) => service((*from, *to)),
            ApplianceKind::Peer(block) => peer(block),
        }
    }
}
