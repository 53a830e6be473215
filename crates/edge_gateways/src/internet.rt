// Non-routable addresses: the internet carries no packet from or to them.
ghost use Rattle.std.specs.Prelude.{◌≡◌, ◌||◌};
ghost use Rattle.address_sets.specs.Runs.{AreRuns, IsStretch};
ghost use Rattle.box_images.specs.Answers.{Answers};
ghost use Rattle.box_images.specs.Fields.{number_of};
ghost use Rattle.box_images.specs.Images.{IsImageOfWalk, IsValidImage, header_at};
ghost use Rattle.cut_laws.specs.Dividing.{Divide, DivideTurns};
ghost use Rattle.image_tests.specs.Tests.{IsAddressSide};
ghost use Rattle.vpc_model.specs.Cuts.{fixed_cuts};
ghost use Rattle.vpc_model.specs.Internet.{is_unroutable};

use address_sets::Run;
use box_images::{Image, Part, Side};
use image_tests::{low_on, up_to};

// 0.0.0.0/8, 10.0.0.0/8, 127.0.0.0/8, 169.254.0.0/16, 172.16.0.0/12, 192.168.0.0/16 and 224.0.0.0/3
// (this project's profile).
const UNROUTABLE: [Run; 7] = [
    Run {
        first: 0,
        last: 0x00FF_FFFF,
    },
    Run {
        first: 0x0A00_0000,
        last: 0x0AFF_FFFF,
    },
    Run {
        first: 0x7F00_0000,
        last: 0x7FFF_FFFF,
    },
    Run {
        first: 0xA9FE_0000,
        last: 0xA9FE_FFFF,
    },
    Run {
        first: 0xAC10_0000,
        last: 0xAC1F_FFFF,
    },
    Run {
        first: 0xC0A8_0000,
        last: 0xC0A8_FFFF,
    },
    Run {
        first: 0xE000_0000,
        last: 0xFFFF_FFFF,
    },
];

// How far the addresses from this one on are alike: the last of them, and whether the runs have them.
fn stretch(runs: &[Run], a: u32) -> (u32, bool)
    requires { AreRuns runs.now }
    ensures { IsStretch runs.now a result }
{
    for run in runs {
        if a < run.first {
            return (run.first - 1, false);
        }
        if a <= run.last {
            return (run.last, true);
        }
    }
    (u32::MAX, false)
}

/// Whether the internet carries no packet from or to the address. It takes no memory.
pub fn unroutable(a: u32) -> bool
    ensures { result ≡ is_unroutable a }
{
    stretch(&UNROUTABLE, a).1
}

// Whether the source or the destination is such an address.
fn side_on(i: &Image, side: Side) -> Part<bool>
    requires valid { IsValidImage i.now }
    requires walk { IsImageOfWalk i.now }
    requires address { IsAddressSide side }
    ensures { Answers (DivideTurns is_unroutable)
        (λ h. is_unroutable (number_of (header_at i.now h) side)) i.now.part result }
{
    let low = low_on(i, side);
    let (last, told) = stretch(&UNROUTABLE, low);
    Part {
        body: up_to(i, side, low, last),
        told,
    }
}

/// Whether the internet carries no packet from the source or none to the destination, which is asked
/// where the source passes.
pub fn unroutable_on(i: &Image) -> Part<bool>
    requires valid { IsValidImage i.now }
    requires walk { IsImageOfWalk i.now }
    ensures { Answers (Divide fixed_cuts)
        (λ h. let carried = header_at i.now h in is_unroutable carried.src || is_unroutable carried.dst)
        i.now.part result }
{
    let source = side_on(i, Side::Src);
    if source.told {
        return source;
    }
    side_on(&i.within(&source.body), Side::Dst)
}
