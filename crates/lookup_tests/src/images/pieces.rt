// A body reaches to the end of its piece or its part: worked routes.
ghost use Rattle.std.specs.Prelude.{◌≡◌, ◌≤◌, ◌<◌};
ghost use Rattle.box_images.specs.Images.{IsImageOfWalk, IsValidImage};
ghost use Rattle.header_boxes.specs.Boxes.{IsValid};

use crate::requests::opens;
use box_images::{Image, Part};
use header_boxes::Box5;
use image_tests::piece_on;
use piece_table::{Pieces, Steps};
use std::alloc::Global;
use std::marker::Brand;
use std::sync::ledger::{Blank, Ledger};
use std::test::Fail;

// The routes 0: 10.0.0.0/16, 1: 0.0.0.0/0 and 2: 10.0.2.0/24, of which the longest prefix is told.
fn three_routes(alloc: Global) -> Result<Pieces, Fail> {
    let firsts = vec![in alloc; 0, 0x0A00_0000, 0x0A00_0200, 0x0A00_0300, 0x0A01_0000]?;
    let told = vec![in alloc; Some(1), Some(0), Some(2), Some(0), Some(1)]?;
    Ok(Pieces::of(firsts, told))
}

// Requests over TCP between these addresses.
fn between(src: (u32, u32), dst: (u32, u32)) -> Box5
    requires src { src.0 ≤ src.1 }
    requires dst { dst.0 ≤ dst.1 }
    ensures valid { IsValid result }
    ensures tcp { result.proto ≡ (6, 6) }
{
    Box5 {
        proto: (6, 6),
        src,
        dst,
        p: (1024, 65535),
        q: (443, 443),
    }
}

fn opens_to(part: &Box5, dst: u32) -> Image
    requires { IsValid part.now }
    ensures valid { IsValidImage result }
    ensures walk { IsImageOfWalk result }
{
    Image::of(part).set_dst(dst)
}

// The answers go to the source.
fn answers(part: &Box5) -> Image
    requires valid { IsValid part.now }
    requires tcp { part.now.proto ≡ (6, 6) }
    ensures valid { IsValidImage result }
    ensures walk { IsImageOfWalk result }
{
    let asked = Image::of(part);
    Image {
        src: asked.dst,
        dst: asked.src,
        p: asked.q,
        q: asked.p,
        ..asked
    }
}

// The box with other addresses.
fn body_of(b: &Box5, src: (u32, u32), dst: (u32, u32)) -> Box5 {
    Box5 { src, dst, ..*b }
}

fn told_on<L: Ledger>(blank: Blank, i: &Image, pieces: &Pieces) -> Part<Option<u32>>
    requires name { blank.name ≡ L.name }
    requires parts { blank.parts ≡ L.parts }
    requires some { 0 < blank.parts }
    requires valid { IsValidImage i.now }
    requires walk { IsImageOfWalk i.now }
{
    let mut steps = Steps::<L>::new(blank);
    piece_on(i, pieces, &mut steps)
}

fn on(i: &Image, pieces: &Pieces) -> Part<Option<u32>>
    requires valid { IsValidImage i.now }
    requires walk { IsImageOfWalk i.now }
{
    told_on::<Brand>(Blank::new(1), i, pieces)
}

#[test]
fn tells_of_a_piece(rt: HostRuntime) -> Result<(), Fail> {
    let pieces = three_routes(rt.alloc())?;
    // the addresses of the part, the last one of the body, and what is told
    let cases: [((u32, u32), u32, Option<u32>); 8] = [
        ((0, u32::MAX), 0x09FF_FFFF, Some(1)),
        ((0x09FF_FFFF, 0x0A00_0000), 0x09FF_FFFF, Some(1)),
        ((0x0A00_0000, u32::MAX), 0x0A00_01FF, Some(0)),
        ((0x0A00_0201, 0x0A00_0280), 0x0A00_0280, Some(2)),
        ((0x0A00_0200, 0x0A00_02FF), 0x0A00_02FF, Some(2)),
        ((0x0A00_02FF, 0x0A00_FFFF), 0x0A00_02FF, Some(2)),
        ((0x0A01_0000, u32::MAX), u32::MAX, Some(1)),
        ((u32::MAX, u32::MAX), u32::MAX, Some(1)),
    ];
    for ((first, end), last, told) in cases {
        assert!(rt; first <= end);
        let to = between((7, 9), (first, end));
        let body = body_of(&to, (7, 9), (first, last));
        assert!(rt; on(&opens(&to), &pieces) == Part { body, told });
        let from = between((first, end), (7, 9));
        let body = body_of(&from, (first, last), (7, 9));
        assert!(rt; on(&answers(&from), &pieces) == Part { body, told });
        let body = to;
        let told = Some(2);
        assert!(rt; on(&opens_to(&to, 0x0A00_0207), &pieces) == Part { body, told });
    }
    Ok(())
}
