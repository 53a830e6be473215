// The boxes that the nodes of a cut tree stand for, one after the other.
ghost use Rattle.std.specs.Prelude.{◌≡◌, ◌≤◌, ◌∷◌, [], OnOk, slice_get};
ghost use Rattle.box_images.specs.Fields.{greatest_on, side_of};
ghost use Rattle.ordered_cover.specs.Trees.{with_side};
ghost use Rattle.ordered_cover.specs.Walk.{CanBeCut, IsCutAt, IsLeft};

use box_images::Side;
use header_boxes::Box5;
use std::alloc::{AllocError, Global};
use std::marker::Model;

// What is still to come of a box that was cut, or what it was before.
#[derive(Clone, Copy)]
pub enum CutOff {
    /// The part on a side from a number on, up to the last number.
    Later(Side, u32, u32),
    /// The part is begun: where the side began before.
    Begun(Side, u32),
}

/// The boxes that the nodes of a cut tree have still to stand for, the first one first. It keeps that one alone: of each other
/// one the side, the number and the end by which it was cut off. So a tree may be as deep as there are nodes.
pub struct TreeWalk {
    at: Box5,
    is_over: bool,
    // The latest cut comes last.
    cuts: Vec<CutOff>,
}

impl Drop for TreeWalk {
    fn drop(self) {
        let TreeWalk {
            at: _,
            is_over: _,
            cuts,
        } = self;
        drop(cuts);
    }
}

impl Model for TreeWalk {
    ghost use Rattle.std.specs.Prelude.{[], ◌∷◌, All, List, if◌then◌else◌, reverse};
    ghost use Rattle.header_boxes.specs.declared.boxes.Box5.{Box5 as Part};
    ghost use Rattle.ordered_cover.specs.Walk.{CutFits, later_boxes};

    ghost Value = { List Part };

    ghost view = { λ t. if t.is_over then [] else t.at ∷ later_boxes t.at (reverse t.cuts.items) };

    ghost invariant = { λ t. All CutFits t.cuts.items };
}

fn range8(side: (u8, u8)) -> (u32, u32)
    ensures value { result ≡ side }
    ensures first { result.0 ≤ 255 }
    ensures last { result.1 ≤ 255 }
{
    (u32::from(side.0), u32::from(side.1))
}

fn range16(side: (u16, u16)) -> (u32, u32)
    ensures value { result ≡ side }
    ensures first { result.0 ≤ 65535 }
    ensures last { result.1 ≤ 65535 }
{
    (u32::from(side.0), u32::from(side.1))
}

fn range32(side: (u32, u32)) -> (u32, u32)
    ensures value { result ≡ side }
    ensures first { result.0 ≤ 4294967295 }
    ensures last { result.1 ≤ 4294967295 }
{
    side
}

fn range_of(b: &Box5, side: Side) -> (u32, u32)
    ensures value { result ≡ side_of b.now side }
    ensures first { result.0 ≤ greatest_on side }
    ensures last { result.1 ≤ greatest_on side }
{
    match side {
        Side::Proto => range8(b.proto),
        Side::Src => range32(b.src),
        Side::Dst => range32(b.dst),
        Side::P => range16(b.p),
        Side::Q => range16(b.q),
    }
}

fn as8(first: u32, last: u32) -> (u8, u8)
    requires first { first ≤ 255 }
    requires last { last ≤ 255 }
    ensures { result ≡ (first, last) }
{
    (first as u8, last as u8)
}

fn as16(first: u32, last: u32) -> (u16, u16)
    requires first { first ≤ 65535 }
    requires last { last ≤ 65535 }
    ensures { result ≡ (first, last) }
{
    (first as u16, last as u16)
}

// The box with another range on a side.
fn with_side(b: &Box5, side: Side, first: u32, last: u32) -> Box5
    requires first { first ≤ greatest_on side }
    requires last { last ≤ greatest_on side }
    ensures { result ≡ with_side b.now side (first, last) }
{
    let mut changed = *b;
    match side {
        Side::Proto => changed.proto = as8(first, last),
        Side::Src => changed.src = (first, last),
        Side::Dst => changed.dst = (first, last),
        Side::P => changed.p = as16(first, last),
        Side::Q => changed.q = as16(first, last),
    }
    changed
}

impl TreeWalk {
    /// The walk of a tree of this box.
    pub fn of(alloc: Global, sides: Box5) -> TreeWalk
        ensures { result ≡ sides ∷ [] }
    {
        TreeWalk {
            at: sides,
            is_over: false,
            cuts: Vec::new(alloc),
        }
    }

    /// The box that the next node stands for; none where nothing is left.
    pub fn first(&self) -> Option<Box5>
        ensures { result ≡ slice_get self.now 0 }
    {
        if self.is_over { None } else { Some(self.at) }
    }

    /// The box is cut by a number that divides its side: its two parts come in its place.
    pub fn cut(&mut self, side: Side, number: u32) -> Result<(), AllocError>
        requires { CanBeCut side number self.old }
        ensures { OnOk result (IsCutAt side number self.old self.new) }
    {
        let range = range_of(&self.at, side);
        self.cuts.push(CutOff::Later(side, number, range.1))?;
        self.at = with_side(&self.at, side, range.0, number - 1);
        Ok(())
    }

    /// A leaf stands for the box: the next one comes in its place.
    pub fn leave(&mut self) -> Result<(), AllocError>
        ensures { OnOk result (IsLeft self.old self.new) }
    {
        'begun: while let Some(cut) = self.cuts.pop() {
            match cut {
                CutOff::Later(side, number, last) => {
                    let range = range_of(&self.at, side);
                    self.cuts.push(CutOff::Begun(side, range.0))?;
                    self.at = with_side(&self.at, side, number, last);
                    return Ok(());
                }
                CutOff::Begun(side, first) => {
                    let range = range_of(&self.at, side);
                    self.at = with_side(&self.at, side, first, range.1);
                }
            }
        }
        self.is_over = true;
        Ok(())
    }
}
