// The blocks of each VPC, and sets of addresses by their numbers.
ghost use Rattle.std.specs.Prelude.{◌≡◌, [], IfOk, slice_index_or};
ghost use Rattle.std.specs.List.{AllZip};
ghost use Rattle.address_sets.specs.Runs.{is_in};
ghost use Rattle.box_images.specs.Answers.{Answers};
ghost use Rattle.box_images.specs.Fields.{number_of};
ghost use Rattle.box_images.specs.Images.{IsImageOfWalk, IsValidImage, header_at};
ghost use Rattle.cut_laws.specs.Dividing.{DivideTurns};
ghost use Rattle.image_tests.specs.Tests.{IsAddressSide};
ghost use Rattle.edge_gateways.specs.Sides.{HasBlocksOf};

use address_sets::AddressSet;
use box_images::{Image, Part, Side};
use image_tests::set_on;
use std::alloc::{AllocError, Global};
use vpc_model::Vpc;

/// The addresses of each VPC's blocks.
pub fn blocks_of(alloc: Global, vpcs: &[Vpc]) -> Result<Vec<AddressSet>, AllocError>
    ensures { IfOk result (λ v. AllZip HasBlocksOf vpcs.now v.items) }
{
    let mut blocks = Vec::new(alloc);
    for vpc in vpcs {
        blocks.push(AddressSet::of_blocks(alloc, vpc.blocks.as_slice())?)?;
    }
    Ok(blocks)
}

/// Whether the set with a number has the address. No number has another one.
pub fn is_in(sets: &[AddressSet], number: u32, address: u32) -> bool
    ensures { result ≡ is_in address (slice_index_or sets.now number []) }
{
    match sets.get(number as usize) {
        Some(set) => set.has(address),
        None => false,
    }
}

/// Whether it has the source or the destination.
pub fn is_in_on(sets: &[AddressSet], number: u32, i: &Image, side: Side) -> Part<bool>
    requires valid { IsValidImage i.now }
    requires walk { IsImageOfWalk i.now }
    requires address { IsAddressSide side }
    ensures { Answers (DivideTurns (λ a. is_in a (slice_index_or sets.now number [])))
        (λ h. is_in (number_of (header_at i.now h) side) (slice_index_or sets.now number []))
        i.now.part result }
{
    match sets.get(number as usize) {
        Some(set) => set_on(i, side, set),
        None => Part {
            body: i.part,
            told: false,
        },
    }
}
