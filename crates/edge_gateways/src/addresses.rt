// Public addresses by private ones, and the other way round.
ghost use Rattle.std.specs.Prelude.{◌≡◌, IfOk, is_some, map, option_map, ℕ};
ghost use Rattle.box_images.specs.Answers.{Answers};
ghost use Rattle.box_images.specs.Images.{IsImageOfWalk, IsValidImage, header_at};
ghost use Rattle.cut_laws.specs.Dividing.{CutOut};
ghost use Rattle.number_tables.specs.Entries.{value_at};
ghost use Rattle.edge_gateways.specs.Pairs.{HasPairsOf, owner_at, owner_entry, public_at, public_entry};

use crate::pairs::{Owner, Pair, pairs_of};
use box_images::{Image, Part, Side};
use image_tests::entry_on;
use number_tables::{Entry, NumberTable, key_of};
use reference_check::Network;
use std::alloc::{AllocError, Global};
use vpc_model::VpcNo;

// The public addresses by their VPCs and private addresses.
fn public_entries(alloc: Global, pairs: &[Pair]) -> Result<Vec<Entry<u32>>, AllocError>
    ensures { IfOk result (λ v. v.items ≡ map public_entry pairs.now) }
{
    let mut entries = Vec::with_capacity(alloc, pairs.len())?;
    for pair in pairs {
        entries.push(Entry {
            key: key_of(pair.owner.vpc.0, pair.owner.own),
            value: pair.public,
        })?;
    }
    Ok(entries)
}

// The owners by their public addresses.
fn owner_entries(alloc: Global, pairs: &[Pair]) -> Result<Vec<Entry<Owner>>, AllocError>
    ensures { IfOk result (λ v. v.items ≡ map owner_entry pairs.now) }
{
    let mut entries = Vec::with_capacity(alloc, pairs.len())?;
    for pair in pairs {
        entries.push(Entry {
            key: u64::from(pair.public),
            value: pair.owner,
        })?;
    }
    Ok(entries)
}

fn public_table(alloc: Global, pairs: &[Pair]) -> Result<NumberTable<u32>, AllocError>
    ensures { IfOk result (λ t. (k : ℕ) → value_at k t ≡ value_at k (map public_entry pairs.now)) }
{
    let entries = public_entries(alloc, pairs)?;
    let table = NumberTable::of(entries)?;
    Ok(table)
}

fn owner_table(alloc: Global, pairs: &[Pair]) -> Result<NumberTable<Owner>, AllocError>
    ensures { IfOk result (λ t. (k : ℕ) → value_at k t ≡ value_at k (map owner_entry pairs.now)) }
{
    let entries = owner_entries(alloc, pairs)?;
    let table = NumberTable::of(entries)?;
    Ok(table)
}

// The VPC and the private address of an owner, if there is one.
fn parts_of(owner: Option<Owner>) -> Option<(VpcNo, u32)>
    ensures { result ≡ option_map (λ o. (o.vpc, o.own)) owner }
{
    match owner {
        Some(owner) => Some((owner.vpc, owner.own)),
        None => None,
    }
}

/// The public addresses of a network.
pub struct AddressMaps {
    pub publics: NumberTable<u32>,
    pub owners: NumberTable<Owner>,
}

impl Drop for AddressMaps {
    fn drop(self) {
        let AddressMaps { publics, owners } = self;
        drop(publics);
        drop(owners);
    }
}

impl AddressMaps {
    pub fn of(alloc: Global, n: &Network) -> Result<AddressMaps, AllocError>
        ensures { IfOk result (λ m. HasPairsOf n.now m.publics m.owners) }
    {
        let _ = n.description();
        let pairs = pairs_of(alloc, n)?;
        let rows = pairs.as_slice();
        let publics = public_table(alloc, rows)?;
        let owners = owner_table(alloc, rows)?;
        Ok(AddressMaps { publics, owners })
    }

    pub fn public(&self, v: VpcNo, own: u32) -> Option<u32>
        ensures { result ≡ public_at self.now.publics v own }
    {
        self.publics.get(key_of(v.0, own))
    }

    pub fn owner(&self, public: u32) -> Option<(VpcNo, u32)>
        ensures { result ≡ owner_at self.now.owners public }
    {
        parts_of(self.owners.get(u64::from(public)))
    }

    pub fn public_on(&self, v: VpcNo, i: &Image) -> Part<Option<u32>>
        requires valid { IsValidImage i.now }
        requires walk { IsImageOfWalk i.now }
        ensures { Answers (CutOut (λ own. is_some (public_at self.now.publics v own)))
            (λ h. let carried = header_at i.now h in public_at self.now.publics v carried.src)
            i.now.part result }
    {
        entry_on(i, Side::Src, &self.publics, v.0)
    }

    pub fn owner_on(&self, i: &Image) -> Part<Option<(VpcNo, u32)>>
        requires valid { IsValidImage i.now }
        requires walk { IsImageOfWalk i.now }
        ensures { Answers (CutOut (λ public. is_some (owner_at self.now.owners public)))
            (λ h. let carried = header_at i.now h in owner_at self.now.owners carried.dst)
            i.now.part result }
    {
        let entry = entry_on(i, Side::Dst, &self.owners, 0);
        Part {
            body: entry.body,
            told: parts_of(entry.told),
        }
    }
}
