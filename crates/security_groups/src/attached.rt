// VPCs and the transit gateways to which they are attached.
ghost use Rattle.std.specs.Prelude.{IfOk};
ghost use Rattle.std.specs.List.{All};
ghost use Rattle.security_groups.specs.Sharing.{IsToldShare};

use crate::sharing::share;
use number_tables::{Entry, NumberSet, NumberTable, key_of};
use std::alloc::{AllocError, Global};
use std::marker::Model;

/// Pairs of different numbers, by their keys.
pub struct NumberPairs {
    keys: Vec<u64>,
}

impl Drop for NumberPairs {
    fn drop(self) {
        let NumberPairs { keys } = self;
        drop(keys);
    }
}

impl NumberPairs {
    pub fn none(alloc: Global) -> NumberPairs {
        NumberPairs {
            keys: Vec::new(alloc),
        }
    }

    /// Adds a pair where its numbers differ.
    pub fn add(&mut self, one: u32, other: u32) -> Result<(), AllocError> {
        if one != other {
            self.keys.push(key_of(one, other))?;
        }
        Ok(())
    }

    /// The keys of the pairs in ascending order, each once.
    fn into_keys(self) -> Vec<u64> {
        let NumberPairs { mut keys } = self;
        keys.sort_unstable();
        keys.dedup();
        keys
    }
}

// Whether two numbers make keys with one number in common, by their key.
fn told_of(keys: &NumberSet, one: u32, other: u32) -> Entry<bool>
    ensures { IsToldShare keys.now result }
{
    let value = share(keys, one, keys, other);
    Entry {
        key: key_of(one, other),
        value,
    }
}

fn told_pairs(
    alloc: Global,
    keys: &NumberSet,
    pairs: NumberPairs,
) -> Result<Vec<Entry<bool>>, AllocError>
    ensures { IfOk result (λ v. All (IsToldShare keys.now) v.items) }
{
    let mut told = Vec::new(alloc);
    for pair in pairs.into_keys() {
        let one = (pair >> 32) as u32;
        let other = (pair % (1 << 32)) as u32;
        told.push(told_of(keys, one, other))?;
    }
    Ok(told)
}

/// The keys of VPCs and of the transit gateways to which they are attached, and for some pairs of VPCs whether they have one in common.
/// Contracts see the keys.
pub struct Attached {
    keys: NumberSet,
    told: NumberTable<bool>,
}

impl Drop for Attached {
    fn drop(self) {
        let Attached { keys, told } = self;
        drop(keys);
        drop(told);
    }
}

impl Model for Attached {
    ghost use Rattle.std.specs.Prelude.{List, ℕ};
    ghost use Rattle.security_groups.specs.Sharing.{AreToldShares};

    ghost Value = { List ℕ };

    ghost view = { λ a. a.keys };

    ghost invariant = { λ a. AreToldShares a.keys a.told };
}

impl Attached {
    ghost use Rattle.std.specs.Prelude.{◌≡◌, ◌↔◌, IfOk, IsTrue, OnOk};
    ghost use Rattle.security_groups.specs.Sharing.{Shares};

    pub fn of(alloc: Global, keys: NumberSet) -> Result<Attached, AllocError>
        ensures { IfOk result (λ a. a ≡ keys) }
    {
        let told = NumberTable::of(Vec::new(alloc))?;
        Ok(Attached { keys, told })
    }

    /// Keeps for some pairs of VPCs whether they have a gateway in common. For each pair it goes through the gateways of the VPC that
    /// has fewer.
    pub fn remember(&mut self, alloc: Global, pairs: NumberPairs) -> Result<(), AllocError>
        ensures { OnOk result (self.new ≡ self.old) }
    {
        let told = told_pairs(alloc, &self.keys, pairs)?;
        self.told = NumberTable::of(told)?;
        Ok(())
    }

    /// Whether two VPCs have a gateway in common. What is kept of the pair is found by a search.
    pub fn share(&self, one: u32, other: u32) -> bool
        ensures { IsTrue result ↔ Shares self.now one self.now other }
    {
        match self.told.get(key_of(one, other)) {
            Some(shared) => shared,
            None => share(&self.keys, one, &self.keys, other),
        }
    }

    /// The keys.
    pub fn keys(&self) -> &NumberSet
        ensures { result.now ≡ self.now }
    {
        &self.keys
    }
}
