// Shelves over files in memory.
ghost use Rattle.std.specs.Prelude.{◌≡◌, ◌<◌, ◌≤◌, ◌↔◌, ℕ, List, Option, Some, None, [], length, IfOk, IsTrue, option_copied};
ghost use Rattle.vpc_io.specs.MemoryShelf.{MemoryShelfState, take_fails, state_after_take};
ghost use Rattle.vpc_io.specs.Rose.{Rose};
ghost use Rattle.vpc_io.specs.Shelf.{NamedBytes, files_of, bytes_of, bytes_or_empty};
ghost use Rattle.vpc_io.specs.Told.{IfTold};

use crate::{Shelf, ShelfFault};
use std::alloc::Global;
use std::marker::Model;

// The bytes of the first file of this name.
fn bytes_under<'a>(files: &'a [(Vec<u8>, Vec<u8>)], name: &[u8]) -> Option<&'a [u8]>
    ensures { option_copied result ≡ bytes_of (files_of files.now) name.now }
{
    for (held, bytes) in files {
        if held.as_slice() == name {
            return Some(bytes.as_slice());
        }
    }
    None
}

// A copy of these bytes, if they are at most `max`.
fn copy_of(alloc: Global, bytes: &[u8], max: usize) -> Result<Vec<u8>, ShelfFault>
    ensures whole { IfOk result (λ v. v.items ≡ bytes.now) }
    ensures within { IfOk result (λ v. length v.items ≤ max) }
    ensures never_fails { result ≡ Err ShelfFault.Failed → ⊥ }
    ensures too_long { (result ≡ Err ShelfFault.TooLong) ↔ (max < length bytes.now) }
{
    if bytes.len() > max {
        return Err(ShelfFault::TooLong);
    }
    Ok(bytes.to_vec(alloc)?)
}

/// Files in memory, that fail at chosen calls.
///
/// A call fails exactly where its number, from 1, is among those chosen, or no file has the name. Of
/// two files with one name the first counts. One count of faults stands for every name.
pub struct MemoryShelf {
    files: Vec<(Vec<u8>, Vec<u8>)>,
    failing: Vec<u64>,
    calls: u64,
    faults: u64,
}

impl Drop for MemoryShelf {
    fn drop(self) {
        let MemoryShelf {
            files,
            failing,
            calls: _,
            faults: _,
        } = self;
        drop(files);
        drop(failing);
    }
}

impl Model for MemoryShelf {
    ghost Value = { MemoryShelfState };

    ghost view = { λ s. record {
      files = files_of s.files.items;
      failing = s.failing.items;
      calls = s.calls;
      faults = s.faults;
    } };
}

impl MemoryShelf {
    /// A shelf with these files, by their names' bytes. It fails at the calls of these numbers, from 1.
    pub fn of(files: Vec<(Vec<u8>, Vec<u8>)>, failing: Vec<u64>) -> MemoryShelf
        ensures { result ≡ record {
          files = files_of files.items;
          failing = failing.items;
          calls = 0;
          faults = 0;
        } }
    {
        MemoryShelf {
            files,
            failing,
            calls: 0,
            faults: 0,
        }
    }
}

impl Shelf for MemoryShelf {
    ghost told = { λ s n. bytes_of s.files n };

    ghost faults = { λ s _. s.faults };

    fn take(&mut self, alloc: Global, name: &str, max: usize) -> Result<Vec<u8>, ShelfFault>
        ensures whole { IfOk result
            (λ v. IfTold (bytes_of self.old.files name.now) (λ bytes. v.items ≡ bytes)) }
        ensures within { IfOk result (λ v. length v.items ≤ max) }

        ensures failed_only_where_faults_rose { result ≡ Err ShelfFault.Failed
            → Rose self.old.faults self.new.faults }
        ensures too_long { result ≡ Err ShelfFault.TooLong
            → IfTold (bytes_of self.old.files name.now) (λ bytes. max < length bytes) }

        ensures told_stays { (n : List ℕ)
            → bytes_of self.new.files n ≡ bytes_of self.old.files n }
        ensures faults_never_fall { (n : List ℕ) → self.old.faults ≤ self.new.faults }

        ensures fails_exactly { (result ≡ Err ShelfFault.Failed)
            ↔ IsTrue (take_fails self.old name.now) }
        ensures state { self.new ≡ state_after_take self.old name.now }
    {
        self.calls = self.calls.saturating_add(1);
        let bytes = bytes_under(&self.files, name.as_bytes());
        match bytes {
            Some(bytes) if !self.failing.contains(&self.calls) => copy_of(alloc, bytes, max),
            _ => {
                self.faults = self.faults.saturating_add(1);
                Err(ShelfFault::Failed)
            }
        }
    }
}

/// Files in memory that never fail: a name that no file has stands for an empty file.
///
/// Of two files with one name the first counts. The count of faults is the constant 0.
#[derive(Drop)]
pub struct SafeShelf {
    files: Vec<(Vec<u8>, Vec<u8>)>,
}

impl Model for SafeShelf {
    ghost Value = { List NamedBytes };

    ghost view = { λ s. files_of s.files.items };
}

impl SafeShelf {
    /// A shelf with these files, by their names' bytes.
    pub fn of(files: Vec<(Vec<u8>, Vec<u8>)>) -> SafeShelf
        ensures { result ≡ files_of files.items }
    {
        SafeShelf { files }
    }
}

impl Shelf for SafeShelf {
    ghost told = { λ s n. Some (bytes_or_empty s n) };

    ghost faults = { λ _ _. 0 };

    fn take(&mut self, alloc: Global, name: &str, max: usize) -> Result<Vec<u8>, ShelfFault>
        ensures whole { IfOk result (λ v. v.items ≡ bytes_or_empty self.old name.now) }
        ensures within { IfOk result (λ v. length v.items ≤ max) }

        ensures never_fails { result ≡ Err ShelfFault.Failed → ⊥ }
        ensures too_long { (result ≡ Err ShelfFault.TooLong)
            ↔ (max < length (bytes_or_empty self.old name.now)) }

        ensures same { self.new ≡ self.old }
    {
        let bytes = bytes_under(&self.files, name.as_bytes()).unwrap_or(b"");
        copy_of(alloc, bytes, max)
    }
}
