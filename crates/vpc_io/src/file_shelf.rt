// Files of the system.
ghost use Rattle.std.specs.Prelude.{◌≡◌, ◌<◌, ◌≤◌, ◌+◌, ℕ, List, Option, length, vec_len, IfOk, OnOk};
ghost use Rattle.vpc_io.specs.FileShelf.{faults_after};
ghost use Rattle.vpc_io.specs.Rose.{Rose};
ghost use Rattle.vpc_io.specs.Told.{IfTold, nothing_told};
ghost use Rattle.std.specs.Io.KnownBytes.{Consumes, IsAtEnd};

use crate::{Shelf, ShelfFault};
use std::alloc::{AllocError, Global};
use std::fs;
use std::io::Read;
use std::marker::Model;
use std::rt::Files;

// The length of the buffer for one read. A longer one gains nothing.
const PIECE: usize = 1 << 16;

// A buffer of this many bytes.
fn buffer(alloc: Global, len: usize) -> Result<Vec<u8>, AllocError>
    ensures { IfOk result (λ v. vec_len v ≡ len) }
{
    vec![in alloc; 0; len]
}

// Reads once and adds what was read, of which it answers the length: 0 only at the end.
fn read_more<F: Read>(
    reader: &mut F,
    piece: &mut [u8],
    bytes: &mut Vec<u8>,
) -> Result<usize, ShelfFault>
    requires { 0 < length piece.old }
    ensures longer { IfOk result (λ n. vec_len bytes.new ≡ vec_len bytes.old + n) }
    ensures end { IfOk result (λ n. n ≡ 0 → IsAtEnd (F.remaining reader.new)) }
    ensures consumed { OnOk result ((known : Option (List ℕ))
        → Consumes known (F.remaining reader.old) bytes.old.items
        → Consumes known (F.remaining reader.new) bytes.new.items) }
    ensures no_length { result ≡ Err ShelfFault.TooLong → ⊥ }
{
    match reader.read(piece) {
        Ok(n) => {
            bytes.extend_from_slice(&piece[..n])?;
            Ok(n)
        }
        Err(_) => Err(ShelfFault::Failed),
    }
}

/// The bytes that a reader has left: `TooLong` where they are more than `max`, also of a reader that would fail after these;
/// else `Failed` where a read fails.
pub fn read_up_to<F: Read>(alloc: Global, reader: &mut F, max: usize) -> Result<Vec<u8>, ShelfFault>
    ensures whole { IfOk result
        (λ v. IfTold (F.remaining reader.old) (λ bytes. v.items ≡ bytes)) }
    ensures within { IfOk result (λ v. length v.items ≤ max) }
    ensures too_long { result ≡ Err ShelfFault.TooLong
        → IfTold (F.remaining reader.old) (λ bytes. max < length bytes) }
{
    let mut piece = buffer(alloc, PIECE)?;
    let mut bytes = Vec::new(alloc);
    while bytes.len() <= max {
        if read_more(reader, &mut piece, &mut bytes)? == 0 {
            return Ok(bytes);
        }
    }
    Err(ShelfFault::TooLong)
}

/// Files of the system, by path. Nothing is told of their bytes.
///
/// One count of faults stands for every name. It rises exactly where a call answers `Failed`: the
/// system answered an error, as for a missing file.
#[derive(Drop)]
pub struct FileShelf<'a, R: Files> {
    runtime: &'a R,
    faults: u64,
}

impl<'a, R: Files> Model for FileShelf<'a, R> {
    ghost Value = { ℕ };

    ghost view = { λ s. s.faults };
}

impl<'a, R: Files> FileShelf<'a, R> {
    /// The files that this runtime reaches, with no fault so far.
    pub fn of(runtime: &'a R) -> FileShelf<'a, R>
        ensures { result ≡ 0 }
    {
        FileShelf { runtime, faults: 0 }
    }
}

impl<'a, R: Files> Shelf for FileShelf<'a, R> {
    ghost told = { λ _ _. nothing_told };

    ghost faults = { λ s _. s };

    fn take(&mut self, alloc: Global, name: &str, max: usize) -> Result<Vec<u8>, ShelfFault>
        ensures whole { IfOk result (λ v. IfTold nothing_told (λ bytes. v.items ≡ bytes)) }
        ensures within { IfOk result (λ v. length v.items ≤ max) }

        ensures failed_only_where_faults_rose { result ≡ Err ShelfFault.Failed
            → Rose self.old self.new }
        ensures too_long { result ≡ Err ShelfFault.TooLong
            → IfTold nothing_told (λ bytes. max < length bytes) }

        ensures told_stays { (n : List ℕ) → nothing_told ≡ nothing_told }
        ensures faults_never_fall { (n : List ℕ) → self.old ≤ self.new }

        ensures faults_exactly { self.new ≡ faults_after self.old result }
    {
        let taken = match fs::open(self.runtime, name) {
            Ok(mut file) => read_up_to(alloc, &mut file, max),
            Err(_) => Err(ShelfFault::Failed),
        };
        if let Err(ShelfFault::Failed) = taken {
            self.faults = self.faults.saturating_add(1);
        }
        taken
    }
}
