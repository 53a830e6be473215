// Where files come from.
ghost use Rattle.std.specs.Prelude.{◌≡◌, ℕ, ◌<◌, ◌≤◌, List, Option, length, IfOk};
ghost use Rattle.vpc_io.specs.Rose.{Rose};
ghost use Rattle.vpc_io.specs.Told.{IfTold};
ghost use Rattle.vpc_io.specs.declared.shelf.ShelfFault.TheVariants.{Memory};

use std::alloc::{AllocError, Global};

/// Why a file was not taken.
#[derive(Clone, Copy, Debug, PartialEq, Eq)]
pub enum ShelfFault {
    /// The shelf failed at this name, or has no such file. Its count of faults for the name rose.
    Failed,
    /// The file has more bytes than the caller takes.
    TooLong,
    /// Memory was refused. It is the one answer that no clause gives a cause for.
    Memory,
}

impl From<AllocError> for ShelfFault {
    ghost from_gives = { λ _ e. e ≡ Memory };

    fn from(_error: AllocError) -> ShelfFault {
        ShelfFault::Memory
    }
}

/// Files by name, as under paths.
pub trait Shelf {
    /// The bytes under each name, where the shelf tells them.
    ghost told: { Self → List ℕ → Option (List ℕ) };

    /// How often taking each name has failed so far. It stands still at the last value of a `u64`.
    ghost faults: { Self → List ℕ → ℕ };

    /// Takes the file of this name, which has at most `max` bytes.
    ///
    /// A file of more bytes is `TooLong`, which is answered only after `max + 1` of them were read.
    /// The file is the same at each call, as far as it is told.
    fn take(&mut self, alloc: Global, name: &str, max: usize) -> Result<Vec<u8>, ShelfFault>
        ensures whole { IfOk result
            (λ v. IfTold (told self.old name.now) (λ bytes. v.items ≡ bytes)) }
        ensures within { IfOk result (λ v. length v.items ≤ max) }

        ensures failed_only_where_faults_rose { result ≡ Err ShelfFault.Failed
            → Rose (faults self.old name.now) (faults self.new name.now) }
        ensures too_long { result ≡ Err ShelfFault.TooLong
            → IfTold (told self.old name.now) (λ bytes. max < length bytes) }

        ensures told_stays { (n : List ℕ) → told self.new n ≡ told self.old n }
        ensures faults_never_fall { (n : List ℕ) → faults self.old n ≤ faults self.new n };
}
