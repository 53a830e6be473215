// What is wrong with a bundle.
ghost use Rattle.std.specs.Prelude.{◌≡◌};
ghost use Rattle.json_fields.specs.declared.fault.FieldFault.TheVariants.{Memory};
ghost use Rattle.json_fields.specs.Paths.{at_member};

use crate::{Path, PathText};
use std::alloc::{AllocError, AllocFailed, Global};
use vpc_base::NoMemory;

/// Why a value of a bundle could not be read. Only the first fault of a bundle is told.
#[derive(Drop)]
pub enum FieldFault {
    /// The value at the path is of another JSON kind than the form has there, or it is absent and
    /// must be there.
    WrongShape(PathText),
    /// The text at the path is outside its grammar, or the whole number there is out of range.
    BadText(PathText),
    /// Memory was refused.
    Memory,
}

impl From<NoMemory> for FieldFault {
    ghost from_gives = { λ _ e. e ≡ Memory };

    fn from(_error: NoMemory) -> FieldFault {
        FieldFault::Memory
    }
}

impl From<AllocError> for FieldFault {
    ghost from_gives = { λ _ e. e ≡ Memory };

    fn from(_error: AllocError) -> FieldFault {
        FieldFault::Memory
    }
}

impl<T: Drop> From<AllocFailed<T>> for FieldFault {
    ghost from_gives = { λ _ e. e ≡ Memory };

    fn from(_error: AllocFailed<T>) -> FieldFault {
        FieldFault::Memory
    }
}

impl FieldFault {
    ghost use Rattle.json_fields.specs.FieldFault.{Tells};

    /// `WrongShape` at the list of this name, or with `$` at the bundle itself.
    pub fn wrong_shape_at(alloc: Global, name: &str) -> FieldFault
        ensures { Tells (FieldFault.WrongShape name.now) result }
    {
        match Path::list(name).text(alloc) {
            Ok(path) => FieldFault::WrongShape(path),
            Err(_) => FieldFault::Memory,
        }
    }

    /// `WrongShape` at the row itself.
    pub fn wrong_shape_of(alloc: Global, path: &Path) -> FieldFault
        ensures { Tells (FieldFault.WrongShape path.now) result }
    {
        match path.text(alloc) {
            Ok(path) => FieldFault::WrongShape(path),
            Err(_) => FieldFault::Memory,
        }
    }

    /// `BadText` at the value itself.
    pub fn bad_text_of(alloc: Global, path: &Path) -> FieldFault
        ensures { Tells (FieldFault.BadText path.now) result }
    {
        match path.text(alloc) {
            Ok(path) => FieldFault::BadText(path),
            Err(_) => FieldFault::Memory,
        }
    }

    /// `WrongShape` at the member of this name.
    pub fn wrong_shape(alloc: Global, path: &Path, field: &str) -> FieldFault
        ensures { Tells (FieldFault.WrongShape (at_member path.now field.now)) result }
    {
        match path.member(field).text(alloc) {
            Ok(member) => FieldFault::WrongShape(member),
            Err(_) => FieldFault::Memory,
        }
    }

    /// `BadText` at the member of this name.
    pub fn bad_text(alloc: Global, path: &Path, field: &str) -> FieldFault
        ensures { Tells (FieldFault.BadText (at_member path.now field.now)) result }
    {
        match path.member(field).text(alloc) {
            Ok(member) => FieldFault::BadText(member),
            Err(_) => FieldFault::Memory,
        }
    }
}
