// Why a bundle describes no network.
ghost use Rattle.std.specs.Prelude.{◌≡◌};
ghost use Rattle.bundle.specs.Meaning.{of_fault, of_refusal};

use json_fields::{FieldFault, PathText};
use vpc_model::Refusal;

/// Why a bundle describes no network. Only the first cause is told.
#[derive(Drop)]
pub enum BundleRefusal {
    /// The bytes are not one JSON value in UTF-8, or it is nested more than 127 deep.
    NotJson,
    /// The value at the path is missing, or of another JSON kind than the EC2 API prints there.
    WrongShape(PathText),
    /// The text or the number at the path is none that may stand there.
    BadText(PathText),
    /// The bundle was read, and its rows make no network.
    Rows(Refusal),
    /// Memory was refused.
    Memory,
}

impl From<FieldFault> for BundleRefusal {
    ghost from_gives = { λ fault r. r ≡ of_fault fault };

    fn from(fault: FieldFault) -> BundleRefusal {
        match fault {
            FieldFault::WrongShape(path) => BundleRefusal::WrongShape(path),
            FieldFault::BadText(path) => BundleRefusal::BadText(path),
            FieldFault::Memory => BundleRefusal::Memory,
        }
    }
}

impl From<Refusal> for BundleRefusal {
    ghost from_gives = { λ refusal r. r ≡ of_refusal refusal };

    fn from(refusal: Refusal) -> BundleRefusal {
        match refusal {
            Refusal::Memory => BundleRefusal::Memory,
            cause => BundleRefusal::Rows(cause),
        }
    }
}

impl BundleRefusal {
    ghost use Rattle.bundle.specs.Meaning.{is_memory};

    /// Whether memory was refused, so that nothing is said of the bundle.
    pub fn is_memory(&self) -> bool
        ensures { result ≡ is_memory self.now }
    {
        matches!(self, BundleRefusal::Memory)
    }
}
