// What a command answers about the files that its words name.
ghost use Rattle.std.specs.Prelude.{◌≡◌, IfOk, length, map, string_bytes};

use crate::status::{Answer, Status};
use reference_check::Network;
use std::alloc::Global;
use vpc_base::NoMemory;

/// A command with one file, which is answered in the network that the file describes.
pub trait OneFile {
    ghost use Rattle.std.specs.Prelude.{List, ℕ};
    ghost use Rattle.vpc_model.specs.declared.rows.Description.{Description};
    ghost use Rattle.command_job.specs.declared.status.Status.{Status};

    /// That there may be so many words, the command's own name and its file included.
    ghost counts: { Self → ℕ → Type 0 };

    /// The status and the text that are answered to words.
    ghost answers: { Self → List (List ℕ) → Description → Status → List ℕ → Type 0 };

    /// What is answered to the words in a network.
    fn answer(&self, alloc: Global, network: Network, words: &[String]) -> Result<Answer, NoMemory>
        requires count { counts self.now (length words.now) }
        ensures { IfOk result (λ a.
            answers self.now (map string_bytes words.now) network a.status a.text.items) };
}

/// A command with a second file, which is answered by that file's bytes in the network that the first one describes.
pub trait TwoFiles {
    ghost use Rattle.std.specs.Prelude.{List, ℕ};
    ghost use Rattle.vpc_model.specs.declared.rows.Description.{Description};
    ghost use Rattle.command_job.specs.declared.status.Status.{Status};

    /// The line that refuses the second file, by the cause.
    ghost refusal: { Self → List ℕ → List ℕ };

    /// The status and the text that are answered to the bytes.
    ghost answers: { Self → Description → List ℕ → Status → List ℕ → Type 0 };

    /// Refuses the second file for this cause.
    fn refuse(&self, alloc: Global, cause: &[u8]) -> Result<Answer, NoMemory>
        ensures { IfOk result (λ a.
            (a.status ≡ Status.Query) × (a.text.items ≡ refusal self.now cause.now)) };

    /// What is answered to the bytes in a network.
    fn answer(&self, alloc: Global, network: Network, bytes: &[u8]) -> Result<Answer, NoMemory>
        ensures { IfOk result (λ a. answers self.now network bytes.now a.status a.text.items) };
}

/// A command with two descriptions, which is answered in both networks.
pub trait TwoNetworks {
    ghost use Rattle.std.specs.Prelude.{List, ℕ};
    ghost use Rattle.vpc_model.specs.declared.rows.Description.{Description};
    ghost use Rattle.command_job.specs.declared.status.Status.{Status};

    /// That there may be so many words, the command's own name and its files included.
    ghost counts: { Self → ℕ → Type 0 };

    /// The status and the text that are answered to words.
    ghost answers: { Self → List (List ℕ) → Description → Description → Status → List ℕ → Type 0 };

    /// What is answered to the words, by the network of the first file and that of the second.
    fn answer(
        &self,
        alloc: Global,
        before: Network,
        after: Network,
        words: &[String],
    ) -> Result<Answer, NoMemory>
        requires count { counts self.now (length words.now) }
        ensures { IfOk result (λ a.
            answers self.now (map string_bytes words.now) before after a.status a.text.items) };
}
