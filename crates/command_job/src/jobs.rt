// What commands do in a network, with the appliances that it describes.
ghost use Rattle.std.specs.Prelude.{◌≡◌, IfOk};
ghost use Rattle.appliances.specs.Passing.{kind_passes_at};
ghost use Rattle.vpc_model.specs.Appliances.{appliances_of};

use crate::deciders::deciders_of;
use crate::status::Answer;
use appliances::{Deciders, Kinds};
use fabric::Fabric;
use reference_check::Network;
use std::alloc::Global;
use std::mem;
use vpc_base::{Header, NoMemory};

/// What a command does in a network.
pub trait Job {
    ghost use Rattle.std.specs.Prelude.{List, ℕ};
    ghost use Rattle.vpc_model.specs.declared.rows.Description.{Description};
    ghost use Rattle.command_job.specs.declared.status.Status.{Status};

    /// That it can be done in the network.
    ghost fits: { Self → Description → Type 0 };

    /// The status and the text that it answers.
    ghost answers: { Self → Description → Status → List ℕ → Type 0 };

    /// What is answered, by these deciders.
    fn answer_with(
        &self,
        alloc: Global,
        f: &Fabric,
        deciders: &Deciders,
    ) -> Result<Answer, NoMemory>
        requires fits { fits self.now f.now }
        requires appliances { deciders.now.appliances ≡ appliances_of f.now }
        ensures { IfOk result (λ a. answers self.now f.now a.status a.text.items) };
}

// What is answered with the described appliances.
fn answer_in<J: Job>(alloc: Global, f: &Fabric, job: &J) -> Result<Answer, NoMemory>
    requires { J.fits job.now f.now }
    ensures { IfOk result (λ a. J.answers job.now f.now a.status a.text.items) }
{
    let kinds = Kinds::of(alloc, f.network())?;
    let decide = Box::new(
        alloc,
        move |k: u32, h: &Header| -> bool
            ensures { result ≡ kind_passes_at kinds k h.now }
        { kinds.passes(k, h) },
    )?;
    let deciders = deciders_of(alloc, f.network(), decide)?;
    let answer = job.answer_with(alloc, f, &deciders);
    mem::forget(deciders);
    answer
}

/// What is answered in a network.
pub fn answer_job<J: Job>(alloc: Global, network: Network, job: &J) -> Result<Answer, NoMemory>
    requires { J.fits job.now network }
    ensures { IfOk result (λ a. J.answers job.now network a.status a.text.items) }
{
    match Fabric::of(alloc, network) {
        Ok(fabric) => {
            let answer = answer_in(alloc, &fabric, job);
            // The process ends with its answer: giving back the many rows of a large network takes longer
            // than finding one in it.
            mem::forget(fabric);
            answer
        }
        Err(no_memory) => Err(no_memory),
    }
}
