// What is done with two networks and a query about them, by the look-ups of both and the appliances that each describes.
ghost use Rattle.std.specs.Prelude.{◌≡◌, IfOk};
ghost use Rattle.appliances.specs.Passing.{kind_passes_at};
ghost use Rattle.changed_ends.specs.Asked.{comparison};

use crate::gathered::Asked;
use appliances::Kinds;
use changed_ends::{Compared, links_of};
use command_job::{Answer, deciders_of};
use fabric::Fabric;
use query_words::ChangeQuery;
use reference_check::Network;
use security_groups::AlikeGroups;
use std::alloc::Global;
use std::mem;
use vpc_base::{Header, NoMemory};

/// What is done with two networks and a query about them.
pub trait Comparing {
    ghost use Rattle.std.specs.Prelude.{List, ℕ};
    ghost use Rattle.changed_ends.specs.Asked.{Comparison};
    ghost use Rattle.command_job.specs.declared.status.Status.{Status};

    /// That it can be done.
    ghost fits: { Self → Comparison → Type 0 };

    /// The status and the text that it answers.
    ghost answers: { Self → Comparison → Status → List ℕ → Type 0 };

    /// What is answered.
    fn answer_asked(&self, alloc: Global, asked: &Asked) -> Result<Answer, NoMemory>
        requires { fits self.now asked.now.compared }
        ensures { IfOk result (λ a. answers self.now asked.now.compared a.status a.text.items) };
}

fn answer_by<J: Comparing>(
    alloc: Global,
    before: &Fabric,
    after: &Fabric,
    query: &ChangeQuery,
    job: &J,
) -> Result<Answer, NoMemory>
    requires { J.fits job.now (comparison before.now after.now query.now) }
    ensures { IfOk result (λ a.
        J.answers job.now (comparison before.now after.now query.now) a.status a.text.items) }
{
    // Once for all parts that are asked about.
    let alike = AlikeGroups::of(
        alloc,
        before.network(),
        before.groups(),
        after.network(),
        after.groups(),
    )?;
    let kinds = Kinds::of(alloc, before.network())?;
    let decide = Box::new(
        alloc,
        move |k: u32, h: &Header| -> bool
            ensures { result ≡ kind_passes_at kinds k h.now }
        { kinds.passes(k, h) },
    )?;
    let before_deciders = deciders_of(alloc, before.network(), decide)?;
    let later_kinds = Kinds::of(alloc, after.network())?;
    let later_decide = Box::new(
        alloc,
        move |k: u32, h: &Header| -> bool
            ensures { result ≡ kind_passes_at later_kinds k h.now }
        { later_kinds.passes(k, h) },
    )?;
    let after_deciders = deciders_of(alloc, after.network(), later_decide)?;
    let links = links_of(alloc, before.network(), after.network(), query)?;
    let asked = Asked {
        compared: Compared {
            before,
            after,
            query,
        },
        before_deciders: &before_deciders,
        after_deciders: &after_deciders,
        before_links: links.before.as_slice(),
        after_links: links.after.as_slice(),
        alike: &alike,
    };
    job.answer_asked(alloc, &asked)
}

fn answer_after<J: Comparing>(
    alloc: Global,
    before: &Fabric,
    after: Network,
    query: &ChangeQuery,
    job: &J,
) -> Result<Answer, NoMemory>
    requires { J.fits job.now (comparison before.now after query.now) }
    ensures { IfOk result (λ a.
        J.answers job.now (comparison before.now after query.now) a.status a.text.items) }
{
    match Fabric::of(alloc, after) {
        Ok(fabric) => {
            let answer = answer_by(alloc, before, &fabric, query, job);
            // As a network's look-ups are left where a process ends with its answer.
            mem::forget(fabric);
            answer
        }
        Err(no_memory) => Err(no_memory),
    }
}

/// What is answered about two networks.
pub fn answer_between<J: Comparing>(
    alloc: Global,
    before: Network,
    after: Network,
    query: &ChangeQuery,
    job: &J,
) -> Result<Answer, NoMemory>
    requires { J.fits job.now (comparison before after query.now) }
    ensures { IfOk result (λ a.
        J.answers job.now (comparison before after query.now) a.status a.text.items) }
{
    match Fabric::of(alloc, before) {
        Ok(fabric) => {
            let answer = answer_after(alloc, &fabric, after, query, job);
            mem::forget(fabric);
            answer
        }
        Err(no_memory) => {
            mem::forget(after);
            Err(no_memory)
        }
    }
}
