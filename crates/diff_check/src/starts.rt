// What changes for the requests of one start, and whether it is what a text says.
ghost use Rattle.std.specs.Prelude.{◌≡◌, ◌++◌, None, OnOk, Some, bytes_eq, if◌then◌else◌, option_map};
ghost use Rattle.change_report.specs.Texts.{change_text, start_id};
ghost use Rattle.change_report.specs.Told.{sent_after, sent_before};
ghost use Rattle.journey_changes.specs.Changes.{change_of};
ghost use Rattle.journey_changes.specs.Telling.{IsTellable};
ghost use Rattle.journey_changes.specs.declared.changes.Change.{Change as Told};
ghost use Rattle.query_words.specs.ChangeQuery.{IsChangedEnd};
ghost use Rattle.changed_ends.specs.Asked.{HasEnds};
ghost use Rattle.diff_check.specs.Diffs.{told_or_same};
ghost use Rattle.listing_check.specs.Agreement.{agreed};
ghost use Rattle.diff_check.specs.Told.{AreTellable, AreTellable-prop, change_told, told_of};

use crate::texts::is_change;
use block_report::put;
use change_report::{Asked, put_change, toward_after, toward_before};
use changed_ends::changed_id;
use header_boxes::Box5;
use journey_changes::{Change, ChangeProbe, FateProbe};
use listing_check::{Telling, only};
use ordered_cover::Probe;
use query_words::ChangedEnd;
use reference_check::Network;
use vpc_base::{Header, NoMemory};

// ---- walks

fn walks_before<'a>(asked: &Asked<'a>, start: &ChangedEnd) -> FateProbe<'a>
    requires ends { HasEnds asked.now.compared }
    requires start { IsChangedEnd asked.now.compared.before asked.now.compared.after start.now }
    ensures { result.sent ≡ sent_before asked.now.compared start.now }
{
    FateProbe::of(
        asked.compared.fabric_before(),
        asked.before_deciders,
        start.before,
        asked.before_links,
        toward_before(asked.compared.query().goal),
    )
}

fn walks_after<'a>(asked: &Asked<'a>, start: &ChangedEnd) -> FateProbe<'a>
    requires ends { HasEnds asked.now.compared }
    requires start { IsChangedEnd asked.now.compared.before asked.now.compared.after start.now }
    ensures { result.sent ≡ sent_after asked.now.compared start.now }
{
    FateProbe::of(
        asked.compared.fabric_after(),
        asked.after_deciders,
        start.after,
        asked.after_links,
        toward_after(asked.compared.query().goal),
    )
}

// ---- one start

/// What changes for the requests of a start: their walks in both networks, and the id that changes are printed with. The walks
/// are made once for all rows of the start, since they have room for all that a walk may leave behind.
pub struct StartChanges<'a> {
    walks: ChangeProbe<'a>,
    network_before: &'a Network,
    network_after: &'a Network,
    id: &'a [u8],
    ghost same_before: { walks.before.sent.network ≡ network_before.now },
    ghost same_after: { walks.after.sent.network ≡ network_after.now },
    ghost tellable: { AreTellable walks.before.sent walks.after.sent } by { AreTellable-prop walks.before.sent walks.after.sent },
}

impl<'a> Drop for StartChanges<'a> {
    fn drop(self) {
        let StartChanges {
            walks,
            network_before: _,
            network_after: _,
            id: _,
        } = self;
        drop(walks);
    }
}

impl<'a> StartChanges<'a> {
    /// The changes for the requests that a question asks about from a start.
    pub fn of(asked: &Asked<'a>, start: &ChangedEnd) -> StartChanges<'a>
        requires ends { HasEnds asked.now.compared }
        requires start { IsChangedEnd asked.now.compared.before asked.now.compared.after start.now }
        ensures before { result.walks.before.sent ≡ sent_before asked.now.compared start.now }
        ensures after { result.walks.after.sent ≡ sent_after asked.now.compared start.now }
        ensures id { result.id.now ≡ start_id asked.now.compared start.now }
    {
        let network_before = asked.compared.before();
        let network_after = asked.compared.after();
        // That the networks are accepted is a clause of these calls.
        let _ = network_before.description();
        let _ = network_after.description();
        StartChanges {
            walks: ChangeProbe::of(
                walks_before(asked, start),
                walks_after(asked, start),
                asked.alike,
            ),
            network_before,
            network_after,
            id: changed_id(network_before, network_after, start),
        }
    }

    // What changes for a request.
    fn change_at(&self, h: &Header) -> Option<Change>
        ensures { result ≡ change_of self.now.walks.before.sent self.now.walks.after.sent h.now }
    {
        let (_, change) = self.walks.probe(&only(h));
        change
    }
}

// ---- one request

/// What is told of the requests from one start, as a text that is put.
pub trait PutTold {
    ghost use Rattle.std.specs.Prelude.{◌≡◌, ◌++◌, List, OnOk, Option, ℕ};
    ghost use Rattle.vpc_base.specs.declared.headers.Header.{Header};
    ghost use Rattle.diff_check.specs.Diffs.{told_or_same};

    /// The text that is told of a request, if anything is.
    ghost told: { Self → Header → Option (List ℕ) };

    /// Appends what is told of a request, or that it is the same.
    fn put_told(&self, out: &mut Vec<u8>, h: &Header) -> Result<(), NoMemory>
        ensures { OnOk result (out.new.items ≡ out.old.items ++ told_or_same (told self.now h.now)) };
}

impl<'a> PutTold for StartChanges<'a> {
    ghost told = { λ l. told_of l.id.now l.walks.before.sent l.walks.after.sent };

    fn put_told(&self, out: &mut Vec<u8>, h: &Header) -> Result<(), NoMemory> {
        match self.change_at(h) {
            None => put(out, b"same"),
            Some(change) => put_change(
                out,
                self.network_before,
                self.network_after,
                self.id,
                &change,
            ),
        }
    }
}

/// Appends what is told of a request by what isn't needed any more.
pub fn put_once<T: PutTold + Drop>(
    out: &mut Vec<u8>,
    telling: T,
    h: &Header,
) -> Result<(), NoMemory>
    ensures { OnOk result (out.new.items ≡ out.old.items ++ told_or_same (T.told telling h.now)) }
{
    telling.put_told(out, h)
}

// ---- what is wanted

fn same_text(
    before: &Network,
    after: &Network,
    id: &[u8],
    wanted: &[u8],
    change: &Change,
) -> Option<()>
    requires { IsTellable before.now after.now change.now }
    ensures { result ≡ (if bytes_eq wanted.now (change_text before.now after.now id.now change.now)
        then Some tt else None) }
{
    if is_change(wanted, before, after, id, change) {
        Some(())
    } else {
        None
    }
}

// Whether a change is told as it is wanted, or nothing changes and nothing is wanted.
fn agreed(
    before: &Network,
    after: &Network,
    id: &[u8],
    wanted: Option<&[u8]>,
    change: Option<Change>,
) -> Option<()>
    requires { (told : Told) → change ≡ Some told → IsTellable before.now after.now told }
    ensures { result ≡ agreed (option_map (λ w. w.now) wanted.entry)
        (change_told before.now after.now id.now change) }
{
    match (wanted, change) {
        (None, None) => Some(()),
        (None, Some(_)) => None,
        (Some(_), None) => None,
        (Some(wanted), Some(change)) => same_text(before, after, id, wanted, &change),
    }
}

impl<'a> Telling for StartChanges<'a> {
    ghost use Rattle.journey_changes.specs.Changes.{change_cuts, cuts_of_both};
    ghost use Rattle.journey_changes.specs.Cuts.{change_cuts_are_among_all};

    ghost told = { λ l. told_of l.id.now l.walks.before.sent l.walks.after.sent };

    ghost cuts = { λ l. cuts_of_both l.walks.before.sent.network l.walks.after.sent.network };

    ghost near = { λ l. change_cuts l.walks.before.sent l.walks.after.sent };

    ghost near_among = { λ l. change_cuts_are_among_all l.walks.before.sent l.walks.after.sent };

    fn agrees_on(&self, sides: &Box5, wanted: Option<&[u8]>) -> (Box5, Option<()>) {
        let (part, change) = self.walks.probe(sides);
        (
            part,
            agreed(
                self.network_before,
                self.network_after,
                self.id,
                wanted,
                change,
            ),
        )
    }
}
