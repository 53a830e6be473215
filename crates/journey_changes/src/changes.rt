// What changes for a request.
ghost use Rattle.std.specs.Prelude.{◌≡◌, ◌↔◌, IsTrue};
ghost use Rattle.journey_changes.specs.Changes.{change_by, have_one_id, moved};

use crate::fates::{Barrier, same_barrier};
use described_hosts::{far_id, id_of};
use packet_emulator::same_end;
use reference_check::Network;
use vpc_model::End;

/// What changes for a request between two networks. An end is one of the network in which it is reached, and so is what
/// a stop carries.
#[derive(Clone, Copy)]
pub enum Change {
    /// It reaches this end in the second network, and was kept from one in the first.
    Opened(End, Barrier),
    /// It reached this end in the first network, and is kept from one in the second.
    Closed(End, Barrier),
    /// It reaches an end in both, and the two have different ids.
    Moved(End, End),
}

fn have_one_id(before: &Network, after: &Network, one: End, other: End) -> bool
    ensures { result ≡ have_one_id before.now after.now one other }
{
    match (one, other) {
        (End::Interface(i), End::Interface(j)) => id_of(before, i) == id_of(after, j),
        (End::Internet, End::Internet) => true,
        (End::Far(k), End::Far(l)) => far_id(before, k) == far_id(after, l),
        _ => false,
    }
}

fn moved(before: &Network, after: &Network, one: End, other: End) -> Option<Change>
    ensures { result ≡ moved before.now after.now one other }
{
    if have_one_id(before, after, one, other) {
        None
    } else {
        Some(Change::Moved(one, other))
    }
}

/// By what becomes of the request in each network.
pub(crate) fn change_by(
    before: &Network,
    after: &Network,
    first: Result<End, Barrier>,
    second: Result<End, Barrier>,
) -> Option<Change>
    ensures { result ≡ change_by before.now after.now first second }
{
    match (first, second) {
        (Err(_), Err(_)) => None,
        (Err(barrier), Ok(end)) => Some(Change::Opened(end, barrier)),
        (Ok(end), Err(barrier)) => Some(Change::Closed(end, barrier)),
        (Ok(one), Ok(other)) => moved(before, after, one, other),
    }
}

fn same_told(one: (End, Barrier), other: (End, Barrier)) -> bool
    ensures { IsTrue result ↔ (one ≡ other) }
{
    same_end(one.0, other.0) && same_barrier(one.1, other.1)
}

fn same_move(one: (End, End), other: (End, End)) -> bool
    ensures { IsTrue result ↔ (one ≡ other) }
{
    same_end(one.0, other.0) && same_end(one.1, other.1)
}

pub(crate) fn same_change(one: Change, other: Change) -> bool
    ensures { IsTrue result ↔ (one ≡ other) }
{
    match (one, other) {
        (Change::Opened(end, barrier), Change::Opened(other_end, other_barrier)) => {
            same_told((end, barrier), (other_end, other_barrier))
        }
        (Change::Closed(end, barrier), Change::Closed(other_end, other_barrier)) => {
            same_told((end, barrier), (other_end, other_barrier))
        }
        (Change::Moved(end, to), Change::Moved(other_end, other_to)) => {
            same_move((end, to), (other_end, other_to))
        }
        (Change::Opened(..), Change::Closed(..)) => false,
        (Change::Opened(..), Change::Moved(..)) => false,
        (Change::Closed(..), Change::Opened(..)) => false,
        (Change::Closed(..), Change::Moved(..)) => false,
        (Change::Moved(..), Change::Opened(..)) => false,
        (Change::Moved(..), Change::Closed(..)) => false,
    }
}
