// What two sets of keys have in common.
ghost use Rattle.std.specs.Prelude.{◌≡◌, ◌↔◌, IsTrue};
ghost use Rattle.security_groups.specs.Sharing.{AnyShares, IsLowFrom, Shares};

use number_tables::{NumberSet, key_of};

// The least number from `low` on that makes a key with `high`.
fn low_from(keys: &NumberSet, high: u32, low: u32) -> Option<u32>
    ensures { IsLowFrom keys.now high low result }
{
    let Some(next) = keys.next(key_of(high, low)) else {
        return None;
    };
    if next > key_of(high, u32::MAX) {
        return None;
    }
    Some((next - key_of(high, 0)) as u32)
}

/// Whether a number makes a key of one set with `x`, and one of the other with `y`. It goes through the keys of both at once, with
/// a search for each, so it takes twice as many as the fewer keys are at most.
pub fn share(keys: &NumberSet, x: u32, others: &NumberSet, y: u32) -> bool
    ensures { IsTrue result ↔ Shares keys.now x others.now y }
{
    let mut low = 0;
    while let Some(one) = low_from(keys, x, low) {
        let Some(other) = low_from(others, y, one) else {
            return false;
        };
        if other == one {
            return true;
        }
        low = other;
    }
    false
}

/// Whether one of the numbers that make keys with `x` shares one with `y` in a second set.
pub fn any_shares(keys: &NumberSet, x: u32, others: &NumberSet, y: u32) -> bool
    ensures { IsTrue result ↔ AnyShares keys.now x others.now y }
{
    if low_from(others, y, 0).is_none() {
        return false;
    }
    let mut low = 0;
    while let Some(one) = low_from(keys, x, low) {
        if share(others, one, others, y) {
            return true;
        }
        if one == u32::MAX {
            return false;
        }
        low = one + 1;
    }
    false
}
