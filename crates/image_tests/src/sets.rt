// Sets of addresses, and sets and tables by keys of addresses.
ghost use Rattle.std.specs.Prelude.{◌≡◌, ◌≤◌, ◌==◌, List, is_some, map, ℕ};
ghost use Rattle.std.specs.List.{list_any};
ghost use Rattle.address_sets.specs.Runs.{is_in};
ghost use Rattle.box_images.specs.Answers.{Answers};
ghost use Rattle.box_images.specs.Fields.{number_of};
ghost use Rattle.box_images.specs.Images.{IsImageOfWalk, IsValidImage, header_at};
ghost use Rattle.cut_laws.specs.Dividing.{CutOut, DivideTurns};
ghost use Rattle.number_tables.specs.Entries.{value_at};
ghost use Rattle.number_tables.specs.Keys.{key_of};
ghost use Rattle.number_tables.specs.Next.{IsNext};
ghost use Rattle.image_tests.specs.Keys.{EndsBy, IsKeyStretch, low_on};
ghost use Rattle.image_tests.specs.Tests.{IsAddressSide};

use address_sets::AddressSet;
use box_images::{Image, Part, Side};
use header_boxes::Box5;
use number_tables::{NumberSet, NumberTable, key_of};

/// The source or the destination at the low corner of the part.
pub fn low_on(i: &Image, side: Side) -> u32
    requires valid { IsValidImage i.now }
    requires address { IsAddressSide side }
    ensures { result ≡ low_on i.now side }
{
    i.least(side)
}

/// The body on which the source or the destination is at most the last one, which isn't below that
/// at the low corner.
pub fn up_to(i: &Image, side: Side, low: u32, last: u32) -> Box5
    requires valid { IsValidImage i.now }
    requires walk { IsImageOfWalk i.now }
    requires address { IsAddressSide side }
    requires low { low ≡ low_on i.now side }
    requires ordered { low ≤ last }
    ensures { EndsBy i.now side last result }
{
    i.narrow(side, low, last).body
}

/// Whether a set has the source or the destination. It reads about log2 n runs.
pub fn set_on(i: &Image, side: Side, set: &AddressSet) -> Part<bool>
    requires valid { IsValidImage i.now }
    requires walk { IsImageOfWalk i.now }
    requires address { IsAddressSide side }
    ensures { Answers (DivideTurns (λ a. is_in a set.now))
        (λ h. is_in (number_of (header_at i.now h) side) set.now) i.now.part result }
{
    let low = low_on(i, side);
    let (last, told) = set.stretch(low);
    Part {
        body: up_to(i, side, low, last),
        told,
    }
}

// How far addresses are alike, by the next of the keys from that of the address on.
fn key_stretch(next: Option<u64>, high: u32, address: u32) -> (u32, bool)
    requires { (keys : List ℕ) × IsNext keys (key_of high address) next }
    ensures { (keys : List ℕ) → IsNext keys (key_of high address) next
        → IsKeyStretch keys high address result }
{
    let Some(next) = next else {
        return (u32::MAX, false);
    };
    let key = key_of(high, address);
    if next == key {
        return (address, true);
    }
    if next > key_of(high, u32::MAX) {
        return (u32::MAX, false);
    }
    (address + (next - key - 1) as u32, false)
}

/// How far addresses are alike from one on: the last up to which a set has the keys of all of them with this high half,
/// or of none, and whether it has them. It reads about log2 n numbers.
pub fn members_from(numbers: &NumberSet, high: u32, address: u32) -> (u32, bool)
    ensures { IsKeyStretch numbers.now high address result }
{
    key_stretch(numbers.next(key_of(high, address)), high, address)
}

/// Whether a set has the key of the source or the destination with this high half. It reads about
/// log2 n numbers.
pub fn member_on(i: &Image, side: Side, numbers: &NumberSet, high: u32) -> Part<bool>
    requires valid { IsValidImage i.now }
    requires walk { IsImageOfWalk i.now }
    requires address { IsAddressSide side }
    ensures { Answers (CutOut (λ a. list_any (λ n. n == key_of high a) numbers.now))
        (λ h. list_any (λ n. n == key_of high (number_of (header_at i.now h) side)) numbers.now)
        i.now.part result }
{
    let low = low_on(i, side);
    let (last, told) = key_stretch(numbers.next(key_of(high, low)), high, low);
    Part {
        body: up_to(i, side, low, last),
        told,
    }
}

/// The value that a table has at the key of the source or the destination with this high half. It
/// reads about 2 log2 n entries.
pub fn entry_on<T: Copy + Drop>(
    i: &Image,
    side: Side,
    table: &NumberTable<T>,
    high: u32,
) -> Part<Option<T>>
    requires valid { IsValidImage i.now }
    requires walk { IsImageOfWalk i.now }
    requires address { IsAddressSide side }
    ensures { Answers (CutOut (λ a. is_some (value_at (key_of high a) table.now)))
        (λ h. value_at (key_of high (number_of (header_at i.now h) side)) table.now)
        i.now.part result }
{
    let low = low_on(i, side);
    let key = key_of(high, low);
    let (last, _) = key_stretch(table.next_key(key), high, low);
    Part {
        body: up_to(i, side, low, last),
        told: table.get(key),
    }
}
