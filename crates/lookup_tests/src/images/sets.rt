// Sets and tables of addresses.
ghost use Rattle.std.specs.Prelude.{◌≤◌};
ghost use Rattle.box_images.specs.Images.{IsImageOfWalk, IsValidImage};

use crate::requests::opens;
use address_sets::{AddressSet, Run};
use box_images::{Image, Side};
use header_boxes::Box5;
use image_tests::{entry_on, member_on, set_on};
use number_tables::{Entry, NumberSet, NumberTable, key_of};
use std::test::Fail;

// Requests from these addresses to 100 to 200.
fn from_addresses(first: u32, last: u32) -> Image
    requires { first ≤ last }
    ensures valid { IsValidImage result }
    ensures walk { IsImageOfWalk result }
{
    opens(&Box5 {
        proto: (6, 6),
        src: (first, last),
        dst: (100, 200),
        p: (1000, 2000),
        q: (443, 443),
    })
}

#[test]
fn asks_sets(rt: HostRuntime) -> Result<(), Fail> {
    let alloc = rt.alloc();
    let mut runs = Vec::new(alloc);
    for (first, last) in [(10, 19), (30, 39)] {
        runs.push(Run { first, last })?;
    }
    let set = AddressSet::of(alloc, runs)?;
    let cases = [
        (0, 99, false, 9),
        (10, 99, true, 19),
        (10, 15, true, 15),
        (25, 35, false, 29),
        (40, 99, false, 99),
    ];
    for (first, last, told, end) in cases {
        let i = from_addresses(first, last);
        let got = set_on(&i, Side::Src, &set);
        assert!(rt; (got.told, got.body.src) == (told, (first, end)));
        assert!(rt; got.body.dst == (100, 200));
    }
    let low = set_on(&from_addresses(10, 20), Side::Dst, &set);
    assert!(rt; (low.told, low.body.dst, low.body.src) == (false, (100, 200), (10, 20)));
    Ok(())
}

#[test]
fn asks_keys(rt: HostRuntime) -> Result<(), Fail> {
    let alloc = rt.alloc();
    let mut entries = Vec::new(alloc);
    let mut keys = Vec::new(alloc);
    for (high, low, value) in [(1, 5, 'a'), (2, 10, 'b'), (2, 20, 'c'), (3, 7, 'd')] {
        entries.push(Entry {
            key: key_of(high, low),
            value,
        })?;
        keys.push(key_of(high, low))?;
    }
    let table = NumberTable::of(entries)?;
    let set = NumberSet::of(keys);
    let cases = [
        (0, 99, None, 9),
        (10, 99, Some('b'), 10),
        (11, 99, None, 19),
        (11, 15, None, 15),
        (20, 20, Some('c'), 20),
        (21, 99, None, 99),
    ];
    for (first, last, value, end) in cases {
        let i = from_addresses(first, last);
        let entry = entry_on(&i, Side::Src, &table, 2);
        assert!(rt; (entry.told, entry.body.src) == (value, (first, end)));
        let member = member_on(&i, Side::Src, &set, 2);
        assert!(rt; (member.told, member.body.src) == (value.is_some(), (first, end)));
    }
    Ok(())
}
