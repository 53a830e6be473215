// Entries and numbers in any order.
use number_tables::{Entry, NumberSet, NumberTable};
use std::test::Fail;

#[test]
fn gives_values(rt: HostRuntime) -> Result<(), Fail> {
    let entries = [(7, 'a'), (u64::MAX, 'b'), (0, 'c'), (7, 'd'), (8, 'e')];
    let mut given = Vec::new(rt.alloc());
    for (key, value) in entries {
        given.push(Entry { key, value })?;
    }
    let table = NumberTable::of(given)?;
    let cases = [
        (0, Some('c')),
        (1, None),
        (6, None),
        (7, Some('a')),
        (8, Some('e')),
        (9, None),
        (u64::MAX, Some('b')),
    ];
    for (key, want) in cases {
        assert!(rt; table.get(key) == want);
    }
    let nexts = [
        (0, Some(0)),
        (1, Some(7)),
        (7, Some(7)),
        (8, Some(8)),
        (9, Some(u64::MAX)),
        (u64::MAX, Some(u64::MAX)),
    ];
    for (key, want) in nexts {
        assert!(rt; table.next_key(key) == want);
    }
    Ok(())
}

#[test]
fn has_numbers(rt: HostRuntime) -> Result<(), Fail> {
    let given = vec![in rt.alloc(); 7, u64::MAX, 0, 7, 9]?;
    let set = NumberSet::of(given);
    let cases = [
        (0, true),
        (1, false),
        (7, true),
        (8, false),
        (9, true),
        (10, false),
        (u64::MAX, true),
    ];
    for (number, want) in cases {
        assert!(rt; set.has(number) == want);
    }
    let set = NumberSet::of(vec![in rt.alloc(); 9, 7, 7]?);
    let nexts = [
        (0, Some(7)),
        (7, Some(7)),
        (8, Some(9)),
        (9, Some(9)),
        (10, None),
        (u64::MAX, None),
    ];
    for (number, want) in nexts {
        assert!(rt; set.next(number) == want);
    }
    let none = NumberSet::of(Vec::new(rt.alloc()));
    assert!(rt; none.has(0) == false);
    assert!(rt; none.next(0) == None);
    Ok(())
}
