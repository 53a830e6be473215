// A path with the greatest number, which no bundle is long enough for.
use json_fields::{Path, PathText};
use std::alloc::Global;
use std::test::Fail;
use vpc_base::NoMemory;

fn item_place(alloc: Global) -> Result<PathText, NoMemory> {
    let list = Path::list("NetworkInterfaces");
    let row = list.row(18446744073709551615);
    let groups = row.member("Groups");
    let group = groups.row(1);
    group.member("GroupId").text(alloc)
}

#[test]
fn places(rt: HostRuntime) -> Result<(), Fail> {
    let item = item_place(rt.alloc())?;
    let want: &[u8] = b"NetworkInterfaces[18446744073709551615].Groups[1].GroupId";
    assert_eq!(rt; item.bytes(), want);
    Ok(())
}
