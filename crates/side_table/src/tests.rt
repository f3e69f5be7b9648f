// The table once with ample memory.
use super::*;
use std::test::Fail;

fn side(from: u32, to: u32, apex: Option<u32>) -> Side {
    Side { from, to, apex }
}

#[test]
fn a_table_of_three_sides(rt: HostRuntime) -> Result<(), Fail> {
    let mut table = SideTable::make(rt.alloc());
    assert!(rt; table.add(side(2, 1, Some(0))).is_ok());
    let copy = table.copy()?;
    let list = copy.list()?;
    assert_eq!(rt; list.len(), 1);
    let again = SideTable::of(rt.alloc(), &list[..0])?;
    assert!(rt; again.get(2, 1).is_none());
    assert!(rt; table.get(2, 1).is_some());
    assert!(rt; table.from_point(2).is_some());
    assert!(rt; table.from_point(1).is_none());
    Ok(())
}
