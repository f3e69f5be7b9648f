// Each way to fill a list once, with ample memory.
use super::*;
use std::test::Fail;

#[test]
fn what_is_popped_leaves_room(rt: HostRuntime) -> Result<(), Fail> {
    let mut list = SeatList::make(rt.alloc());
    list.push(4u64)?;
    list.push(7u64)?;
    assert_eq!(rt; list.pop(), Some(7));
    list.push_spared(9);
    assert_eq!(rt; list.len(), 2);
    assert_eq!(rt; *list.at(1), 9);
    Ok(())
}

#[test]
fn a_list_has_the_room_that_was_asked_for(rt: HostRuntime) -> Result<(), Fail> {
    let mut list = SeatList::with_room(rt.alloc(), 1)?;
    list.push_spared(4u64);
    assert_eq!(rt; list.pop(), Some(4));
    assert!(rt; list.is_empty());
    Ok(())
}
