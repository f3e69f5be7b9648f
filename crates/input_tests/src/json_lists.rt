// Each reader once with ample memory.
use json_value::*;

#[test]
fn numbers_and_pairs_are_read(rt: HostRuntime) {
    let Ok(value) = parse(rt.alloc(), "[[[1,2],[-3,4]],[]]".as_bytes()) else {
        assert!(rt; false, "a text of JSON");
        return;
    };
    let Some(lists) = value.as_array() else {
        assert!(rt; false, "a list");
        return;
    };
    let lists = lists.as_slice();
    if !are_pair_lists(lists) {
        assert!(rt; false, "lists of pairs");
        return;
    }
    assert_eq!(rt;
        numbers_in(rt.alloc(), lists).err(),
        Some(NumberFault::NotInteger(0))
    );
    let count = pair_lists_in(rt.alloc(), lists).map(|l| l.len());
    assert_eq!(rt; count, Ok(2));
}

#[test]
fn no_text_of_json_is_named(rt: HostRuntime) {
    assert_eq!(rt;
        parse(rt.alloc(), "[1".as_bytes()).err(),
        Some(ParseFault::NotJson)
    );
}
