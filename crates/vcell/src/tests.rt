// The call that takes memory, once with ample memory.
use crate::{Grows, VCell};
use std::alloc::AllocError;
use std::test::Fail;

#[derive(Drop)]
struct Numbers {
    items: Vec<u64>,
}

impl Grows for Numbers {
    type Entry = u64;

    type Ground = ();

    ghost entries = { λ n. n.items.items };

    ghost ground = { λ n. tt };

    fn count(&self) -> u64 {
        self.items.len() as u64
    }
}

#[test]
fn a_lock_with_all_its_passes_gives_the_value_back(rt: HostRuntime) -> Result<(), Fail> {
    let items = vec![in rt.alloc(); 4, 7]?;
    let Ok(made) = VCell::make(rt.alloc(), Numbers { items }, 16) else {
        return Err(Fail::from(AllocError));
    };
    let (cell, passes) = made;
    assert_eq!(rt; passes.len(), 16);
    assert_eq!(rt; cell.close(passes).items.as_slice(), [4, 7].as_slice());
    Ok(())
}
