// The calls that take memory, once with ample memory.
use crate::Claims;
use std::alloc::AllocError;
use std::test::Fail;

#[test]
fn two_turns_are_drawn_and_the_third_draw_is_late(rt: HostRuntime) -> Result<(), Fail> {
    let (claims, mut seats) = Claims::make(rt.alloc(), 2, 1)?;
    let Some(mut seat) = seats.pop() else {
        return Err(Fail::from(AllocError));
    };
    let mut drawn = Vec::new(rt.alloc());
    for _ in 0..9 {
        match claims.draw(&mut seat) {
            Some(number) => drawn.push(number)?,
            None => break,
        }
    }
    seats.push(seat)?;
    let draws = claims.close(seats);
    assert_eq!(rt; drawn.as_slice(), [0, 1].as_slice());
    assert_eq!(rt; draws, 3);
    Ok(())
}
