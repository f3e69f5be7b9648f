// Lines of numbers and of logs once, with ample memory.
use host_io::Bytes;
use line_text::*;
use log_law::Lit;
use std::alloc::AllocError;

#[test]
fn the_numbers_of_a_line_are_read_and_written(rt: HostRuntime) -> Result<(), AllocError> {
    let mut out = Bytes::make(rt.alloc());
    put_line(&mut out, b"swap", &[7, 0, 4_294_967_296])?;
    assert_eq!(rt; out.as_slice(), b"swap 7 0 4294967296\n".as_slice());
    let Some(numbers) = numbers_after(rt.alloc(), b"swap", b"swap 7 0 4294967296")? else {
        assert!(rt; false, "a line of numbers");
        return Ok(());
    };
    assert_eq!(rt; numbers.as_slice(), [7, 0, 4_294_967_296].as_slice());
    Ok(())
}

#[test]
fn the_parts_of_a_log_line_are_read(rt: HostRuntime) -> Result<(), AllocError> {
    let Some(line) = log_line_of(rt.alloc(), b"60 1 -2 0 5 7 0")? else {
        assert!(rt; false, "a line of a log");
        return Ok(());
    };
    assert_eq!(rt; (line.id, line.lits.len(), line.hints.len()), (60, 2, 2));
    assert_eq!(rt; *line.lits.at(1), Lit { var: 2, on: false });
    assert_eq!(rt; *line.hints.at(0), 5);
    Ok(())
}
