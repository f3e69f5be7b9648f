// Instances at the limits of size, and numbers past 64 bits.
use crate::files::{INSTANCE, must_be, run_with, square_store};
use centre_run::Status;
use std::alloc::Global;
use std::test::Fail;

// `check` of this text ends so, with this line.
fn must_check(alloc: Global, text: &str, status: Status, line: &str) -> Result<(), Fail> {
    let mut store = square_store(alloc)?;
    store.hold(INSTANCE.name, text.as_bytes())?;
    let found = run_with(alloc, &mut store, INSTANCE.words)?;
    must_be(&found, status, line)
}

// The text of a list without its brackets.
#[derive(Drop)]
struct Items {
    text: String,
}

impl Items {
    fn none(alloc: Global) -> Self {
        Items {
            text: String::new(alloc),
        }
    }

    fn put(&mut self, item: &str) -> Result<(), Fail> {
        if !self.text.is_empty() {
            self.text.push_str(",")?;
        }
        self.text.push_str(item)?;
        Ok(())
    }
}

fn whole(alloc: Global, xs: &str, ys: &str, inputs: &str) -> Result<String, Fail> {
    Ok(format!(in alloc;
        "{{\"instance_uid\":\"Q\",\"points_x\":[{xs}],\"points_y\":[{ys}],\"triangulations\":[{inputs}]}}"
    )?)
}

// The square with so many inputs, which have no pair.
fn with_inputs(alloc: Global, count: u32) -> Result<String, Fail> {
    let mut inputs = Items::none(alloc);
    for _ in 0..count {
        inputs.put("[]")?;
    }
    whole(alloc, "0,2,2,0", "0,0,2,2", inputs.text.as_str())
}

// So many points (i, i²), and one input, which has no pair.
fn with_points(alloc: Global, count: u64) -> Result<String, Fail> {
    let mut xs = Items::none(alloc);
    let mut ys = Items::none(alloc);
    for i in 0..count.min(100_000) {
        xs.put(format!(in alloc; "{i}")?.as_str())?;
        let y = i * i;
        ys.put(format!(in alloc; "{y}")?.as_str())?;
    }
    whole(alloc, xs.text.as_str(), ys.text.as_str(), "[]")
}

// So many numbers from 0 on.
fn count_up(alloc: Global, items: &mut Items, count: u32) -> Result<(), Fail> {
    for i in 0..count {
        items.put(format!(in alloc; "{i}")?.as_str())?;
    }
    Ok(())
}

// One item so many times.
fn repeat(items: &mut Items, item: &str, count: u32) -> Result<(), Fail> {
    for _ in 0..count {
        items.put(item)?;
    }
    Ok(())
}

// The pairs that join each point of the lower row to the one above it and to the one right of that.
fn rungs(alloc: Global, count: u32) -> Result<String, Fail> {
    let count = count.min(100_000);
    let mut pairs = Items::none(alloc);
    for i in 0..count {
        let above = count + i;
        pairs.put(format!(in alloc; "[{i},{above}]")?.as_str())?;
        if i + 1 < count {
            let next = above + 1;
            pairs.put(format!(in alloc; "[{i},{next}]")?.as_str())?;
        }
    }
    Ok(pairs.text)
}

// Two rows of so many points each, with one input.
fn ladder(alloc: Global, count: u32) -> Result<String, Fail> {
    let mut xs = Items::none(alloc);
    let mut ys = Items::none(alloc);
    count_up(alloc, &mut xs, count)?;
    count_up(alloc, &mut xs, count)?;
    repeat(&mut ys, "0", count)?;
    repeat(&mut ys, "1", count)?;
    let rungs = rungs(alloc, count)?;
    let input = format!(in alloc; "[{rungs}]")?;
    whole(alloc, xs.text.as_str(), ys.text.as_str(), input.as_str())
}

#[test]
fn as_many_points_as_may_be_are_valid(rt: HostRuntime) -> Result<(), Fail> {
    let text = ladder(rt.alloc(), 8192)?;
    let line = "valid points 16384 inputs 1\n";
    must_check(rt.alloc(), text.as_str(), Status::Done, line)
}

#[test]
fn one_point_more_is_too_many(rt: HostRuntime) -> Result<(), Fail> {
    let text = with_points(rt.alloc(), 16_385)?;
    let line = "refused instance TooManyPoints 16385\n";
    must_check(rt.alloc(), text.as_str(), Status::Refused, line)
}

#[test]
fn too_many_inputs_are_counted(rt: HostRuntime) -> Result<(), Fail> {
    let text = with_inputs(rt.alloc(), 257)?;
    let line = "refused instance TooManyInputs 257\n";
    must_check(rt.alloc(), text.as_str(), Status::Refused, line)
}

#[test]
fn a_number_past_64_bits_is_none(rt: HostRuntime) -> Result<(), Fail> {
    let text = whole(
        rt.alloc(),
        "9223372036854775808,2,2,0",
        "0,0,2,2",
        "[[0,2]],[[1,3]]",
    )?;
    let line = "refused instance NotInteger points_x 0\n";
    must_check(rt.alloc(), text.as_str(), Status::Refused, line)
}
