// The turns of small runs.
use std::test::Fail;
use worker_pool::*;

// The job of a turn, where a run with so many improver turns and inputs has so many turns.
fn job_of(turns: u32, inputs: u32, u: u64) -> Option<Job> {
    let limits = Limits {
        seed: 1,
        turns: turns.min(1000000),
        budget: 50000,
    };
    let inputs = inputs.clamp(1, 256);
    if u < turn_count(&limits, inputs) {
        Some(job(&limits, inputs, u))
    } else {
        None
    }
}

// The turns of a run with so many improver turns and inputs have these jobs, in order.
fn must_have_jobs(turns: u32, inputs: u32, jobs: &[Option<Job>]) -> Result<(), Fail> {
    for u in 0..jobs.len() {
        if job_of(turns, inputs, u as u64) != jobs[u] {
            return Err(Fail::new(format_args!("turn {u}")));
        }
    }
    Ok(())
}

#[test]
fn one_input_has_no_rows(_rt: HostRuntime) -> Result<(), Fail> {
    must_have_jobs(2, 1, &[Some(Job::Walk(0)), Some(Job::Descend(1, 0)), None])
}

#[test]
fn two_inputs_have_one_row(_rt: HostRuntime) -> Result<(), Fail> {
    must_have_jobs(1, 2, &[Some(Job::Walk(0)), Some(Job::Row(0, 1)), None])
}

const OF_THREE_INPUTS: [Option<Job>; 7] = [
    Some(Job::Walk(0)),
    Some(Job::Row(0, 1)),
    Some(Job::Descend(1, 0)),
    Some(Job::Row(0, 2)),
    Some(Job::Row(1, 2)),
    Some(Job::Pack),
    None,
];

#[test]
fn three_inputs_have_three_rows_and_a_pack(_rt: HostRuntime) -> Result<(), Fail> {
    must_have_jobs(2, 3, &OF_THREE_INPUTS)
}
