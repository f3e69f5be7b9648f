// Worked tables, and tables of random weights whose best sum is found by trying all permutations.
use match_bound::*;
use std::alloc::Global;
use std::test::Fail;

// A table of these weights; all other pairs have the last one.
fn table(alloc: Global, m: u32, pairs: &[(u32, u32, u32)], rest: u32) -> Result<Weights, Fail> {
    let mut w = Weights::make(alloc, m.clamp(1, 256))?;
    for code in 0..m.wrapping_mul(m) {
        set(&mut w, code / m.max(1), code % m.max(1), rest);
    }
    for (i, j, weight) in pairs {
        set(&mut w, *i, *j, *weight);
    }
    Ok(w)
}

fn set(w: &mut Weights, i: u32, j: u32, weight: u32) {
    if i != j && i < w.side() && j < w.side() {
        w.set(i, j, weight);
    }
}

// The sum and the bound of the answer.
fn judged(alloc: Global, w: &Weights) -> Result<(u64, u64), Fail> {
    let best = best_assignment(alloc, w)?;
    Ok((best.sum, perm_bound(w, &best.perm)))
}

// The answer for a table with weight 1 but at these pairs has this sum and this bound.
fn must_judge(
    alloc: Global,
    m: u32,
    pairs: &[(u32, u32, u32)],
    wanted: (u64, u64),
) -> Result<(), Fail> {
    let w = table(alloc, m, pairs, 1)?;
    let found = judged(alloc, &w)?;
    if found == wanted {
        Ok(())
    } else {
        Err(Fail::new(format_args!("{found:?}, where {wanted:?} is wanted")))
    }
}

#[test]
fn finds_the_best_of_small_tables(rt: HostRuntime) -> Result<(), Fail> {
    must_judge(rt.alloc(), 4, &[(0, 1, 3), (2, 3, 2)], (10, 5))?;
    must_judge(rt.alloc(), 3, &[], (3, 2))?;
    must_judge(rt.alloc(), 1, &[], (0, 0))
}

// The sum of the list of numbers below the side that a code spells, if they are a permutation.
fn sum_of_code(w: &Weights, code: u32) -> Option<u64> {
    let mut rest = code;
    let mut used = 0_u32;
    let mut sum = 0_u64;
    for i in 0..w.side() {
        let j = rest % w.side();
        rest /= w.side();
        let bit = 1_u32.rotate_left(j);
        if used & bit != 0 {
            return None;
        }
        used |= bit;
        sum = sum.saturating_add(u64::from(w.get(i, j)));
    }
    Some(sum)
}

// The greatest sum, of all codes.
fn greatest_sum(w: &Weights, codes: u32) -> u64 {
    let mut greatest = 0;
    for code in 0..codes {
        greatest = greatest.max(sum_of_code(w, code).unwrap_or(0));
    }
    greatest
}

// A table of weights below a number, drawn by a congruence.
fn random_table(alloc: Global, m: u32, seed: u64, below: u32) -> Result<Weights, Fail> {
    let mut w = table(alloc, m, &[], 0)?;
    let mut state = seed;
    for code in 0..m.wrapping_mul(m) {
        state = state
            .wrapping_mul(6364136223846793005)
            .wrapping_add(1442695040888963407);
        set(
            &mut w,
            code / m.max(1),
            code % m.max(1),
            (state >> 33) as u32 % below.max(1),
        );
    }
    Ok(w)
}

// For each row the side, the number of codes of lists, and what the weights are below.
const SIDES: [(u32, u32, u32); 8] = [
    (2, 4, 9),
    (3, 27, 9),
    (4, 256, 3),
    (4, 256, 4000000000),
    (5, 3125, 5),
    (5, 3125, 1000),
    (6, 46656, 4),
    (6, 46656, 4000000000),
];

// The best sum of a random table is the greatest of all.
fn must_find(alloc: Global, m: u32, codes: u32, below: u32, seed: u64) -> Result<(), Fail> {
    let w = random_table(alloc, m, seed, below)?;
    let (sum, _) = judged(alloc, &w)?;
    if sum == greatest_sum(&w, codes) {
        Ok(())
    } else {
        Err(Fail::new(format_args!("{sum} for side {m}, seed {seed}")))
    }
}

fn must_find_each(alloc: Global, rows: &[(u32, u32, u32)], seed: u64) -> Result<(), Fail> {
    for row in rows {
        must_find(alloc, row.0, row.1, row.2, seed)?;
    }
    Ok(())
}

#[test]
fn finds_the_best_of_random_tables(rt: HostRuntime) -> Result<(), Fail> {
    for seed in 0..8 {
        must_find_each(rt.alloc(), &SIDES, seed)?;
    }
    Ok(())
}

// The first number of a copy of a list of one number.
fn first_of_perm(alloc: Global, number: u32) -> Result<u32, Fail> {
    let mut perm = Perm::make(alloc);
    perm.push(number)?;
    let copy = perm.copy()?;
    Ok(*copy.at(0))
}

fn first_of_ints(alloc: Global, number: i64) -> Result<i64, Fail> {
    let mut ints = Ints::make(alloc);
    ints.push(number)?;
    let copy = ints.copy()?;
    Ok(*copy.at(0))
}

#[test]
fn lists_hold_what_is_pushed(rt: HostRuntime) -> Result<(), Fail> {
    assert_eq!(rt; first_of_perm(rt.alloc(), 7)?, 7);
    assert_eq!(rt; first_of_ints(rt.alloc(), -7)?, -7);
    Ok(())
}

fn is_shared_and_moved<T: Send + Sync + Drop>(_value: T) {}

#[test]
fn assignments_go_between_threads(rt: HostRuntime) -> Result<(), Fail> {
    let w = table(rt.alloc(), 2, &[], 1)?;
    is_shared_and_moved(best_assignment(rt.alloc(), &w)?);
    is_shared_and_moved(w);
    Ok(())
}
