// Formulas that unit steps alone don't refute: refuted with logs of many lines, which the checker accepts.
ghost use Rattle.std.specs.Prelude.{◌≤◌, IfOk, OnSome, IfSome};
ghost use Rattle.log_law.specs.Clauses.{IsClause};

use super::*;
use crate::tests::{add, told};
use rup_check::Cnf;
use std::alloc::Global;
use std::test::Fail;

// The variable that says that a pigeon sits in a hole, where there are so many holes. All count from 0, and variables from 1.
fn sits(holes: i32, pigeon: i32, hole: i32) -> i32 {
    pigeon
        .wrapping_mul(holes)
        .wrapping_add(hole)
        .wrapping_add(1)
}

// Each pigeon sits in a hole.
fn each_sits(alloc: Global, cnf: &mut Cnf, holes: i32) -> Result<(), Fail> {
    for pigeon in 0..=holes {
        let mut some = Vec::new(alloc);
        for hole in 0..holes {
            some.push(sits(holes, pigeon, hole))?;
        }
        add(alloc, cnf, &some)?;
    }
    Ok(())
}

// No two pigeons sit in this hole.
fn one_alone(alloc: Global, cnf: &mut Cnf, holes: i32, hole: i32) -> Result<(), Fail> {
    for pigeon in 0..=holes {
        for other in 0..=holes {
            let first = sits(holes, pigeon, hole);
            let second = sits(holes, other, hole);
            add(alloc, cnf, &[first.wrapping_neg(), second.wrapping_neg()])?;
        }
    }
    Ok(())
}

// One pigeon more than holes, and no two in one hole.
fn pigeons(alloc: Global, vars: u32, holes: i32) -> Result<Cnf, Fail> {
    let mut cnf = Cnf::make(alloc, vars);
    each_sits(alloc, &mut cnf, holes)?;
    for hole in 0..holes {
        one_alone(alloc, &mut cnf, holes, hole)?;
    }
    Ok(cnf)
}

#[test]
fn pigeons_one_more_than_holes_are_refuted(rt: HostRuntime) -> Result<(), Fail> {
    let alloc = rt.alloc();
    for (vars, holes, clauses, least) in [(20, 4, 45, 10), (30, 5, 81, 20)] {
        let cnf = pigeons(alloc, vars, holes)?;
        assert_eq!(rt; cnf.len(), clauses);
        let (kind, lines, right) = told(alloc, &cnf, 1_000_000)?;
        assert_eq!(rt; (kind, right), ("refuted", true));
        assert!(rt; lines >= least, "{lines} lines");
    }
    Ok(())
}

// Words that follow on each other, of which each gives a signed variable of twenty.
#[derive(Drop)]
struct Draws {
    word: u64,
}

impl Draws {
    fn next(&mut self) -> i32 {
        self.word = self
            .word
            .wrapping_mul(6_364_136_223_846_793_005)
            .wrapping_add(1_442_695_040_888_963_407);
        let var = ((self.word >> 40) % 20) as i32 + 1;
        if (self.word >> 39) % 2 == 0 {
            var
        } else {
            -var
        }
    }
}

// Some hundred clauses of three variables. That those from the seeds 1, 2 and 3 have no model was found by trying all truth values.
fn threes(alloc: Global, seed: u64) -> Result<Cnf, Fail> {
    let mut cnf = Cnf::make(alloc, 20);
    let mut draws = Draws { word: seed };
    for _ in 0..800 {
        let lits = [draws.next(), draws.next(), draws.next()];
        add(alloc, &mut cnf, &lits)?;
    }
    Ok(cnf)
}

#[test]
fn clauses_of_three_are_refuted(rt: HostRuntime) -> Result<(), Fail> {
    let alloc = rt.alloc();
    for (seed, clauses) in [(1, 120), (2, 106), (3, 122)] {
        let cnf = threes(alloc, seed)?;
        assert_eq!(rt; cnf.len(), clauses);
        let (kind, lines, right) = told(alloc, &cnf, 1_000_000)?;
        assert_eq!(rt; (kind, right), ("refuted", true));
        assert!(rt; lines >= 5, "{lines} lines");
    }
    Ok(())
}

#[test]
fn a_search_of_many_lines_finds_a_model(rt: HostRuntime) -> Result<(), Fail> {
    let cnf = threes(rt.alloc(), 4)?;
    assert_eq!(rt; told(rt.alloc(), &cnf, 1_000_000)?, ("sat", 20, true));
    Ok(())
}
