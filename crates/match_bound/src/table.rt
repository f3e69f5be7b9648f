// A symmetric table of weights for pairs of inputs.
ghost use Rattle.std.specs.Prelude.{◌≡◌, ◌≢◌, ℕ, ◌<◌, ◌≤◌, length, replicate, slice_index, slice_set, IfOk};
ghost use Rattle.match_bound.specs.Tables.{weight, IsTable, SetsPair};

use std::alloc::{AllocError, Global};
use std::marker::Model;

#[derive(Debug, Drop)]
struct Row {
    items: Vec<u32>,
}

impl Model for Row {
    ghost use Rattle.std.specs.Prelude.{List, ℕ};

    ghost Value = { List ℕ };

    ghost view = { λ r. r.items.items };
}

impl Row {
    fn zeros(alloc: Global, m: usize) -> Result<Self, AllocError>
        ensures { IfOk result (λ row. row ≡ replicate m 0) }
    {
        Ok(Row {
            items: vec![in alloc; 0; m]?,
        })
    }

    fn at(&self, j: usize) -> u32
        requires { j < length self.now }
        ensures { result ≡ slice_index self.now j }
    {
        self.items[j]
    }

    fn put(&mut self, j: usize, w: u32)
        requires { j < length self.old }
        ensures { self.new ≡ slice_set self.old j w }
    {
        self.items[j] = w;
    }

    fn copy(&self) -> Result<Self, AllocError>
        ensures { IfOk result (λ row. row ≡ self.now) }
    {
        Ok(Row {
            items: self.items.clone()?,
        })
    }
}

/// Weights for pairs of up to 256 inputs, seen as a square table that equals its mirror and has zeros on its diagonal.
#[derive(Debug, Drop)]
pub struct Weights {
    rows: Vec<Row>,
}

impl Model for Weights {
    ghost use Rattle.std.specs.Prelude.{List, ℕ};
    ghost use Rattle.match_bound.specs.Tables.{IsTable};

    ghost Value = { List (List ℕ) };

    ghost view = { λ w. w.rows.items };

    ghost invariant = { λ w. IsTable w.rows.items };
}

impl Weights {
    /// The table of `m` inputs in which every weight is 0.
    pub fn make(alloc: Global, m: u32) -> Result<Self, AllocError>
        requires { (1 ≤ m) × (m ≤ 256) }
        ensures { IfOk result (λ w. w ≡ replicate m (replicate m 0)) }
    {
        let mut rows = Vec::new(alloc);
        for _ in 0..m {
            rows.push(Row::zeros(alloc, m as usize)?)?;
        }
        Ok(Weights { rows })
    }

    /// The number of inputs.
    pub fn side(&self) -> u32
        ensures side { result ≡ length self.now }
        ensures table { IsTable self.now }
    {
        self.rows.len() as u32
    }

    /// The weight of a pair.
    pub fn get(&self, i: u32, j: u32) -> u32
        requires { (i < length self.now) × (j < length self.now) }
        ensures { result ≡ weight self.now i j }
    {
        self.weight(i as usize, j as usize)
    }

    /// The weight of a pair, by places.
    pub(crate) fn weight(&self, i: usize, j: usize) -> u32
        requires { (i < length self.now) × (j < length self.now) }
        ensures { result ≡ weight self.now i j }
    {
        self.rows[i].at(j)
    }

    /// Gives a pair of two inputs this weight, in both orders.
    pub fn set(&mut self, i: u32, j: u32, w: u32)
        requires distinct { i ≢ j }
        requires below { (i < length self.old) × (j < length self.old) }
        ensures { SetsPair self.old self.new i j w }
    {
        self.rows[i as usize].put(j as usize, w);
        self.rows[j as usize].put(i as usize, w);
    }

    /// An equal table.
    pub fn copy(&self) -> Result<Self, AllocError>
        ensures { IfOk result (λ w. w ≡ self.now) }
    {
        let mut rows = Vec::new(*self.rows.allocator());
        for row in &self.rows {
            rows.push(row.copy()?)?;
        }
        Ok(Weights { rows })
    }
}
