// The numbers of the variables of a pruned formula.
ghost use Rattle.std.specs.Prelude.{◌≡◌, ◌+◌, ◌<◌, ◌≤◌, ◌++◌, ◌∷◌, [], Some, None, cond, length, IfOk, OnOk};
ghost use Rattle.formula_parts.specs.Building.{pair_at};
ghost use Rattle.formula_parts.specs.Lists.{edge_at};
ghost use Rattle.pruned_cnf.specs.Queries.{place_number, flip_number, variables_in, clauses_in};
ghost use Rattle.pruned_cnf.specs.Numbered.{layer_numbers, round_numbers, layers_numbers, rounds_numbers, count_of_places, places_before, flips_before};

use crate::Query;
use std::alloc::{AllocError, Global};
use std::marker::Model;

// What is numbered so far: for each place or flip its number, where it is live, and the last number that was given.
#[derive(Drop)]
struct Numbers {
    entries: Vec<Option<u32>>,
    last: u32,
}

impl Numbers {
    // Gives the next number to a place or a flip that is live, and none to another one.
    fn push(&mut self, live: bool) -> Result<(), AllocError>
        requires { self.old.last < 1_000_000 }
        ensures entries { OnOk result (self.new.entries.items ≡ self.old.entries.items ++ cond live (Some (self.old.last + 1)) None ∷ []) }
        ensures last { OnOk result (self.new.last ≡ self.old.last + cond live 1 0) }
    {
        if live {
            self.last += 1;
            self.entries.push(Some(self.last))?;
        } else {
            self.entries.push(None)?;
        }
        Ok(())
    }
}

// Numbers the segments after `t` rounds. A formula of at most 400,000 clauses has no more than 404,096 variables, since all but those of the last layer have a clause each.
fn number_layer(query: &Query, numbers: &mut Numbers, t: u32) -> Result<(), AllocError>
    requires few { variables_in query.now ≤ 404_096 }
    requires layer { t ≤ query.now.rounds }
    requires last { numbers.old.last ≡ places_before query.now t }
    ensures entries { OnOk result (numbers.new.entries.items ≡ numbers.old.entries.items ++ layer_numbers query.now t) }
    ensures last { OnOk result (numbers.new.last ≡ places_before query.now (t + 1)) }
{
    for n in 0..query.lists().segments() {
        numbers.push(query.is_live(t, n))?;
    }
    Ok(())
}

// Numbers the flips in round `t`.
fn number_round(query: &Query, numbers: &mut Numbers, t: u32) -> Result<(), AllocError>
    requires few { variables_in query.now ≤ 404_096 }
    requires round { t < query.now.rounds }
    requires last { numbers.old.last ≡ flips_before query.now t }
    ensures entries { OnOk result (numbers.new.entries.items ≡ numbers.old.entries.items ++ round_numbers query.now t) }
    ensures last { OnOk result (numbers.new.last ≡ flips_before query.now (t + 1)) }
{
    for n in 0..query.lists().flips() {
        numbers.push(query.is_live_flip(t, n))?;
    }
    Ok(())
}

// Numbers all places, layer by layer.
fn number_places(alloc: Global, query: &Query) -> Result<Numbers, AllocError>
    requires { variables_in query.now ≤ 404_096 }
    ensures entries { IfOk result (λ numbers. numbers.entries.items ≡ layers_numbers query.now (query.now.rounds + 1)) }
    ensures last { IfOk result (λ numbers. numbers.last ≡ count_of_places query.now) }
{
    let mut numbers = Numbers {
        entries: Vec::new(alloc),
        last: 0,
    };
    for t in 0..=query.rounds() {
        number_layer(query, &mut numbers, t)?;
    }
    Ok(numbers)
}

// Numbers all flips, round by round, where `last` is the number of live places.
fn number_flips(alloc: Global, query: &Query, last: u32) -> Result<Numbers, AllocError>
    requires few { variables_in query.now ≤ 404_096 }
    requires last { last ≡ count_of_places query.now }
    ensures entries { IfOk result (λ numbers. numbers.entries.items ≡ rounds_numbers query.now query.now.rounds) }
    ensures last { IfOk result (λ numbers. numbers.last ≡ variables_in query.now) }
{
    let mut numbers = Numbers {
        entries: Vec::new(alloc),
        last,
    };
    for t in 0..query.rounds() {
        number_round(query, &mut numbers, t)?;
    }
    Ok(numbers)
}

/// The numbers of the variables of the pruned formula of a query that isn't large: 8 bytes for each segment of each layer and for each flip of each round.
#[derive(Drop)]
pub(crate) struct Numbering<'a> {
    query: &'a Query<'a>,
    places: Vec<Option<u32>>,
    flips: Vec<Option<u32>>,
    variables: u32,
}

impl<'a> Model for Numbering<'a> {
    ghost use Rattle.pruned_cnf.specs.Queries.{Query};
    ghost use Rattle.pruned_cnf.specs.Numbered.{AreNumbered};

    ghost Value = { Query };

    ghost view = { λ n. n.query.now };

    ghost invariant = { λ n. AreNumbered n.query.now n.places.items n.flips.items n.variables };
}

impl<'a> Numbering<'a> {
    // That of a query whose formula has at most 400,000 clauses.
    pub(crate) fn of(alloc: Global, query: &'a Query<'a>) -> Result<Numbering<'a>, AllocError>
        requires { length (clauses_in query.now) ≤ 400_000 }
        ensures { IfOk result (λ n. n ≡ query.entry.now) }
    {
        let _ = query.lists().segments();
        let places = number_places(alloc, query)?;
        let flips = number_flips(alloc, query, places.last)?;
        Ok(Numbering {
            query,
            places: places.entries,
            flips: flips.entries,
            variables: flips.last,
        })
    }

    pub(crate) fn query(&self) -> &Query<'a>
        ensures { result.now ≡ self.now }
    {
        self.query
    }

    // The number of variables.
    pub(crate) fn variables(&self) -> u32
        ensures { result ≡ variables_in self.now }
    {
        self.variables
    }

    // The number of "the segment with the number `n` is there after `t` rounds", where that place is live.
    pub(crate) fn place(&self, t: u32, n: u32) -> Option<u32>
        requires layer { t ≤ self.now.rounds }
        requires within { n < length self.now.frame.segments }
        ensures { result ≡ place_number self.now t (edge_at self.now.frame.segments n) }
    {
        let width = self.query.lists().segments() as usize;
        self.places[t as usize * width + n as usize]
    }

    // The number of "the flip with the number `n` is made in round `t`", where that flip is live.
    pub(crate) fn flip(&self, t: u32, n: u32) -> Option<u32>
        requires round { t < self.now.rounds }
        requires within { n < length self.now.frame.flips }
        ensures { result ≡ flip_number self.now t (pair_at self.now.frame.flips n) }
    {
        let width = self.query.lists().flips() as usize;
        self.flips[t as usize * width + n as usize]
    }
}
