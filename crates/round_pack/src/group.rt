// The rounds that a flip list groups into, and the images of the last one.
ghost use Rattle.std.specs.Prelude.{◌≡◌, ◌<◌, ◌↔◌, ◌⊎◌, [], length, vec_len, Contains, IfOk, OnOk};
ghost use Rattle.edge_table.specs.declared.edge.Edge.{Edge};
ghost use Rattle.edge_table.specs.Edges.{IsAscending};
ghost use Rattle.flip_list_law.specs.FlipLists.{round_numbers};
ghost use Rattle.round_pack.specs.Groups.{AreEmptySets, PutsEdge, AreRoundSets, AddsImage, IsImageSet, AreAscendingSets};

use crate::number::greatest;
use edge_table::{Edge, EdgeList, EdgeSeq, Rounds};
use flip_list_law::Flip;
use std::alloc::{AllocError, Global};

fn empty_sets(alloc: Global, count: u64) -> Result<Vec<EdgeList>, AllocError>
    ensures { IfOk result (λ v. AreEmptySets v.items count) }
{
    let mut sets = Vec::new(alloc);
    let mut left = count;
    while left > 0 {
        sets.push(EdgeList::make(alloc))?;
        left -= 1;
    }
    Ok(sets)
}

// Adds an edge to the set with `before` others before it.
fn put(sets: &mut Vec<EdgeList>, before: usize, e: Edge) -> Result<(), AllocError>
    requires { before < length sets.old.items }
    ensures { OnOk result (PutsEdge sets.old.items sets.new.items before e) }
{
    let set = &mut sets[before];
    set.insert(e)?;
    Ok(())
}

// The edges of each round as a set.
pub(crate) fn round_sets(
    alloc: Global,
    flips: &[Flip],
    numbers: &[u64],
) -> Result<Vec<EdgeList>, AllocError>
    requires { numbers.now ≡ round_numbers flips.now }
    ensures { IfOk result (λ v. AreRoundSets v.items flips.now numbers.now (length flips.now)) }
{
    let mut sets = empty_sets(alloc, greatest(numbers))?;
    for i in 0..flips.len() {
        let before = numbers[i] - 1;
        put(&mut sets, before as usize, flips[i].edge)?;
    }
    Ok(sets)
}

// The edges of a set as a list.
pub(crate) fn seq_of(alloc: Global, set: &EdgeList) -> Result<EdgeSeq, AllocError>
    ensures same { IfOk result (λ s. s ≡ set.now) }
    ensures ascending { IsAscending set.now }
{
    let mut seq = EdgeSeq::make(alloc);
    for i in 0..set.len() {
        seq.push(set.at(i))?;
    }
    Ok(seq)
}

// The sets as rounds.
pub(crate) fn rounds_of(alloc: Global, sets: &[EdgeList]) -> Result<Rounds, AllocError>
    ensures same { IfOk result (λ r. r ≡ sets.now) }
    ensures ascending { OnOk result (AreAscendingSets sets.now (length sets.now)) }
{
    let mut rounds = Rounds::make(alloc);
    for i in 0..sets.len() {
        rounds.push(seq_of(alloc, &sets[i])?)?;
    }
    Ok(rounds)
}

// Adds the image of a flip whose number is this one.
fn add_image(set: &mut EdgeList, flip: &Flip, number: u64, wanted: u64) -> Result<(), AllocError>
    ensures { OnOk result (AddsImage set.old set.new flip.now number wanted) }
{
    if number == wanted {
        set.insert(flip.image)?;
    }
    Ok(())
}

// The images of the flips with this number as a set.
pub(crate) fn image_set(
    alloc: Global,
    flips: &[Flip],
    numbers: &[u64],
    wanted: u64,
) -> Result<EdgeList, AllocError>
    requires { length numbers.now ≡ length flips.now }
    ensures { IfOk result (λ s. IsImageSet s flips.now numbers.now wanted (length flips.now)) }
{
    let mut set = EdgeList::make(alloc);
    for i in 0..flips.len() {
        add_image(&mut set, &flips[i], numbers[i], wanted)?;
    }
    Ok(set)
}
