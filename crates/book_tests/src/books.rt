// The opening books of a square and of an octagon, and what is offered to them.
ghost use Rattle.std.specs.Prelude.{◌≡◌, length, OnOk};

use crate::looks::must_count;
use crate::polygons::{OCTAGON, SQUARE, polygon};
use book_core::*;
use book_solve::open;
use edge_table::{Edge, EdgeSeq, Rounds};
use flip_cnf::Frame;
use geo_orient::Point;
use pair_rows::prove_pair;
use plan_core::SwapFault;
use replay::RoundFault;
use std::alloc::Global;
use std::test::Fail;

type Answer = Result<Accepted, Refusal>;

fn opened(alloc: Global, corners: &[Point]) -> Result<Book, Fail> {
    Ok(open(alloc, polygon(alloc, corners)?, 1000)?)
}

fn edge(a: u32, b: u32) -> Result<Edge, Fail> {
    match Edge::of(a, b) {
        Some(e) => Ok(e),
        None => Err(Fail::new("no edge")),
    }
}

fn edges(alloc: Global, pairs: &[(u32, u32)]) -> Result<EdgeSeq, Fail> {
    let mut made = EdgeSeq::make(alloc);
    for i in 0..pairs.len() {
        made.push(edge(pairs[i].0, pairs[i].1)?)?;
    }
    Ok(made)
}

fn rounds(alloc: Global, lists: &[&[(u32, u32)]]) -> Result<Rounds, Fail> {
    let mut made = Rounds::make(alloc);
    for i in 0..lists.len() {
        made.push(edges(alloc, lists[i])?)?;
    }
    Ok(made)
}

fn must_answer(told: &Answer, wanted: &Answer) -> Result<(), Fail> {
    if told == wanted {
        Ok(())
    } else {
        Err(Fail::new(format_args!("{told:?}, where {wanted:?} is wanted")))
    }
}

fn must_have_two(book: &Book) -> Result<(), Fail>
    ensures { OnOk result (length book.now.problem.inputs ≡ 2) }
{
    if book.plan().inst().inputs() == 2 {
        Ok(())
    } else {
        Err(Fail::new("not two inputs"))
    }
}

// What is answered to the move of one edge.
fn moved(alloc: Global, book: &mut Book, base: u64, pair: (u32, u32)) -> Result<Answer, Fail> {
    let edges = edges(alloc, &[pair])?;
    Ok(book.offer(base, Entry::Move { turn: 7, edges }))
}

// What is answered to rounds for input 1.
fn swapped(book: &mut Book, base: u64, rounds: Rounds) -> Result<Answer, Fail> {
    must_have_two(book)?;
    Ok(book.offer(
        base,
        Entry::Swap {
            turn: 7,
            input: 1,
            rounds,
        },
    ))
}

// What is answered to the row of the two inputs.
fn rowed(alloc: Global, book: &mut Book) -> Result<Answer, Fail> {
    must_have_two(book)?;
    let frame = Frame::of(alloc, book.plan().inst())?;
    let row = prove_pair(alloc, book.plan().inst(), &frame, 0, 1, 1000)?;
    Ok(book.offer(0, Entry::Row { turn: 7, row }))
}

// What is answered to the assignment that is held.
fn packed(book: &mut Book) -> Result<Answer, Fail> {
    let perm = book.perm().copy()?;
    Ok(book.offer(0, Entry::Pack { turn: 7, perm }))
}

// Bases, edges and the answers to their moves.
const MOVES: [(u64, (u32, u32), Answer); 3] = [
    (0, (0, 2), Err(Refusal::NotBetter { held: 1, given: 1 })),
    (1, (0, 2), Err(Refusal::Stale { base: 1, front: 0 })),
    (0, (1, 3), Err(Refusal::BadMove(0))),
];

fn must_move(
    alloc: Global,
    book: &mut Book,
    base: u64,
    pair: (u32, u32),
    wanted: &Answer,
) -> Result<(), Fail> {
    match moved(alloc, book, base, pair) {
        Ok(told) => must_answer(&told, wanted),
        Err(e) => Err(e),
    }
}

fn must_refuse_moves(alloc: Global, book: &mut Book) -> Result<(), Fail> {
    for i in 0..3 {
        must_move(alloc, book, MOVES[i].0, MOVES[i].1, &MOVES[i].2)?;
    }
    Ok(())
}

#[test]
fn the_square_keeps_its_opening(rt: HostRuntime) -> Result<(), Fail> {
    let mut book = opened(rt.alloc(), &SQUARE)?;
    must_refuse_moves(rt.alloc(), &mut book)
}

fn must_swap(book: &mut Book, base: u64, list: &Rounds, wanted: &Answer) -> Result<(), Fail> {
    match swapped(book, base, list.copy()?) {
        Ok(told) => must_answer(&told, wanted),
        Err(e) => Err(e),
    }
}

fn not_an_edge(e: Edge) -> Answer {
    Err(Refusal::BadSwap(SwapFault::Round(RoundFault::NotEdge(0, e))))
}

fn must_refuse_rounds_back(alloc: Global, book: &mut Book) -> Result<(), Fail> {
    let back = rounds(alloc, &[&[(0, 2)]])?;
    must_swap(book, 0, &back, &not_an_edge(edge(0, 2)?))
}

#[test]
fn rounds_from_elsewhere_are_refused(rt: HostRuntime) -> Result<(), Fail> {
    let mut book = opened(rt.alloc(), &SQUARE)?;
    must_refuse_rounds_back(rt.alloc(), &mut book)
}

fn must_pack(book: &mut Book, wanted: &Answer) -> Result<(), Fail> {
    match packed(book) {
        Ok(told) => must_answer(&told, wanted),
        Err(e) => Err(e),
    }
}

fn must_row(alloc: Global, book: &mut Book, wanted: &Answer) -> Result<(), Fail> {
    match rowed(alloc, book) {
        Ok(told) => must_answer(&told, wanted),
        Err(e) => Err(e),
    }
}

fn must_take_a_row_once(alloc: Global, book: &mut Book) -> Result<(), Fail> {
    must_pack(book, &Err(Refusal::NoRise { held: 0, given: 0 }))?;
    must_row(alloc, book, &Ok(Accepted { place: 0, saved: 0 }))?;
    must_row(alloc, book, &Err(Refusal::Taken(0, 1)))?;
    must_count(book, 1, 0, 0)
}

#[test]
fn a_row_of_the_square_is_taken_once(rt: HostRuntime) -> Result<(), Fail> {
    let mut book = opened(rt.alloc(), &SQUARE)?;
    must_take_a_row_once(rt.alloc(), &mut book)
}

// Four rounds from the fan at point 1 to the centre of the octagon.
const SHORTER: [&[(u32, u32)]; 4] = [
    &[(1, 4), (1, 6)],
    &[(1, 7)],
    &[(1, 5), (5, 7)],
    &[(1, 3), (3, 5)],
];

fn must_swap_once(book: &mut Book, list: &Rounds) -> Result<(), Fail> {
    must_swap(book, 0, list, &Ok(Accepted { place: 0, saved: 1 }))?;
    must_swap(book, 0, list, &Err(Refusal::Stale { base: 0, front: 1 }))?;
    must_swap(
        book,
        1,
        list,
        &Err(Refusal::NotBetter { held: 4, given: 4 }),
    )
}

#[test]
fn the_octagon_swaps_a_list_once(rt: HostRuntime) -> Result<(), Fail> {
    let mut book = opened(rt.alloc(), &OCTAGON)?;
    must_swap_once(&mut book, &rounds(rt.alloc(), &SHORTER)?)
}

fn must_reply(told: Reply, wanted: Reply) -> Result<(), Fail> {
    if told == wanted {
        Ok(())
    } else {
        Err(Fail::new(format_args!("{told:?}, where {wanted:?} is wanted")))
    }
}

fn joined(world: &mut World) -> Result<Reply, Fail> {
    if world.replicas() == 0 {
        Ok(world.step(Event::Join)?)
    } else {
        Err(Fail::new("a replica"))
    }
}

fn caught(world: &mut World) -> Result<Reply, Fail> {
    if world.replicas() == 1 {
        Ok(world.step(Event::Catch(0))?)
    } else {
        Err(Fail::new("not one replica"))
    }
}

// An offer of rounds for input 1 to the first replica of a world.
fn offered(world: &mut World, rounds: Rounds) -> Result<Reply, Fail> {
    must_have_two(world.book())?;
    if world.replicas() != 1 {
        return Err(Fail::new("not one replica"));
    }
    let entry = Entry::Swap {
        turn: 7,
        input: 1,
        rounds,
    };
    Ok(world.step(Event::Offer(0, entry))?)
}

fn must_join(world: &mut World) -> Result<(), Fail> {
    match joined(world) {
        Ok(told) => must_reply(told, Reply::Joined(0)),
        Err(e) => Err(e),
    }
}

fn must_catch(world: &mut World) -> Result<(), Fail> {
    match caught(world) {
        Ok(told) => must_reply(told, Reply::Caught(1)),
        Err(e) => Err(e),
    }
}

fn must_offer(world: &mut World, list: &Rounds, wanted: Reply) -> Result<(), Fail> {
    match offered(world, list.copy()?) {
        Ok(told) => must_reply(told, wanted),
        Err(e) => Err(e),
    }
}

const TAKEN: Reply = Reply::Accepted(Accepted { place: 0, saved: 1 });

const LATE: Reply = Reply::Refused(Refusal::Stale { base: 0, front: 1 });

const NO_BETTER: Reply = Reply::Refused(Refusal::NotBetter { held: 4, given: 4 });

fn must_catch_up(world: &mut World, list: &Rounds) -> Result<(), Fail> {
    must_join(world)?;
    must_offer(world, list, TAKEN)?;
    must_offer(world, list, LATE)?;
    must_catch(world)?;
    must_offer(world, list, NO_BETTER)
}

fn world_of(alloc: Global) -> Result<World, Fail> {
    Ok(World::at(alloc, opened(alloc, &OCTAGON)?))
}

#[test]
fn a_replica_catches_up(rt: HostRuntime) -> Result<(), Fail> {
    let mut world = world_of(rt.alloc())?;
    must_catch_up(&mut world, &rounds(rt.alloc(), &SHORTER)?)
}
