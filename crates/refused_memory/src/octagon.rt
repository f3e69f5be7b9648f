// An octagon whose inputs are the fans at two neighbours, its books, and what is read off a book.
ghost use Rattle.std.specs.Prelude.{◌≡◌, [], length, IfOk};

use book_core::Book;
use book_solve::open;
use edge_table::{Edge, EdgeSeq, Rounds};
use instance_json::read_instance;
use std::alloc::{AllocError, Global};
use std::sync::Arc;
use tri_check::Instance;

pub(crate) const OCTAGON: &str =
    r#"{"instance_uid":"O","points_x":[8,7,4,1,-1,-4,-7,-8],"points_y":[1,4,7,8,8,7,4,1],"triangulations":[[[0,2],[0,3],[0,4],[0,5],[0,6]],[[1,3],[1,4],[1,5],[1,6],[1,7]]]}"#;

// The same where the second input counts three times, so that moves lower the total of the opening.
pub(crate) const HEAVY: &str =
    r#"{"instance_uid":"O","points_x":[8,7,4,1,-1,-4,-7,-8],"points_y":[1,4,7,8,8,7,4,1],"triangulations":[[[0,2],[0,3],[0,4],[0,5],[0,6]],[[1,3],[1,4],[1,5],[1,6],[1,7]]],"x_weights":[1,3]}"#;

fn instance(alloc: Global, text: &str) -> Result<Arc<Instance>, AllocError> {
    let Ok(raw) = read_instance(alloc, text.as_bytes()) else {
        return Err(AllocError);
    };
    match Instance::check(alloc, raw) {
        Ok(instance) => Ok(instance),
        Err(_) => Err(AllocError),
    }
}

// The book that is opened for an instance.
pub(crate) fn opened(alloc: Global, text: &str) -> Result<Book, AllocError>
    ensures { IfOk result (λ b. b.journal ≡ []) }
{
    match open(alloc, instance(alloc, text)?, 28) {
        Ok(book) => Ok(book),
        Err(_) => Err(AllocError),
    }
}

// The same where there are two inputs.
pub(crate) fn opened_for_two(alloc: Global, text: &str) -> Result<Book, AllocError>
    ensures empty { IfOk result (λ b. b.journal ≡ []) }
    ensures two { IfOk result (λ b. length b.problem.inputs ≡ 2) }
{
    let book = opened(alloc, text)?;
    if book.plan().inst().inputs() == 2 {
        Ok(book)
    } else {
        Err(AllocError)
    }
}

fn edges(alloc: Global, pairs: &[(u32, u32)]) -> Result<EdgeSeq, AllocError> {
    let mut made = EdgeSeq::make(alloc);
    for (a, b) in pairs {
        let Some(edge) = Edge::of(*a, *b) else {
            return Err(AllocError);
        };
        made.push(edge)?;
    }
    Ok(made)
}

const SHORTER: [&[(u32, u32)]; 4] = [
    &[(1, 4), (1, 6)],
    &[(1, 7)],
    &[(1, 5), (5, 7)],
    &[(1, 3), (3, 5)],
];

// Four rounds from the second input to the first centre, one fewer than the opening has.
pub(crate) fn shorter(alloc: Global) -> Result<Rounds, AllocError> {
    let mut made = Rounds::make(alloc);
    for pairs in SHORTER {
        made.push(edges(alloc, pairs)?)?;
    }
    Ok(made)
}

// What is read off a book.
#[derive(Clone, Copy, Debug, PartialEq, Eq)]
pub(crate) struct Numbers {
    pub(crate) total: u128,
    pub(crate) entries: u64,
    pub(crate) front: u64,
    pub(crate) bound: u64,
}

pub(crate) fn numbers_of(book: &Book) -> Numbers {
    Numbers {
        total: book.plan().total(),
        entries: book.len(),
        front: book.front(),
        bound: book.bound(),
    }
}
