//! What improves a plan: moves that settle it, walks over moves that words pick, and descents from its inputs to its centre.
#![tactic(auto)]

mod descending;
mod greedy;
mod improving;
mod lowering;
mod settling;
mod threads;
mod walking;

pub use descending::{Descent, descend};
pub use improving::improve;
pub use lowering::first_move;
pub use settling::settle;
pub use walking::{Walk, walk_turn, walker};
