//! Flip lists with the round numbers of their flips: one flip more, one flip less, and the rounds that they group into.
#![tactic(auto)]

mod chain;
mod count;
mod group;
mod list;
mod maker;
mod number;
mod slot;
mod threads;
mod track;

pub use list::TrackList;
pub use track::Track;
