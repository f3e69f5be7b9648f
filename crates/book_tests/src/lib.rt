//! Tests of books, of the turns that workers take, and of what is solved and written.
#![tactic(auto)]

#[cfg(test)]
mod books;
#[cfg(test)]
mod looks;
#[cfg(test)]
mod polygons;
#[cfg(test)]
mod runs;
#[cfg(test)]
mod solved_books;
#[cfg(test)]
mod turns;
