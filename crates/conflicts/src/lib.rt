// Conflicts: two places and three books that no tree explains together.
#![tactic(auto)]

mod entry;
mod laws;
mod pairs;
mod search;
mod seen;

pub use entry::first_in_file;
pub use laws::{four_ways_stand, one_answer_stands, ties_stand};
pub use pairs::cross;
pub use search::{Conflict, first_conflict};

#[cfg(test)]
mod tests;
