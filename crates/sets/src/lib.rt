// Sets of books: bits of a number, compared by masks. Whoever stands above speaks of membership, and needs no mask or shift.
#![tactic(auto)]

mod books;
mod compare;
mod laws;
mod least;
mod places;

pub use books::{has, single, size, union};
pub use compare::{are_apart, are_equal, is_among};
pub use laws::{one_answer_stands, row_sets_stand, sizes_stand};
pub use least::{smallest, smallest_only, smallest_shared};
pub use places::{fill, set_at, set_of};

#[cfg(test)]
mod tests;
