// The readings of a table: its file, or why that is turned away.
#![tactic(auto)]

mod file;
mod laws;
mod refusals;
mod view;

pub use file::{MAX_BOOKS, MAX_PLACES, Sizes, read, read_rows, read_sizes};
pub use laws::{
    known_bits_stands, only_written_stands, reads_back_stands, row_bits_stands, table_bits_stands,
};
pub use refusals::{Lent, Refusal};
pub use view::Rows;

#[cfg(test)]
mod tests;
