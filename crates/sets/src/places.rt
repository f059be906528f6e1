// The sets of the places of a table: at each the books that read otherwise than book 0.
ghost use Rattle.readings.specs.Tables.{table_in};
ghost use Rattle.readings.specs.declared.refusals.Lent.TheVariants.{Sets};
ghost use Rattle.readings.specs.declared.refusals.Refusal.TheVariants.{Room};
ghost use Rattle.sets.specs.Tables.{InFront, SetsOf, other_at, otherwise};
ghost use Rattle.sets.specs.Sets.{Members};
ghost use Rattle.std.specs.Prelude.{◌≡◌, length, take, if◌then◌else◌, Ok, Err, OnOk, OnErr, nat_lt};

use crate::books::has;
use readings::{Lent, MAX_BOOKS, Refusal, Rows};

// The set of a row of n books: the row itself where book 0 reads 0, else its complement among the n.
#[tactic(auto, using(crate::proofs::Masks::kept, crate::proofs::Masks::turned))]
pub fn set_of(row: u64, n: u8) -> u64
    ensures { Members result (otherwise n row) }
{
    let known = first_books(n);
    if has(row, 0) {
        !row & known
    } else {
        row & known
    }
}

// The first n books, or all 64.
#[tactic(auto, using(crate::proofs::Masks::first_ones))]
fn first_books(n: u8) -> u64
    ensures { Members result (λ i. nat_lt i n) }
{
    if n < MAX_BOOKS {
        (1 << n) - 1
    } else {
        u64::MAX
    }
}

// The set of the place p; it is empty past the last place.
#[tactic(auto, using(crate::proofs::Tables::place_set))]
pub fn set_at(rows: Rows, p: u16) -> u64
    ensures { Members result (other_at (table_in rows.entry) p) }
{
    set_of(rows.row(p), rows.books())
}

// Writes the set of each place into the front of lent memory.
#[tactic(auto, using(crate::proofs::Tables::whole_front, crate::proofs::Tables::in_front))]
pub fn fill(rows: Rows, sets: &mut [u64]) -> Result<(), Refusal>
    ensures value { result ≡ (if nat_lt (length sets.old) rows.entry.sizes.places then Err (Room Sets) else Ok tt) }
    ensures written { OnOk result (InFront (table_in rows.entry) rows.entry.sizes.places sets.old sets.new) }
    ensures kept { OnErr result (sets.new ≡ sets.old) }
    ensures ready { OnOk result (SetsOf (table_in rows.entry) rows.entry.sizes.places (take rows.entry.sizes.places sets.new)) }
{
    let m = usize::from(rows.places());
    if sets.len() < m {
        return Err(Refusal::Room(Lent::Sets));
    }
    fill_all(rows, &mut sets[..m]);
    Ok(())
}

// Writes the set of each place into memory for just so many.
#[tactic(auto, using(crate::proofs::Tables::filling))]
fn fill_all(rows: Rows, sets: &mut [u64])
    requires { length sets.old ≡ rows.sizes.places }
    ensures { InFront (table_in rows.entry) rows.entry.sizes.places sets.old sets.new }
{
    for (p, set) in sets.iter_mut().enumerate() {
        // Below 2,048, so that the cast loses nothing.
        *set = set_at(rows, p as u16);
    }
}
