// The first conflict of the table in a file.
ghost use Rattle.std.specs.Prelude.{◌≡◌, ◌<◌, ◌≤◌, MatchOption};
ghost use Rattle.conflicts.specs.Searches.{Searched};

use crate::search::{Conflict, first_conflict};
use readings::{Lent, Refusal, Rows, read_rows, read_sizes};
use sets::fill;

// The first conflict of the table in the file, or none. The sets of its places are written into the front of lent memory.
#[tactic(auto, using(crate::proofs::Searched::told))]
pub fn first_in_file(file: &[u8], sets: &mut [u64]) -> Result<Option<Conflict>, Refusal>
    ensures { Searched file.now sets.old sets.new result }
{
    // In two steps, and not by `read`, since want of room is told of before the rows are looked at.
    let sizes = read_sizes(file)?;
    let Some(m) = room_for(sizes.places, sets.len()) else {
        return Err(Refusal::Room(Lent::Sets));
    };
    let bytes = read_rows(file, sizes)?;
    fill(Rows { sizes, bytes }, sets)?;
    Ok(first_conflict(&sets[..m], sizes.books))
}

// The number of places, if there is room for a set of each.
fn room_for(places: u16, room: usize) -> Option<usize>
    ensures { MatchOption result (room < places) (λ m. (m ≡ places) × (places ≤ room)) }
{
    let m = usize::from(places);
    (m <= room).then_some(m)
}
