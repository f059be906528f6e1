// The first conflict of a table's sets.
ghost use Rattle.conflicts.specs.Crossing.{Finds};

use crate::pairs::cross;
use crate::seen::Seen;

// A conflict: two places, the first before the second, and three books.
#[derive(Clone, Copy, Debug, PartialEq, Eq)]
pub struct Conflict {
    pub p: usize,
    pub q: usize,
    // The smallest book that reads otherwise at both places, at the first alone, at the second alone.
    pub both: u8,
    pub one: u8,
    pub two: u8,
}

// The conflict with the smallest p, then q, then books, of the sets of n books; a set for each place.
#[tactic(auto, using(crate::proofs::Walk::steps))]
pub fn first_conflict(sets: &[u64], n: u8) -> Option<Conflict>
    ensures { Finds sets.now n result }
{
    let mut found = None;
    'search: for (p, &a) in sets.iter().enumerate() {
        // Counted, as the check does not find which entries `enumerate().skip(p + 1)` gives.
        for q in p + 1..sets.len() {
            let b = sets[q];
            // Masks settle nearly every pair, so that books are looked at only where there is a conflict to name.
            if !cross(a, b) {
                continue;
            }
            let mut seen = Seen::default();
            for i in 0..n {
                seen = seen.with(a, b, i);
                if let Some(conflict) = seen.conflict(p, q) {
                    found = Some(conflict);
                    break 'search;
                }
            }
        }
    }
    found
}
