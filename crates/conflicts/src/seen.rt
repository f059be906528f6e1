// The books of two sets, looked at one by one.
ghost use Rattle.conflicts.specs.Seen.{conflict_by, seen_with};
ghost use Rattle.std.specs.Prelude.{◌≡◌};

use crate::search::Conflict;
use sets::has;

// The smallest book seen so far in both sets, in the first alone, in the second alone.
#[derive(Clone, Copy, Debug, Default)]
pub(crate) struct Seen {
    pub(crate) both: Option<u8>,
    pub(crate) one: Option<u8>,
    pub(crate) two: Option<u8>,
}

impl Seen {
    // With the book i of the sets a and b looked at too.
    pub(crate) fn with(self, a: u64, b: u64, i: u8) -> Seen
        ensures { result ≡ seen_with self a b i }
    {
        let in_a = has(a, i);
        let in_b = has(b, i);
        Seen {
            both: self.both.or((in_a && in_b).then_some(i)),
            one: self.one.or((in_a && !in_b).then_some(i)),
            two: self.two.or((in_b && !in_a).then_some(i)),
        }
    }

    // The conflict of the places p and q, once a book of each kind was seen.
    pub(crate) fn conflict(self, p: usize, q: usize) -> Option<Conflict>
        ensures { result ≡ conflict_by p q self }
    {
        let (both, one, two) = (self.both?, self.one?, self.two?);
        Some(Conflict {
            p,
            q,
            both,
            one,
            two,
        })
    }
}
