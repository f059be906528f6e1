// The books of a set: whether one is in it and how many are; the set of one book, and of two sets together.
ghost use Rattle.std.specs.Prelude.{◌≡◌, ◌≤◌, nat_eq};
ghost use Rattle.readings.specs.Bits.{bit};
ghost use Rattle.sets.specs.Sets.{Members, either, size_of};

use readings::MAX_BOOKS;

// Whether the book is in the set; none from 64 on is.
#[tactic(auto, using(crate::proofs::Masks::shifted, crate::proofs::Masks::past))]
pub fn has(set: u64, book: u8) -> bool
    ensures { result ≡ bit set book }
{
    book < MAX_BOOKS && (set >> book) & 1 == 1
}

// How many books are in the set, at most 64.
#[tactic(auto, using(crate::proofs::Counts::ones_are))]
pub fn size(set: u64) -> u8
    ensures value { result ≡ size_of set }
    ensures within { result ≤ 64 }
{
    // At most 64, so that the cast loses nothing.
    set.count_ones() as u8
}

// The set of one book; it is empty for a book from 64 on.
#[tactic(auto, using(crate::proofs::Masks::one, crate::proofs::Masks::one_past))]
pub fn single(book: u8) -> u64
    ensures { Members result (λ i. nat_eq i book) }
{
    if book < MAX_BOOKS { 1 << book } else { 0 }
}

// The books of both sets together.
#[tactic(auto, using(crate::proofs::Masks::or))]
pub fn union(a: u64, b: u64) -> u64
    ensures { Members result (either a b) }
{
    a | b
}
