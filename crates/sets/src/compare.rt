// How two sets lie: one among the other, apart, equal.
ghost use Rattle.sets.specs.Sets.{Among, Apart, SameBooks};
ghost use Rattle.std.specs.Prelude.{◌≡◌, ◌↔◌, IsTrue, ◌==◌};

// Whether each book of the first is in the second.
#[tactic(auto, using(crate::proofs::Sets::among_none_only))]
pub fn is_among(a: u64, b: u64) -> bool
    ensures { IsTrue result ↔ Among a b }
{
    a & !b == 0
}

// Whether no book is in both.
#[tactic(auto, using(crate::proofs::Sets::apart_none_shared))]
pub fn are_apart(a: u64, b: u64) -> bool
    ensures { IsTrue result ↔ Apart a b }
{
    a & b == 0
}

// Whether the same books are in both. Sets lie in lent slices of `u64`, so there is no type that could derive this.
#[tactic(auto, using(crate::proofs::Sets::equal_books))]
pub fn are_equal(a: u64, b: u64) -> bool
    ensures books { IsTrue result ↔ SameBooks a b }
    ensures value { result ≡ (a == b) }
{
    a == b
}
