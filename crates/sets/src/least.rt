// The smallest book of a set, of what two share, of one but not the other.
ghost use Rattle.readings.specs.Bits.{bit};
ghost use Rattle.sets.specs.Sets.{Smallest, only, shared};

// The smallest book in the set.
#[tactic(auto, using(crate::proofs::Lowest::none_smallest, crate::proofs::Lowest::trailing_smallest))]
pub fn smallest(set: u64) -> Option<u8>
    ensures { Smallest (bit set) result }
{
    // At most 64, so that the cast loses nothing.
    (set != 0).then_some(set.trailing_zeros() as u8)
}

// The smallest book in both sets.
#[tactic(auto, using(crate::proofs::Lowest::smallest_of_shared))]
pub fn smallest_shared(a: u64, b: u64) -> Option<u8>
    ensures { Smallest (shared a b) result }
{
    smallest(a & b)
}

// The smallest book in the first set that is not in the second.
#[tactic(auto, using(crate::proofs::Lowest::smallest_of_only))]
pub fn smallest_only(a: u64, b: u64) -> Option<u8>
    ensures { Smallest (only a b) result }
{
    smallest(a & !b)
}
