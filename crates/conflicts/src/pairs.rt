// Whether two sets of books conflict.
ghost use Rattle.std.specs.Prelude.{◌≡◌, ◌↔◌, ℕ, false, IsTrue};
ghost use Rattle.conflicts.specs.Crossing.{Agree, Cross};

use sets::{are_apart, is_among};

// Whether the sets cross: one book is in both, one in the first alone and one in the second alone. No book is looked for.
#[tactic(auto, using(crate::proofs::Sets::pairs))]
pub fn cross(a: u64, b: u64) -> bool
    ensures value { IsTrue result ↔ Cross a b }
    ensures ready { result ≡ false → (n : ℕ) → Agree n a b }
{
    !is_among(a, b) && !is_among(b, a) && !are_apart(a, b)
}
