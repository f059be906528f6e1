// The laws of sets that a reader of the promises wants, each a clause of a function's contract.
ghost use Rattle.sets.specs.Statements.{AsLarge, Determined, Empty, OneFilling, OneSmallest, RowSet, Smaller, TurnedRound};

// No second answer fits what the functions of this crate promise.
#[tactic(auto, using(crate::proofs::Sets::determined, crate::proofs::Lowest::one_smallest, crate::proofs::Tables::one_filling))]
pub fn one_answer_stands()
    ensures determined { Determined }
    ensures smallest { OneSmallest }
    ensures filling { OneFilling }
{}

// How the sizes of sets go with which lies among which.
#[tactic(auto, using(crate::proofs::Sets::smaller, crate::proofs::Sets::as_large, crate::proofs::Sets::empty))]
pub fn sizes_stand()
    ensures smaller { Smaller }
    ensures equal { AsLarge }
    ensures empty { Empty }
{}

// The set of a row is what the table of the rows calls reading otherwise.
#[tactic(auto, using(crate::proofs::Tables::row_set, crate::proofs::Tables::turned_round))]
pub fn row_sets_stand()
    ensures reads { RowSet }
    ensures turned { TurnedRound }
{}
