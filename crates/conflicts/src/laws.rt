// The laws of conflicts that a reader of the promises wants, each a clause of a function's contract.
ghost use Rattle.conflicts.specs.Statements.{AlikeAgree, CrossingPlaces, EitherFirst, FourWays, OneFinding, OneFirst, OneSearch, RoomForAll, SameAnswer, Tied, TurnedAgree};

// No second answer fits what the functions of this crate promise.
#[tactic(auto, using(crate::proofs::Unique::one_finding, crate::proofs::Unique::one_first, crate::proofs::Unique::one_search))]
pub fn one_answer_stands()
    ensures sets { OneFinding }
    ensures table { OneFirst }
    ensures file { OneSearch }
{}

// The sets of a table conflict as the table does.
#[tactic(auto, using(crate::proofs::Tables::same_answer, crate::proofs::Searched::room_for_all))]
pub fn ties_stand()
    ensures conflicts { Tied }
    ensures answers { SameAnswer }
    ensures places { CrossingPlaces }
    ensures room { RoomForAll }
{}

// What a conflict is, in other words, and what is none.
#[tactic(auto, using(crate::proofs::Tables::alike_agree, crate::proofs::Rows::turned_agree))]
pub fn four_ways_stand()
    ensures ways { FourWays }
    ensures either { EitherFirst }
    ensures alike { AlikeAgree }
    ensures turned { TurnedAgree }
{}
