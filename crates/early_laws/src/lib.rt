//! What holding early votes back (`early_votes`) gives: no vote of a correct replica comes early to another one, so that the laws of a
//! timely first view (`pbft_answers`, `client_answers`) speak of a run whatever order the network has. There is no code here; the law is
//! the contract of a function with an empty body.
#![tactic(auto)]

ghost use Rattle.std.specs.Prelude.{◌≡◌, Some, false};
ghost use Rattle.early_votes.specs.Holding.{HandsIn, HeldFacts, is_early};
ghost use Rattle.pbft_answers.specs.Early.{IsTimely, NoVoteIsEarly};
ghost use Rattle.pbft_answers.specs.Journals.{Journals};
ghost use Rattle.pbft_answers.specs.Setup.{Setup};
ghost use Rattle.seal.specs.Opening.{CheckedMessage};
ghost use Rattle.early_laws.specs.HeldBack.{HoldsEarlyVotesBack, IsHeldBack};

/// What is held back isn't early: what `Held` hands in is on time at the mark that it was told (`handed`). Where each correct replica
/// took a correct one's message only as what its driver held, told of the replica's low mark, had it for no early vote, no vote came
/// early (`none`); and where none did, a driver may have held so (`back`). So a first view in which drivers hold early votes back, all stand, its primary is correct, and clients ask in order
/// and ask all, is timely (`timely`): where it is honest and drained, what its primary gave out is executed, and its clients are
/// answered, for any number (`pbft_answers::a_timely_view_is_answered`, `client_answers::a_timely_view_answers_its_clients`). A vote that
/// is still held, or that was too far ahead to be kept, hasn't come: such a family isn't drained.
pub fn what_is_held_back_is_not_early()
    ensures handed { (h t : HeldFacts) (m : CheckedMessage) → HandsIn h (Some m) t → is_early h m ≡ false }
    ensures none { (c : Setup) (j : Journals) → HoldsEarlyVotesBack c j → NoVoteIsEarly c j }
    ensures back { (c : Setup) (j : Journals) → NoVoteIsEarly c j → HoldsEarlyVotesBack c j }
    ensures timely { (c : Setup) (j : Journals) → IsHeldBack c j → IsTimely c j }
{}
