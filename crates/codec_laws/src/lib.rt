//! Laws of reading bytes that were cut, that go on behind a message, or that are too many: each on a function with an empty
//! body, over [`pbft_codec`]'s definition of reading, which `decode` answers unless memory ran out.
#![tactic(auto)]

ghost use Rattle.std.specs.Prelude.{ℕ, List};
ghost use Rattle.pbft_codec.specs.declared.body.Body.{Body};
ghost use Rattle.pbft_codec.specs.declared.signed.Signed.{Signed};
ghost use Rattle.pbft_codec.specs.WellFormed.{Encodes};
ghost use Rattle.codec_laws.specs.Damaged.{AreTooLong, IsTrailingBeforeMore, IsTruncatedWhereCut};

/// The bytes of a message that are cut anywhere, also before the first one, are `Truncated`.
pub fn a_message_that_is_cut_is_truncated()
    ensures { (bytes : List ℕ) (m : Signed Body) → Encodes bytes m → IsTruncatedWhereCut bytes }
{}

/// The bytes of a message with further ones behind them are `Trailing`, within the limit of length.
pub fn bytes_behind_a_message_are_trailing()
    ensures { (bytes : List ℕ) (m : Signed Body) → Encodes bytes m → IsTrailingBeforeMore bytes }
{}

/// More bytes than a message has are `TooLong`, whatever they are.
pub fn more_bytes_than_a_message_has_are_too_long()
    ensures { AreTooLong }
{}
