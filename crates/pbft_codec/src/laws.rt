//! Laws of messages, for every message and all bytes.

ghost use Rattle.std.specs.Prelude.{◌≡◌, ◌+◌, ◌≤◌, List, ℕ, length};
ghost use Rattle.pbft_codec.specs.declared.body.Body.{Body};
ghost use Rattle.pbft_codec.specs.declared.signed.Signed.{Signed};
ghost use Rattle.pbft_codec.specs.WellFormed.{WellFormed, Encodes};
ghost use Rattle.pbft_codec.specs.Bodies.{BodyFieldsInRange, encoded_length_of};
ghost use Rattle.pbft_codec.specs.Encoding.{body, encoding, signed_text, max_bytes};

/// Bytes encode at most one message.
pub fn bytes_encode_one_message()
    ensures { (bytes : List ℕ) (m n : Signed Body) → Encodes bytes m → Encodes bytes n → m ≡ n }
{}

/// What is signed determines its signer and its body, among messages within the limit of length: a
/// signature of one message is none of another.
pub fn signed_bytes_determine_signer_and_body()
    ensures { (m n : Signed Body) → WellFormed m → WellFormed n →
        length (encoding m) ≤ max_bytes → length (encoding n) ≤ max_bytes →
        signed_text m ≡ signed_text n → (m.role ≡ n.role) × (m.id ≡ n.id) × (m.body ≡ n.body) }
{}

/// How many bytes the encoding of a body has, and that of a message over its body and its signature.
pub fn encodings_have_these_lengths()
    ensures bodies { (b : Body) → BodyFieldsInRange b → length (body b) ≡ encoded_length_of b }
    ensures messages { (m : Signed Body) → length (encoding m) ≡ 13 + length (body m.body) + length m.sig }
{}
