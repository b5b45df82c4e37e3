//! What each kind of body has: the byte of its kind, its sender, and how its fields are read and written.

ghost use Rattle.std.specs.Prelude.{◌≡◌, List, ℕ, ◌++◌, Result, OnOk, IfErr};
ghost use Rattle.pbft_codec.specs.declared.body.Body.{Body};
ghost use Rattle.codec_fields.specs.declared.fault.CodecFault.{CodecFault};
ghost use Rattle.pbft_codec.specs.declared.kind.Kind.{Kind};
ghost use Rattle.pbft_codec.specs.declared.sender.Sender.{Sender};
ghost use Rattle.pbft_codec.specs.Layouts.{of_kind};
ghost use Rattle.codec_fields.specs.Fields.{Gives, IsFault, map};
ghost use Rattle.pbft_codec.specs.Reading.{behind, kind_at};

use crate::body::Body;
use crate::kind::Kind;
use crate::sender::Sender;
use crate::try_clone::TryClone;
use crate::writing::put_kind;
use codec_fields::{CodecFault, ReadError};
use std::alloc::{AllocError, Global};

/// A body of one kind.
pub trait MessageBody: TryClone {
    ghost kind: { Kind };

    /// What the bytes behind the kind begin with and the bytes behind that, or the first fault.
    ghost fields_at: { List ℕ → Result (Self × List ℕ) CodecFault };

    /// The bytes behind the kind.
    ghost fields: { Self → List ℕ };

    /// What the fields can hold.
    ghost fields_in_range: { Self → Type 0 };

    ghost sender: { Self → Sender };

    ghost as_body: { Self → Body };

    /// The kind of all such bodies.
    fn kind() -> Kind
        ensures { result ≡ kind };

    /// Who may send it.
    fn sender(&self) -> Sender
        ensures { result ≡ sender self.now };

    /// As a body of any kind.
    fn into_body(self) -> Body
        ensures { result ≡ as_body self };

    /// Reads the fields and gives the bytes behind them.
    fn read_fields(alloc: Global, bytes: &[u8]) -> Result<(Self, &[u8]), ReadError>
        ensures { Gives (λ x. (x.0, x.1.now)) result (fields_at bytes.now) };

    /// Writes the fields at the end. Fields that were written are in range.
    fn put_fields(&self, alloc: Global, out: &mut Vec<u8>) -> Result<(), AllocError>
        ensures text { OnOk result (out.new.items ≡ out.old.items ++ fields self.now) }
        ensures in_range { OnOk result (fields_in_range self.now) };
}

/// The bytes behind the byte of this kind.
#[tactic(auto, unfolding(crate::specs::Reading::behind))]
pub fn read_kind(kind: Kind, bytes: &[u8]) -> Result<&[u8], ReadError>
    ensures read { Gives (λ x. x.now) result (behind kind bytes.now) }
    ensures fault { IfErr result IsFault }
{
    match bytes {
        [] => Err(ReadError::Fault(CodecFault::Truncated)),
        [byte, rest @ ..] => {
            if *byte == kind.byte() {
                return Ok(rest);
            }
            match Kind::of(*byte) {
                Some(_) => Err(ReadError::Fault(CodecFault::BadField)),
                None => Err(ReadError::Fault(CodecFault::BadKind)),
            }
        }
    }
}

/// Reads a body of one kind, with the byte of the kind.
pub fn read_body<B: MessageBody>(alloc: Global, bytes: &[u8]) -> Result<(B, &[u8]), ReadError>
    ensures { Gives (λ x. (x.0, x.1.now)) result (kind_at B.kind B.fields_at bytes.now) }
{
    let rest = read_kind(B::kind(), bytes)?;
    B::read_fields(alloc, rest)
}

/// Reads the fields of a body of one kind, as a body of any kind.
pub fn read_any<B: MessageBody>(alloc: Global, bytes: &[u8]) -> Result<(Body, &[u8]), ReadError>
    ensures { Gives (λ x. (x.0, x.1.now)) result (map B.as_body B.fields_at bytes.now) }
{
    let (body, rest) = B::read_fields(alloc, bytes)?;
    Ok((body.into_body(), rest))
}

/// Writes a body of one kind, with the byte of the kind.
pub fn put_body<B: MessageBody>(
    alloc: Global,
    out: &mut Vec<u8>,
    body: &B,
) -> Result<(), AllocError>
    ensures text { OnOk result (out.new.items ≡ out.old.items ++ of_kind B.kind B.fields body.now) }
    ensures in_range { OnOk result (B.fields_in_range body.now) }
{
    put_kind(out, B::kind())?;
    body.put_fields(alloc, out)
}

/// The kind of a body whose kind is known.
pub fn kind_of<B: MessageBody>(_: &B) -> Kind
    ensures { result ≡ B.kind }
{
    B::kind()
}
