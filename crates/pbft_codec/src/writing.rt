//! Writing fields at the end of bytes.

ghost use Rattle.std.specs.Prelude.{◌≡◌, ◌<◌, ◌^◌, ◌++◌, ◌∷◌, [], List, length, OnOk};
ghost use Rattle.std.specs.Int.{w32, w64, to_be_bytes};
ghost use Rattle.pbft_codec.specs.Kinds.{kind_byte};
ghost use Rattle.pbft_codec.specs.Limits.{IsDigest, ProposalFieldsInRange};
ghost use Rattle.pbft_codec.specs.Layouts.{role_byte, view, number, length_prefixed, proposal};

use crate::kind::Kind;
use crate::signed::Role;
use host_types::{Digest, SeqNo, View};
use std::alloc::AllocError;

pub fn put_u32(out: &mut Vec<u8>, n: u32) -> Result<(), AllocError>
    ensures text { OnOk result (out.new.items ≡ out.old.items ++ to_be_bytes w32 n) }
    ensures fits { n < 2 ^ 32 }
{
    out.extend_from_slice(&n.to_be_bytes())
}

pub fn put_u64(out: &mut Vec<u8>, n: u64) -> Result<(), AllocError>
    ensures text { OnOk result (out.new.items ≡ out.old.items ++ to_be_bytes w64 n) }
    ensures fits { n < 2 ^ 64 }
{
    out.extend_from_slice(&n.to_be_bytes())
}

/// Writes the lower four bytes of a length. No message within the limit has a greater one.
pub fn put_length(out: &mut Vec<u8>, length: usize) -> Result<(), AllocError>
    ensures { OnOk result (out.new.items ≡ out.old.items ++ to_be_bytes w32 length) }
{
    put_u32(out, (length % (1 << 32)) as u32)
}

pub fn put_role(out: &mut Vec<u8>, role: Role) -> Result<(), AllocError>
    ensures { OnOk result (out.new.items ≡ out.old.items ++ role_byte role ∷ []) }
{
    out.push(role as u8)?;
    Ok(())
}

pub fn put_kind(out: &mut Vec<u8>, kind: Kind) -> Result<(), AllocError>
    ensures { OnOk result (out.new.items ≡ out.old.items ++ kind_byte kind ∷ []) }
{
    out.push(kind.byte())?;
    Ok(())
}

/// Writes a length and the bytes.
#[tactic(auto, unfolding(crate::specs::Layouts::length_prefixed))]
pub fn put_length_prefixed(out: &mut Vec<u8>, bytes: &[u8]) -> Result<(), AllocError>
    ensures { OnOk result (out.new.items ≡ out.old.items ++ length_prefixed bytes.now) }
{
    put_length(out, bytes.len())?;
    out.extend_from_slice(bytes)
}

pub fn put_digest(out: &mut Vec<u8>, digest: Digest) -> Result<(), AllocError>
    ensures text { OnOk result (out.new.items ≡ out.old.items ++ digest.0) }
    ensures fits { IsDigest digest }
{
    out.extend_from_slice(&digest.0)
}

/// Writes a view, a number and a digest.
#[tactic(auto, unfolding(crate::specs::Layouts::proposal))]
pub fn put_proposal(
    out: &mut Vec<u8>,
    view: View,
    number: SeqNo,
    digest: Digest,
) -> Result<(), AllocError>
    ensures text { OnOk result (out.new.items ≡ out.old.items ++ proposal view number digest) }
    ensures fits { ProposalFieldsInRange view digest }
{
    put_u32(out, view.0)?;
    put_u64(out, number.0)?;
    put_digest(out, digest)
}
