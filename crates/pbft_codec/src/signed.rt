//! Signed bodies, and the roles of signers.

ghost use Rattle.std.specs.Prelude.{IfErr};
ghost use Rattle.codec_fields.specs.Fields.{Gives, IsFault};
ghost use Rattle.pbft_codec.specs.Reading.{role_at};

use crate::body::Body;
use codec_fields::{CodecFault, ReadError};
use host_types::Bytes;

/// Who signs: a replica or a client.
#[derive(Clone, Copy, Debug, PartialEq, Eq)]
pub enum Role {
    Replica = 1,
    Client = 2,
}

/// A body with its signer and a signature, which may be any bytes.
#[derive(Debug, Drop)]
pub struct Signed<B = Body> {
    pub role: Role,
    /// The signer: the index of a replica, or the id of a client.
    pub id: u32,
    pub body: B,
    pub sig: Bytes,
}

/// The role of who signs, which is one byte.
#[tactic(auto, unfolding(crate::specs::Reading::role_at))]
pub fn read_role(bytes: &[u8]) -> Result<(Role, &[u8]), ReadError>
    ensures read { Gives (λ x. (x.0, x.1.now)) result (role_at bytes.now) }
    ensures fault { IfErr result IsFault }
{
    match bytes {
        [] => Err(ReadError::Fault(CodecFault::Truncated)),
        [1, rest @ ..] => Ok((Role::Replica, rest)),
        [2, rest @ ..] => Ok((Role::Client, rest)),
        [_, ..] => Err(ReadError::Fault(CodecFault::BadField)),
    }
}
