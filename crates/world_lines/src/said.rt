//! What messages and bytes say.

ghost use Rattle.std.specs.Prelude.{◌≡◌, IfOk};
ghost use Rattle.pbft_codec.specs.Reading.{reading};
ghost use Rattle.world_lines.specs.Sayings.{digest_of, said_in, saying_of, vote_saying};

use crate::saying::Saying;
use host_types::{Digest, SeqNo, View};
use pbft_codec::{Body, CodecFault, Fetch, Signed, decode, signed_bytes};
use script_text::Kind;
use seal::VoteKind;
use sha2::{Digest as _, Sha256};
use std::alloc::{AllocError, Global};

/// What a message says. The error is that memory ran out.
pub fn saying_of(alloc: Global, message: &Signed) -> Result<Saying, AllocError>
    ensures { IfOk result (λ saying. saying ≡ saying_of message.now) }
{
    let saying = match &message.body {
        Body::Request(said) => {
            let digest = digest_of(alloc, message)?;
            Saying::Request {
                time: said.time,
                digest,
            }
        }
        Body::PrePrepare(said) => vote(VoteKind::PrePrepare, said.view, said.number, said.digest),
        Body::Prepare(said) => vote(VoteKind::Prepare, said.view, said.number, said.digest),
        Body::Commit(said) => vote(VoteKind::Commit, said.view, said.number, said.digest),
        Body::Reply(said) => Saying::Reply {
            time: said.time,
            number: said.number,
        },
        Body::Checkpoint(said) => Saying::Checkpoint {
            number: said.number,
            digest: said.digest,
        },
        Body::ViewChange(said) => Saying::ViewChange {
            view: said.view,
            low: said.low,
        },
        Body::NewView(said) => Saying::NewView { view: said.view },
        Body::Fetch(Fetch::Request(digest)) => Saying::FetchRequest { digest: *digest },
        Body::Fetch(Fetch::State(number)) => Saying::FetchState { number: *number },
        Body::Snapshot(said) => Saying::Snapshot {
            number: said.number,
        },
    };
    Ok(saying)
}

/// What bytes say, of the kind that a script gave them. The error is that memory ran out.
pub fn saying_in(alloc: Global, kind: Option<Kind>, bytes: &[u8]) -> Result<Saying, AllocError>
    ensures { IfOk result (λ saying. saying ≡ said_in kind (reading bytes.now)) }
{
    match decode(alloc, bytes) {
        Ok(message) => saying_of(alloc, &message),
        Err(CodecFault::Memory) => Err(AllocError),
        Err(_) => Ok(Saying::Unreadable { kind }),
    }
}

fn vote(kind: VoteKind, view: View, number: SeqNo, digest: Digest) -> Saying
    ensures { result ≡ vote_saying kind view number digest }
{
    Saying::Vote {
        kind,
        view,
        number,
        digest,
    }
}

/// The digest by which votes name a request.
fn digest_of(alloc: Global, message: &Signed) -> Result<Digest, AllocError>
    ensures { IfOk result (λ digest. digest ≡ digest_of message.now) }
{
    let Ok(text) = signed_bytes(alloc, message) else {
        return Err(AllocError);
    };
    Ok(Digest(Sha256::digest(&text)))
}
