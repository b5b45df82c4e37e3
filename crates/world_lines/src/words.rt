//! The words of what a message says.

ghost use Rattle.std.specs.Prelude.{◌≡◌, IfOk, string_bytes};
ghost use Rattle.world_lines.specs.Lines.{fetch_words, place_words, request_name, saying_words, short, state_words, unreadable_words, vote_name};

use crate::saying::Saying;
use host_types::{Digest, SeqNo, View};
use script_text::Kind;
use seal::VoteKind;
use sha2::{Digest as _, Sha256};
use std::alloc::{AllocError, Global};

/// The first eight digits of a digest.
pub(crate) fn short(alloc: Global, digest: &Digest) -> Result<String, AllocError>
    ensures { IfOk result (λ text. string_bytes text ≡ short digest.now) }
{
    hex::encode(alloc, &digest.0[..4])
}

/// The request that a digest names: its first eight digits; `null` for the null request, whose digest is that of no bytes.
pub(crate) fn request_name(alloc: Global, digest: &Digest) -> Result<String, AllocError>
    ensures { IfOk result (λ text. string_bytes text ≡ request_name digest.now) }
{
    let nothing: &[u8] = &[];
    if digest.0 == Sha256::digest(nothing) {
        String::from_str(alloc, "null")
    } else {
        short(alloc, digest)
    }
}

/// The kind of a vote, by its name in a script.
pub(crate) fn vote_name(kind: VoteKind) -> &'static str
    ensures { result.now ≡ vote_name kind }
{
    match kind {
        VoteKind::PrePrepare => "pre-prepare",
        VoteKind::Prepare => "prepare",
        VoteKind::Commit => "commit",
    }
}

/// The words of what a message says: `prepare view 0 number 1 5f05ab12`. The error is that memory ran out.
pub fn words_of(alloc: Global, saying: &Saying) -> Result<String, AllocError>
    ensures { IfOk result (λ text. string_bytes text ≡ saying_words saying.now) }
{
    match *saying {
        Saying::Request { time, digest } => {
            let digest = short(alloc, &digest)?;
            format!(in alloc; "request time {time} {digest}")
        }
        Saying::Vote {
            kind,
            view,
            number,
            digest,
        } => place_words(alloc, vote_name(kind), view, number, &digest),
        Saying::Reply { time, number } => {
            let number = number.0;
            format!(in alloc; "reply time {time} number {number}")
        }
        Saying::Checkpoint { number, digest } => state_words(alloc, number, &digest),
        Saying::ViewChange { view, low } => {
            let view = view.0;
            let low = low.0;
            format!(in alloc; "view-change view {view} low {low}")
        }
        Saying::NewView { view } => {
            let view = view.0;
            format!(in alloc; "new-view view {view}")
        }
        Saying::FetchRequest { digest } => fetch_words(alloc, &digest),
        Saying::FetchState { number } => {
            let number = number.0;
            format!(in alloc; "fetch state {number}")
        }
        Saying::Snapshot { number } => {
            let number = number.0;
            format!(in alloc; "snapshot number {number}")
        }
        Saying::Unreadable { kind } => unreadable_words(alloc, kind),
    }
}

/// A vote.
fn place_words(
    alloc: Global,
    kind: &str,
    view: View,
    number: SeqNo,
    digest: &Digest,
) -> Result<String, AllocError>
    ensures { IfOk result (λ text. string_bytes text ≡ place_words kind.now view number digest.now) }
{
    let view = view.0;
    let number = number.0;
    let request = request_name(alloc, digest)?;
    format!(in alloc; "{kind} view {view} number {number} {request}")
}

/// A Checkpoint.
fn state_words(alloc: Global, number: SeqNo, digest: &Digest) -> Result<String, AllocError>
    ensures { IfOk result (λ text. string_bytes text ≡ state_words number digest.now) }
{
    let number = number.0;
    let digest = short(alloc, digest)?;
    format!(in alloc; "checkpoint number {number} {digest}")
}

/// A Fetch of a request.
fn fetch_words(alloc: Global, digest: &Digest) -> Result<String, AllocError>
    ensures { IfOk result (λ text. string_bytes text ≡ fetch_words digest.now) }
{
    let digest = short(alloc, digest)?;
    format!(in alloc; "fetch request {digest}")
}

/// Bytes that are no message.
fn unreadable_words(alloc: Global, kind: Option<Kind>) -> Result<String, AllocError>
    ensures { IfOk result (λ text. string_bytes text ≡ unreadable_words kind) }
{
    match kind {
        Some(kind) => {
            let name = kind.name();
            format!(in alloc; "{name} unreadable")
        }
        None => String::from_str(alloc, "bytes"),
    }
}
