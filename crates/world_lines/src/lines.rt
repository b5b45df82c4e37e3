//! The line of what happens.

ghost use Rattle.std.specs.Prelude.{◌≡◌, IfOk, codes, decimal, string_bytes};
ghost use Rattle.world_lines.specs.Lines.{at_line, began_line, blame_line, blame_words, digest_words, fault_words, happening_line, handed_line, hidden_words, left_line, raised_line, refusal_line, refused_words, topic_words, twice_words, unqueued_line};

use crate::happening::{Cause, Happening};
use crate::saying::Saying;
use crate::words::{request_name, short, vote_name, words_of};
use conflicts::{Blame, Claim, Topic};
use host_types::{Digest, ReplicaId, SeqNo, View};
use script_text::{Kind, Node, node_text};
use seal::SealFault;
use std::alloc::{AllocError, Global};

/// The line of what happens, with its line end. The error is that memory ran out.
pub fn line_of(alloc: Global, happening: &Happening) -> Result<String, AllocError>
    ensures { IfOk result (λ line. string_bytes line ≡ happening_line happening.now) }
{
    match *happening {
        Happening::Began { step, line, name } => began_line(alloc, step, line, name),
        Happening::Handed { from, to, saying } => handed_line(alloc, from, "->", to, &saying),
        Happening::Lost { from, to, saying } => handed_line(alloc, from, "-x", to, &saying),
        Happening::Refused {
            at,
            from,
            kind,
            fault,
            part,
        } => refusal_line(alloc, at, from, kind, fault, part),
        Happening::Unqueued(cause) => unqueued_line(alloc, cause),
        Happening::TimedOut { at } => {
            let at = at.0;
            format!(in alloc; "{at} times out\n")
        }
        Happening::Executed { at, number } => at_line(alloc, at, "executes", number.0),
        Happening::Installed { at, number } => at_line(alloc, at, "installs", number.0),
        Happening::Left { at, view } => left_line(alloc, at, view),
        Happening::Entered { at, view } => at_line(alloc, at, "enters view", u64::from(view.0)),
        Happening::Raised { at, low } => raised_line(alloc, at, low),
        Happening::Halted { at, halt } => {
            let at = at.0;
            format!(in alloc; "{at} halts: {halt}\n")
        }
        Happening::Accepted { client } => {
            let client = client.0;
            format!(in alloc; "client {client} accepts\n")
        }
        Happening::Blamed(blame) => blame_line(alloc, &blame),
    }
}

/// A step that begins.
fn began_line(
    alloc: Global,
    step: u32,
    line: Option<usize>,
    name: &str,
) -> Result<String, AllocError>
    ensures { IfOk result (λ text. string_bytes text ≡ began_line step line name.now) }
{
    match line {
        Some(line) => format!(in alloc; "# step {step} (line {line}) {name}\n"),
        None => format!(in alloc; "# step {step} {name}\n"),
    }
}

/// A message on its way.
fn handed_line(
    alloc: Global,
    from: Option<Node>,
    arrow: &str,
    to: Node,
    saying: &Saying,
) -> Result<String, AllocError>
    ensures { IfOk result (λ line. string_bytes line ≡ handed_line from arrow.now to saying.now) }
{
    let from = node_text(alloc, from)?;
    let to = node_text(alloc, Some(to))?;
    let words = words_of(alloc, saying)?;
    format!(in alloc; "{from} {arrow} {to} {words}\n")
}

/// That a step queues nothing, and why.
fn unqueued_line(alloc: Global, cause: Cause) -> Result<String, AllocError>
    ensures { IfOk result (λ line. string_bytes line ≡ unqueued_line cause) }
{
    match cause {
        Cause::Exhausted(node) => {
            let node = node_text(alloc, Some(node))?;
            format!(in alloc; "nothing to queue: {node} has no leaf left\n")
        }
        Cause::NeverMade { client, time } => {
            let client = client.0;
            format!(in alloc; "nothing to queue: {client} made no request at time {time}\n")
        }
        Cause::NoMessage => String::from_str(alloc, "nothing to queue: the name has no message\n"),
    }
}

/// What a replica does, with a number.
fn at_line(alloc: Global, at: ReplicaId, words: &str, number: u64) -> Result<String, AllocError>
    ensures { IfOk result (λ line. string_bytes line ≡ at_line at words.now number) }
{
    let at = at.0;
    format!(in alloc; "{at} {words} {number}\n")
}

/// A replica asks for a view.
fn left_line(alloc: Global, at: ReplicaId, view: View) -> Result<String, AllocError>
    ensures { IfOk result (λ line. string_bytes line ≡ left_line at view) }
{
    let at = at.0;
    let view = view.0;
    format!(in alloc; "{at} leaves for view {view}\n")
}

/// A low mark rises.
fn raised_line(alloc: Global, at: ReplicaId, low: SeqNo) -> Result<String, AllocError>
    ensures { IfOk result (λ line. string_bytes line ≡ raised_line at low) }
{
    let at = at.0;
    let low = low.0;
    format!(in alloc; "{at} raises low to {low}\n")
}

/// A refusal.
fn refusal_line(
    alloc: Global,
    at: ReplicaId,
    from: Option<Node>,
    kind: Option<Kind>,
    fault: SealFault,
    part: Option<usize>,
) -> Result<String, AllocError>
    ensures { IfOk result (λ line. string_bytes line ≡ refusal_line at from kind fault part) }
{
    let at = at.0;
    let what = refused_words(alloc, from, kind)?;
    let why = fault_words(alloc, fault, part)?;
    format!(in alloc; "{at} refuses {what}: {why}\n")
}

/// What is refused.
fn refused_words(
    alloc: Global,
    from: Option<Node>,
    kind: Option<Kind>,
) -> Result<String, AllocError>
    ensures { IfOk result (λ text. string_bytes text ≡ refused_words from kind) }
{
    match kind {
        Some(kind) => {
            let from = node_text(alloc, from)?;
            let name = kind.name();
            format!(in alloc; "a {name} of {from}")
        }
        None => String::from_str(alloc, "bytes"),
    }
}

/// Why it is refused.
fn fault_words(alloc: Global, fault: SealFault, part: Option<usize>) -> Result<String, AllocError>
    ensures { IfOk result (λ text. string_bytes text ≡ fault_words fault part) }
{
    match part {
        Some(part) => format!(in alloc; "{fault} in part {part}"),
        None => format!(in alloc; "{fault}"),
    }
}

/// Whom signatures blame, and for what.
fn blame_line(alloc: Global, blame: &Blame) -> Result<String, AllocError>
    ensures { IfOk result (λ line. string_bytes line ≡ blame_line blame.now) }
{
    let signer = blame.signer();
    let words = blame_words(alloc, blame)?;
    format!(in alloc; "blame {signer} {words}\n")
}

/// For what someone is blamed.
fn blame_words(alloc: Global, blame: &Blame) -> Result<String, AllocError>
    ensures { IfOk result (λ text. string_bytes text ≡ blame_words blame.now) }
{
    match blame {
        Blame::Twice { one, other } => twice_words(alloc, one, other),
        Blame::Hidden {
            change,
            number,
            digest,
            ..
        } => hidden_words(alloc, change, *number, digest),
        Blame::Invalid(claim) => {
            let topic = topic_words(alloc, &claim.topic)?;
            format!(in alloc; "{topic} invalid")
        }
    }
}

/// Two things that one signer said.
fn twice_words(alloc: Global, one: &Claim, other: &Claim) -> Result<String, AllocError>
    ensures { IfOk result (λ text. string_bytes text ≡ twice_words one.now other.now) }
{
    let topic = topic_words(alloc, &one.topic)?;
    let first = digest_words(alloc, &one.topic, &one.digest)?;
    let second = digest_words(alloc, &other.topic, &other.digest)?;
    format!(in alloc; "{topic} {first} {second}")
}

/// A Commit that a ViewChange hides.
fn hidden_words(
    alloc: Global,
    change: &Claim,
    number: SeqNo,
    digest: &Digest,
) -> Result<String, AllocError>
    ensures { IfOk result (λ text. string_bytes text ≡ hidden_words change.now number digest.now) }
{
    let topic = topic_words(alloc, &change.topic)?;
    let number = number.0;
    let request = request_name(alloc, digest)?;
    format!(in alloc; "{topic} hides {number} {request}")
}

/// What two things are said of.
fn topic_words(alloc: Global, topic: &Topic) -> Result<String, AllocError>
    ensures { IfOk result (λ text. string_bytes text ≡ topic_words topic.now) }
{
    match *topic {
        Topic::Vote { kind, view, number } => {
            let name = vote_name(kind);
            let view = view.0;
            let number = number.0;
            format!(in alloc; "{name} view {view} number {number}")
        }
        Topic::Checkpoint { number } => {
            let number = number.0;
            format!(in alloc; "checkpoint number {number}")
        }
        Topic::ViewChange { view } => {
            let view = view.0;
            format!(in alloc; "view-change view {view}")
        }
        Topic::NewView { view } => {
            let view = view.0;
            format!(in alloc; "new-view view {view}")
        }
        Topic::Leaf { leaf } => format!(in alloc; "leaf {leaf}"),
    }
}

/// What is said of it: of a vote the request that is named, of another topic the digest of a state or of what was signed.
fn digest_words(alloc: Global, topic: &Topic, digest: &Digest) -> Result<String, AllocError>
    ensures { IfOk result (λ text. string_bytes text ≡ digest_words topic.now digest.now) }
{
    match topic {
        Topic::Vote { .. } => request_name(alloc, digest),
        _ => short(alloc, digest),
    }
}
