//! What replicas did, in words, and whether two reports are the same.

use pbft_codec::Body;
use std::alloc::{AllocError, Global};
use std::test::Fail;
use world_script::{Done, Outcome, Output, Report, Row, WorldFault};

fn kind(body: &Body) -> &'static str {
    match body {
        Body::Request(_) => "request",
        Body::PrePrepare(_) => "pre-prepare",
        Body::Prepare(_) => "prepare",
        Body::Commit(_) => "commit",
        Body::Reply(_) => "reply",
        Body::Checkpoint(_) => "checkpoint",
        Body::Snapshot(_) => "snapshot",
        Body::Fetch(_) => "fetch",
        Body::ViewChange(_) => "view-change",
        Body::NewView(_) => "new-view",
    }
}

fn push_word(text: &mut String, word: &str) -> Result<(), AllocError> {
    if !text.is_empty() {
        text.push_str(", ")?;
    }
    text.push_str(word)
}

fn done_text(alloc: Global, done: &Done) -> Result<String, AllocError> {
    match done {
        Done::Executed { number, .. } => {
            let number = number.0;
            format!(in alloc; "executed {number}")
        }
        Done::Installed { number, .. } => {
            let number = number.0;
            format!(in alloc; "installed {number}")
        }
    }
}

// The kinds of its messages, and what was done.
fn row_text(alloc: Global, row: &Row) -> Result<String, AllocError> {
    let mut text = String::new(alloc);
    for output in row.outputs() {
        push_word(&mut text, kind(output.message.body()))?;
    }
    for done in row.done() {
        push_word(&mut text, &done_text(alloc, done)?)?;
    }
    if text.is_empty() {
        text.push_str("nothing")?;
    }
    Ok(text)
}

/// What an event answers: its row, `no row`, or its fault.
pub fn answer_text(
    alloc: Global,
    answer: &Result<Option<Row>, WorldFault>,
) -> Result<String, Fail> {
    match answer {
        Ok(Some(row)) => Ok(row_text(alloc, row)?),
        Ok(None) => Ok(format!(in alloc; "no row")?),
        Err(fault) => Ok(format!(in alloc; "{fault}")?),
    }
}

fn are_same_outputs(one: &Output, other: &Output) -> bool {
    one.to == other.to && one.own == other.own && one.message.bytes() == other.message.bytes()
}

fn are_same_done(one: &Done, other: &Done) -> bool {
    match (one, other) {
        (
            Done::Executed {
                number,
                digest,
                result,
            },
            Done::Executed {
                number: other_number,
                digest: other_digest,
                result: other_result,
            },
        ) => {
            number == other_number
                && digest == other_digest
                && result.as_slice() == other_result.as_slice()
        }
        (
            Done::Installed { number, digest },
            Done::Installed {
                number: other_number,
                digest: other_digest,
            },
        ) => number == other_number && digest == other_digest,
        _ => false,
    }
}

// Whether two rows report the same.
fn are_same_rows(one: &Row, other: &Row) -> bool {
    let (outputs, others) = (one.outputs(), other.outputs());
    let (done, others_done) = (one.done(), other.done());
    one.leaves() == other.leaves()
        && outputs.len() == others.len()
        && done.len() == others_done.len()
        && outputs
            .iter()
            .zip(others)
            .all(|(one, other)| are_same_outputs(one, other))
        && done
            .iter()
            .zip(others_done)
            .all(|(one, other)| are_same_done(one, other))
}

fn are_same_outcomes(one: &Outcome, other: &Outcome) -> bool {
    one.id == other.id
        && one.halted == other.halted
        && one.rows.len() == other.rows.len()
        && one
            .rows
            .iter()
            .zip(&other.rows)
            .all(|(one, other)| are_same_rows(one, other))
}

/// Whether two reports are the same.
pub fn are_same(one: &Report, other: &Report) -> bool {
    let (one, other) = (one.outcomes(), other.outcomes());
    one.len() == other.len()
        && one
            .iter()
            .zip(other)
            .all(|(one, other)| are_same_outcomes(one, other))
}
