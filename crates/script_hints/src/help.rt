//! What a person is told of all keys at once.

use crate::keys::{ANY_STEP, CLIENT, HEAD, Key, all_keys};
use script_text::STEP_FORMS;
use std::alloc::{AllocError, Global};

/// Where keys stand in a script.
#[derive(Clone, Copy, Debug, PartialEq, Eq)]
enum Part {
    Head,
    Client,
    Step,
}

impl Part {
    fn of(key: &Key) -> Part {
        match key.place {
            place if place == HEAD => Part::Head,
            place if place == CLIENT => Part::Client,
            _ => Part::Step,
        }
    }
}

/// How wide the column of names is.
const NAMES: usize = 14;

/// All keys of a script and what they take, for a person who writes one, without a line end. The error is that memory ran
/// out.
pub fn keys_help(alloc: Global) -> Result<String, AllocError> {
    let keys = all_keys(alloc)?;
    let mut text = String::from_str(
        alloc,
        "A script is a TOML document: a head, clients, steps (docs/SCRIPTS.md).\n\nHead; f, k and secret are needed:\n",
    )?;
    add_keys(&mut text, &keys, Part::Head)?;
    text.push_str("\n[[client]]\n")?;
    add_keys(&mut text, &keys, Part::Client)?;
    text.push_str("\n[[step]]\n")?;
    text.push_str(STEP_FORMS)?;
    text.push_str(
        "\nas = a name, in a step that queues or in queue: its first message, for a later raw. from, to and kinds, left out,\nmatch all messages.\n\nKeys of steps:\n",
    )?;
    add_keys(&mut text, &keys, Part::Step)?;
    String::from_str(alloc, text.as_str().trim_end())
}

/// Adds a line for each key of a part.
fn add_keys(text: &mut String, keys: &[Key], part: Part) -> Result<(), AllocError> {
    for key in keys {
        if Part::of(key) == part {
            add_key(text, key)?;
        }
    }
    Ok(())
}

fn add_key(text: &mut String, key: &Key) -> Result<(), AllocError> {
    text.push_str("  ")?;
    let begin = text.len();
    text.push_str(key.name)?;
    if ![HEAD, CLIENT, ANY_STEP].contains(&key.place) {
        text.push_str(" (")?;
        text.push_str(key.place)?;
        text.push(')')?;
    }
    for _ in text.len().saturating_sub(begin)..NAMES {
        text.push(' ')?;
    }
    text.push(' ')?;
    text.push_str(key.takes)?;
    text.push('\n')
}
