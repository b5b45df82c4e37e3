//! What is said of a command that ended early: its line, and a sentence on standard error.

ghost use Rattle.std.specs.Prelude.{◌≤◌};

use crate::failure::{Failure, UNREAD_SCRIPT};
use crate::outlet::Outlet;
use crate::words::{form_of, format_of, profile_of};
use crate::worlds::dialect_under;
use clap::ArgMatches;
use code_commands::{
    CodeFailure, CodeForm, Format, NumberKind, Profile, failure_object, push_json,
};
use host_script::{ScriptFault, ScriptKind};
use script_hints::{Dialect, line_for, sentence_for};
use std::alloc::{AllocError, Global};
use std::io::Write;

/// Writes why a command ended early, where that is written, and returns the status. Takes no memory.
pub(crate) fn report<O: Write>(failure: &Failure, writer: &mut O) -> u8
    ensures { (1 ≤ result) × (result ≤ 4) }
{
    if !failure.is_reported() {
        return failure.status();
    }
    match writeln!(writer, "{failure}") {
        Ok(()) => failure.status(),
        Err(error) => Failure::from(error).status(),
    }
}

/// Writes why a command over this input ended early, and says more of it on `errors`, in a line, where there is more to say and
/// somebody reads. `input` is none where it wasn't kept. Where memory runs out, or the line can't be written, nothing more is
/// said. Returns the status.
pub(crate) fn say_why<O: Write, E: Write>(
    alloc: Global,
    matches: &ArgMatches<'_>,
    failure: &Failure,
    input: Option<&[u8]>,
    outlet: &mut Outlet<'_, O>,
    errors: &mut E,
) -> u8
    ensures { (1 ≤ result) × (result ≤ 4) }
{
    let sentence = why(alloc, matches, failure, input).unwrap_or(None);
    let sentence = sentence.as_ref().map(|text| text.as_str());
    let status = match matches.subcommand() {
        Some((_, options)) if format_of(options) == Format::Json => {
            report_object(alloc, failure, input, sentence, outlet)
        }
        _ => report(failure, outlet),
    };
    if let (Some(sentence), false) = (sentence, outlet.is_closed()) {
        let _ = writeln!(errors, "bpf_host: {sentence}");
    }
    status
}

/// Writes a failure as an object of JSON, where it is written, and returns the status.
fn report_object<O: Write>(
    alloc: Global,
    failure: &Failure,
    input: Option<&[u8]>,
    sentence: Option<&str>,
    outlet: &mut Outlet<'_, O>,
) -> u8
    ensures { (1 ≤ result) × (result ≤ 4) }
{
    let object = match failure {
        Failure::Code(failure) => failure_object(alloc, failure, sentence),
        Failure::Check(fault) => fault.object(alloc, sentence).map(Some),
        Failure::Script(fault) => script_object(alloc, *fault, input, sentence),
        Failure::RefusedScript(refused) => {
            script_object(alloc, refused.fault(), input, sentence)
        }
        Failure::UnreadScript(_) => script_object(alloc, UNREAD_SCRIPT, None, sentence),
        Failure::Unanswered(why) => unanswered_object(alloc, why).map(Some),
        _ => return report(failure, outlet),
    };
    match object {
        Ok(Some(object)) => match writeln!(outlet, "{object}") {
            Ok(()) => failure.status(),
            Err(error) => Failure::from(error).status(),
        },
        Ok(None) => failure.status(),
        Err(_) => Failure::Memory.status(),
    }
}

/// A fault of a script as an object of JSON: its name, its number, its step, its line where the text shows it, and the sentence
/// where there is one. None where nothing can be written.
fn script_object(
    alloc: Global,
    fault: ScriptFault,
    input: Option<&[u8]>,
    sentence: Option<&str>,
) -> Result<Option<String>, AllocError> {
    let ScriptFault { kind, step } = fault;
    if kind == ScriptKind::Write {
        return Ok(None);
    }
    let number = kind.number();
    let mut text = format!(in alloc;
        "{{\"fault\":\"{kind}\",\"of\":\"script\",\"number\":{number},\"step\":{step}"
    )?;
    if let Some(line) = line_for(alloc, input.unwrap_or(&[]), fault)? {
        write!(text, ",\"line\":{line}")?;
    }
    if let Some(sentence) = sentence {
        text.push_str(",\"sentence\":")?;
        push_json(&mut text, sentence)?;
    }
    text.push('}')?;
    Ok(Some(text))
}

/// Why a request can't be answered any more, as an object of JSON.
fn unanswered_object(alloc: Global, why: &str) -> Result<String, AllocError> {
    let mut text = String::from_str(alloc, "{\"unanswered\":")?;
    push_json(&mut text, why)?;
    text.push('}')?;
    Ok(text)
}

/// What there is more to say.
fn why(
    alloc: Global,
    matches: &ArgMatches<'_>,
    failure: &Failure,
    input: Option<&[u8]>,
) -> Result<Option<String>, AllocError> {
    if let Some(sentence) = of_the_system(alloc, failure)? {
        return Ok(Some(sentence));
    }
    match (failure, input) {
        (Failure::BadSeeds, _) => of_seeds(alloc, matches),
        (Failure::Script(fault), Some(input)) => of_script(alloc, matches, *fault, input),
        (Failure::RefusedScript(refused), Some(input)) => refused.sentence(alloc, input),
        (Failure::Code(failure), Some(input)) => of_code(alloc, matches, failure, input),
        _ => Ok(None),
    }
}

/// That memory ran out, why a file or a stream failed, or why a request can't be answered.
pub(crate) fn of_the_system(
    alloc: Global,
    failure: &Failure,
) -> Result<Option<String>, AllocError> {
    let text = match failure {
        Failure::Memory | Failure::Code(CodeFailure::Memory) => {
            String::from_str(alloc, "memory ran out")?
        }
        Failure::Unread(unread) | Failure::UnreadScript(unread) => {
            format!(in alloc; "{unread}")?
        }
        Failure::Stream(error) | Failure::Code(CodeFailure::Stream(error)) => {
            format!(in alloc; "a read or a write failed: {error}")?
        }
        Failure::Unanswered(why) => format!(in alloc; "no reply can come: {why}")?,
        Failure::Check(fault) => fault.sentence(alloc)?,
        Failure::Script(fault) => match fault.kind {
            ScriptKind::Memory => String::from_str(alloc, "memory ran out")?,
            ScriptKind::Read => String::from_str(alloc, "the script can't be read")?,
            ScriptKind::Write => String::from_str(alloc, "standard output can't be written")?,
            _ => return Ok(None),
        },
        _ => return Ok(None),
    };
    Ok(Some(text))
}

/// What `--seeds` has, and an example of what it takes.
fn of_seeds(alloc: Global, matches: &ArgMatches<'_>) -> Result<Option<String>, AllocError> {
    let Some((_, options)) = matches.subcommand() else {
        return Ok(None);
    };
    let seeds = options.get_str("seeds").unwrap_or("");
    let sentence = format!(in alloc;
        "--seeds is {seeds:?}; --seeds 0..1000 has the seeds from 0 to 999"
    )?;
    Ok(Some(sentence))
}

/// What is wrong with a script.
fn of_script(
    alloc: Global,
    matches: &ArgMatches<'_>,
    fault: ScriptFault,
    input: &[u8],
) -> Result<Option<String>, AllocError> {
    let dialect = match matches.subcommand() {
        Some(("run", _)) => Dialect::Threads,
        Some(("explore", _)) => Dialect::Seeded,
        Some(("world", options)) => dialect_under(options.get_one::<u64>("seed")),
        _ => Dialect::World,
    };
    sentence_for(alloc, dialect, &[], input, fault)
}

/// What is wrong with code, an assembler text, arguments, or a map's text.
fn of_code(
    alloc: Global,
    matches: &ArgMatches<'_>,
    failure: &CodeFailure,
    input: &[u8],
) -> Result<Option<String>, AllocError> {
    let (form, profile) = match matches.subcommand() {
        Some((_, options)) => (form_of(options), profile_of(options)),
        None => (CodeForm::Hex, Profile::One),
    };
    let sentence = code_commands::sentence_for(alloc, form, profile, input, failure)?;
    match (sentence, failure) {
        (Some(sentence), CodeFailure::Number(fault))
            if matches!(fault.kind, NumberKind::NotNumber) => {
            let word = number_at(matches, fault.place).unwrap_or("");
            let sentence = format!(in alloc;
                "{sentence}: it is {word:?}, and blanks stand between numbers"
            )?;
            Ok(Some(sentence))
        }
        (sentence, _) => Ok(sentence),
    }
}

/// The number of `--numbers` that has this place, counted from 1.
fn number_at<'a>(matches: &ArgMatches<'a>, place: usize) -> Option<&'a str> {
    let (_, options) = matches.subcommand()?;
    let numbers = options.get_str("numbers")?;
    numbers.split_whitespace().nth(place.checked_sub(1)?)
}
