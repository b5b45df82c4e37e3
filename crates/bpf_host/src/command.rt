//! The commands: what the words ask for, and who does it.

ghost use Rattle.std.specs.Prelude.{◌≤◌, IfErr};

use crate::check::check;
use crate::counter::Counter;
use crate::explainer::Explainer;
use crate::failure::Failure;
use crate::files::{Place, open, text_of};
use crate::objects::InJson;
use crate::outlet::Outlet;
use crate::recorder::Recorder;
use crate::said::{of_the_system, report, say_why};
use crate::scripts::read_script_at;
use crate::words::{command_line, file_of, form_of, format_of, profile_of, world_help};
use crate::worlds::{explore, play};
use clap::ArgMatches;
use clap::error::ErrorKind;
use code_commands::{
    Arguments, CodeForm, Execution, Format, Profile, asm, disasm, exec, verify, verify_explained,
};
use host_script::{Audited, Dialect, Progress, Script, run_threads_read, run_threads_told};
use host_types::ClientId;
use std::alloc::{AllocError, Global};
use std::io::{self, Read, Write};
use std::rt::Files;
use std::sync::Wait;
use std::thread::Threads;
use std::time::Clock;

/// The client that calls where none is named.
const DEFAULT_CLIENT: u32 = 16;

/// Which streams are a person's terminal.
#[derive(Clone, Copy, Debug, Default)]
pub struct Console {
    /// Standard error, while standard output is none: how far long work is may be counted there.
    pub is_watched: bool,
    /// Standard input: who types there is to know that it is read.
    pub is_typed: bool,
}

/// Does what the words ask for, the program's name the first of them, and returns the status: 0 done,
/// 1 a refusal, 2 a fault of the command line, 3 out of memory, 4 a read or a write that failed. All
/// lines, faults too, go to the writer. `run` waits until its requests are executed.
pub fn run_command<
    'a,
    R: Files + AllocGlobal + Threads + Wait + Clock + Copy + Send + Sync + Drop + 'static,
    I: Read,
    O: Write,
>(rt: &R, words: &'a [&'a str], reader: &mut I, writer: &mut O) -> u8
    ensures { result ≤ 4 }
{
    run_explained(
        rt,
        words,
        reader,
        writer,
        &mut io::sink(),
        Console::default(),
    )
}

/// Does the same, and says on `errors`, in a line, why a command ended early, where there is more to say than its own
/// lines do. On a person's terminal it also counts how far long work is, on one line that is gone at the end, and says where it
/// waits for what is typed. What can't be written there is lost.
pub fn run_explained<
    'a,
    R: Files + AllocGlobal + Threads + Wait + Clock + Copy + Send + Sync + Drop + 'static,
    I: Read,
    O: Write,
    E: Write,
>(
    rt: &R,
    words: &'a [&'a str],
    reader: &mut I,
    writer: &mut O,
    errors: &mut E,
    console: Console,
) -> u8
    ensures { result ≤ 4 }
{
    let mut outlet = Outlet::new(writer);
    let matches = match asked_for(rt.alloc(), words, &mut outlet, errors) {
        Ok(matches) => matches,
        Err(status) => return status,
    };
    if let Some(("check", options)) = matches.subcommand() {
        let folder = options.get_str("folder").unwrap_or(".");
        let done = check(rt, folder, format_of(options), &mut outlet);
        return ended(rt.alloc(), &matches, done, None, &mut outlet, errors);
    }
    started(
        rt,
        Place::Here,
        &matches,
        reader,
        &mut outlet,
        errors,
        console,
    )
}

/// Does the same as a run of a folder: `check` is a fault of the command line there, and files are those of the folder.
pub(crate) fn run_in_folder<
    'a,
    R: Files + AllocGlobal + Threads + Wait + Clock + Copy + Send + Sync + Drop + 'static,
    I: Read,
    O: Write,
    E: Write,
>(rt: &R, folder: &str, words: &'a [&'a str], reader: &mut I, writer: &mut O, errors: &mut E) -> u8
    ensures { result ≤ 4 }
{
    let mut outlet = Outlet::new(writer);
    let matches = match asked_for(rt.alloc(), words, &mut outlet, errors) {
        Ok(matches) => matches,
        Err(status) => return status,
    };
    let place = Place::Folder(folder);
    let console = Console::default();
    started(rt, place, &matches, reader, &mut outlet, errors, console)
}

/// Does a command over the file that it names, or over what is read.
fn started<
    R: Files + AllocGlobal + Threads + Wait + Clock + Copy + Send + Sync + Drop + 'static,
    I: Read,
    O: Write,
    E: Write,
>(
    rt: &R,
    place: Place<'_>,
    matches: &ArgMatches<'_>,
    reader: &mut I,
    outlet: &mut Outlet<'_, O>,
    errors: &mut E,
    console: Console,
) -> u8
    ensures { result ≤ 4 }
{
    let Some(name) = matches
        .subcommand()
        .and_then(|(_, options)| file_of(options))
    else {
        if console.is_typed {
            let _ = writeln!(
                errors,
                "bpf_host: reading what is typed, up to Ctrl-D; a FILE is read in its place"
            );
        }
        return recorded(rt, place, matches, reader, outlet, errors, console);
    };
    match open(rt, rt.alloc(), place, name) {
        Ok(mut file) => recorded(rt, place, matches, &mut file, outlet, errors, console),
        Err(failure) => ended(
            rt.alloc(),
            matches,
            Err(failure.in_place_of_input(matches.subcommand_name())),
            None,
            outlet,
            errors,
        ),
    }
}

/// Does a command over what is read, and says why it ended early, if it did.
fn recorded<
    R: Files + AllocGlobal + Threads + Wait + Clock + Copy + Send + Sync + Drop + 'static,
    I: Read,
    O: Write,
    E: Write,
>(
    rt: &R,
    place: Place<'_>,
    matches: &ArgMatches<'_>,
    reader: &mut I,
    outlet: &mut Outlet<'_, O>,
    errors: &mut E,
    console: Console,
) -> u8
    ensures { result ≤ 4 }
{
    let mut recorder = Recorder::new(rt.alloc(), reader);
    let mut counter = Counter::new(errors, console.is_watched);
    let done = perform(rt, place, matches, &mut recorder, outlet, &mut counter);
    counter.end();
    ended(rt.alloc(), matches, done, recorder.kept(), outlet, errors)
}

/// Writes why a command over this input ended early, if it did, and returns the status.
fn ended<O: Write, E: Write>(
    alloc: Global,
    matches: &ArgMatches<'_>,
    done: Result<(), Failure>,
    input: Option<&[u8]>,
    outlet: &mut Outlet<'_, O>,
    errors: &mut E,
) -> u8
    ensures { result ≤ 4 }
{
    match done {
        Ok(()) => 0,
        Err(failure) => say_why(alloc, matches, &failure, input, outlet, errors),
    }
}

/// Writes what is wrong with the words, and returns the status. Who names a file where a command stands is told of `exec`.
fn unread_words<'a, O: Write, E: Write>(
    alloc: Global,
    words: &'a [&'a str],
    failure: &Failure,
    outlet: &mut Outlet<'_, O>,
    errors: &mut E,
) -> u8
    ensures { result ≤ 4 }
{
    let status = report(failure, outlet);
    if outlet.is_closed() {
        return status;
    }
    if let Ok(Some(sentence)) = of_the_system(alloc, failure) {
        let _ = writeln!(errors, "bpf_host: {sentence}");
    }
    if let Failure::CommandLine(error) = failure {
        tell_of_a_file(error.kind(), words, errors);
    }
    status
}

/// Says of a file's name that stands where no file is taken which command reads it, or where it stands.
fn tell_of_a_file<'a, E: Write>(kind: ErrorKind, words: &'a [&'a str], errors: &mut E) {
    match words.get(1) {
        Some(word) if is_file_name(word) => {
            let _ = writeln!(
                errors,
                "bpf_host: {word} is no command; bpf_host exec {word} runs the code in a file"
            );
        }
        _ => {}
    }
    for pair in words.windows(2) {
        if let ["--chart", file] = pair {
            if kind == ErrorKind::InvalidValue && is_file_name(file) {
                let _ = writeln!(
                    errors,
                    "bpf_host: --chart takes {file} for a form; a FILE stands before --chart"
                );
            }
        }
    }
}

/// Whether a word looks like the name of a file.
fn is_file_name(word: &str) -> bool {
    !word.starts_with('-') && (word.contains('.') || word.contains('/'))
}

/// What the words ask for. Where that is the version or a help, or the words are wrong, this is written, and the error is the
/// status.
fn asked_for<'a, O: Write, E: Write>(
    alloc: Global,
    words: &'a [&'a str],
    outlet: &mut Outlet<'_, O>,
    errors: &mut E,
) -> Result<ArgMatches<'a>, u8>
    ensures { IfErr result (λ status. status ≤ 4) }
{
    match parsed(alloc, words, outlet) {
        Ok(Some(matches)) => Ok(matches),
        Ok(None) => Err(0),
        Err(failure) => Err(unread_words(alloc, words, &failure, outlet, errors)),
    }
}

/// What the words ask for; none where that is the version, which is written.
fn parsed<'a, O: Write>(
    alloc: Global,
    words: &'a [&'a str],
    writer: &mut O,
) -> Result<Option<ArgMatches<'a>>, Failure> {
    match command_line(alloc, "")?.try_get_matches_from(words) {
        Ok(matches) => Ok(Some(matches)),
        Err(error) if error.kind() == ErrorKind::DisplayVersion => {
            write!(writer, "{error}")?;
            Ok(None)
        }
        Err(error) if error.kind() == ErrorKind::DisplayHelp => {
            let ending = world_help(alloc)?;
            Err(
                help_for(alloc, words, ending.as_str())?
                    .unwrap_or(error)
                    .into(),
            )
        }
        Err(error) => Err(error.into()),
    }
}

/// The help that the words ask for, where that of `world` ends with this text.
fn help_for<'a>(
    alloc: Global,
    words: &'a [&'a str],
    ending: &'a str,
) -> Result<Option<clap::Error>, AllocError> {
    let asked = command_line(alloc, ending)?.try_get_matches_from(words);
    Ok(asked.err())
}

/// Does what the words that were read ask for, but for `check`.
fn perform<
    R: Files + AllocGlobal + Threads + Wait + Clock + Copy + Send + Sync + Drop + 'static,
    I: Read,
    O: Write,
    P: Progress,
>(
    rt: &R,
    place: Place<'_>,
    matches: &ArgMatches<'_>,
    reader: &mut I,
    writer: &mut O,
    progress: &mut P,
) -> Result<(), Failure> {
    let alloc = rt.alloc();
    match matches.subcommand() {
        Some(("asm", _)) => Ok(asm(alloc, reader, writer)?),
        Some(("disasm", options)) => Ok(disasm(alloc, form_of(options), reader, writer)?),
        Some(("verify", options)) => judge(alloc, options, reader, writer),
        Some(("world", options)) => play(rt, place, options, reader, writer, progress),
        Some(("explore", options)) => explore(rt, place, options, reader, writer, progress),
        Some(("run", options)) => run(rt, place, options, reader, writer, progress),
        Some(("exec", options)) => call(rt, place, options, reader, writer),
        Some(_) => Err(Failure::Nested),
        None => Ok(exec(alloc, PLAIN, reader, writer)?),
    }
}

/// What is done with code where no command is named.
const PLAIN: Execution<'static> = Execution {
    form: CodeForm::Hex,
    profile: Profile::One,
    arguments: Arguments::Hex(""),
    client: ClientId(DEFAULT_CLIENT),
    map: None,
    dumps: false,
    format: Format::Words,
};

/// Verifies code as the options say.
fn judge<I: Read, O: Write>(
    alloc: Global,
    options: &ArgMatches<'_>,
    reader: &mut I,
    writer: &mut O,
) -> Result<(), Failure> {
    let form = form_of(options);
    let profile = profile_of(options);
    if options.get_flag("explain") {
        return Ok(verify_explained(alloc, form, profile, reader, writer)?);
    }
    Ok(verify(alloc, form, profile, format_of(options), reader, writer)?)
}

/// Runs a script, whose FILE lies at this place, on replicas in threads, and has its lines explained where that is asked for.
fn run<
    R: Files + AllocGlobal + Threads + Wait + Clock + Copy + Send + Sync + 'static,
    I: Read,
    O: Write,
    P: Progress,
>(
    rt: &R,
    place: Place<'_>,
    options: &ArgMatches<'_>,
    reader: &mut I,
    writer: &mut O,
    progress: &mut P,
) -> Result<(), Failure> {
    let beside = place.beside(file_of(options));
    let format = format_of(options);
    let placed = match read_script_at(rt, beside, Dialect::Threads, reader) {
        Ok(placed) => placed,
        Err(refused) => return Err(refused.written_in(format, writer)),
    };
    if !options.get_flag("explain") {
        return run_threads(rt, format, &placed.script, writer, progress);
    }
    let mut explainer = Explainer::new(rt.alloc(), &placed.script, writer);
    run_threads(rt, format, &placed.script, &mut explainer, progress)
}

/// Runs a script that was read on replicas in threads.
fn run_threads<
    R: AllocGlobal + Threads + Wait + Clock + Copy + Send + Sync + 'static,
    O: Write,
    P: Progress,
>(
    rt: &R,
    format: Format,
    script: &Script,
    writer: &mut O,
    progress: &mut P,
) -> Result<(), Failure> {
    let alloc = rt.alloc();
    let audited = match format {
        Format::Words => run_threads_read(rt, alloc, script, writer, progress)?,
        Format::Json => run_threads_told(rt, alloc, &InJson, script, writer, progress)?,
    };
    match audited {
        Audited::Agreed => Ok(()),
        Audited::Refused => Err(Failure::Refused),
        Audited::Unanswered(why) => Err(Failure::Unanswered(why)),
    }
}

/// Runs code with the arguments, over the map and for the client that the options name.
fn call<R: Files + AllocGlobal, I: Read, O: Write>(
    rt: &R,
    place: Place<'_>,
    options: &ArgMatches<'_>,
    reader: &mut I,
    writer: &mut O,
) -> Result<(), Failure> {
    let map = named_text(rt, place, options.get_str("map"))?;
    let calls = named_text(rt, place, options.get_str("calls"))?;
    let map = match &map {
        Some(text) => Some(text.as_str()),
        None => None,
    };
    let alloc = rt.alloc();
    if let Some(calls) = &calls {
        let arguments = Arguments::Calls(calls.as_str());
        return Ok(exec(alloc, execution_of(options, arguments, map), reader, writer)?);
    }
    let execution = match options.get_str("numbers") {
        Some(numbers) => execution_of(options, Arguments::Numbers(numbers), map),
        None => {
            let bytes = options.get_str("args").unwrap_or("");
            execution_of(options, Arguments::Hex(bytes), map)
        }
    };
    Ok(exec(alloc, execution, reader, writer)?)
}

/// What is done with code as the options say, with these arguments and over this map.
fn execution_of<'b>(
    options: &ArgMatches<'_>,
    arguments: Arguments<'b>,
    map: Option<&'b str>,
) -> Execution<'b> {
    Execution {
        form: form_of(options),
        profile: profile_of(options),
        arguments,
        client: ClientId(options.get_one::<u32>("client").unwrap_or(DEFAULT_CLIENT)),
        map,
        dumps: options.get_flag("dump"),
        format: format_of(options),
    }
}

/// The text of a file, where one is named.
fn named_text<R: Files + AllocGlobal>(
    rt: &R,
    place: Place<'_>,
    name: Option<&str>,
) -> Result<Option<String>, Failure> {
    match name {
        Some(name) => Ok(Some(text_of(rt, rt.alloc(), place, name)?)),
        None => Ok(None),
    }
}
