//! The commands over scripts of worlds: `world`, with what it is to show, and `explore`.

use crate::explainer::Explainer;
use crate::failure::Failure;
use crate::files::Place;
use crate::line_objects::LineObjects;
use crate::scripts::read_script_at;
use crate::words::{file_argument, file_of, format_of, json_option, workers_parser};
use clap::builder::ValueParser;
use clap::{Arg, ArgAction, ArgMatches, Command};
use code_commands::Format;
use host_script::{Dialect, Played, Progress, Script, run_read};
use std::alloc::{AllocError, Global};
use std::io::{Read, Write};
use std::rt::Files;
use std::thread::Threads;
use world_trace::{
    ChartForm, PlacedScript, Search, Searched, Seeds, Wanted, chart_script, explore_script,
    explore_side_by_side, trace_script,
};

/// The first number that is no seed.
const SEEDS_END: u64 = 1 << 63;

/// `world`, its file and its options; its help ends with this text.
pub(crate) fn world_command<'a>(alloc: Global, ending: &'a str) -> Result<Command<'a>, AllocError> {
    let trace = Arg::new(alloc, "trace")
        .long("trace")
        .action(ArgAction::SetTrue)
        .conflicts_with("chart")?
        .help("before the lines of a step one for each thing that happened");
    let chart = Arg::new(alloc, "chart")
        .long("chart")
        .value_name("FORM")
        .num_args(0..=1)
        .default_missing_value("mermaid")
        .value_parser(["mermaid", "svg"].as_slice())
        .help("what happened as a chart of messages, in place of the lines [default: mermaid]");
    let seed = Arg::new(alloc, "seed")
        .long("seed")
        .value_name("N")
        .value_parser(ValueParser::unsigned(0, SEEDS_END - 1))
        .help("each deliver step has the order that N draws, as under explore");
    Command::new(alloc, "world")
        .about("Runs a script of replicas, some of them faulty")
        .after_help(ending)
        .arg(file_argument(alloc, "the script [default: standard input]"))?
        .arg(trace)?
        .arg(explain_option(alloc).conflicts_with("chart")?)?
        .arg(chart)?
        .arg(seed)?
        .arg(
            json_option(alloc)
                .conflicts_with("trace")?
                .conflicts_with("explain")?
                .conflicts_with("chart")?,
        )
}

/// The option that has lines explained.
pub(crate) fn explain_option<'a>(alloc: Global) -> Arg<'a> {
    Arg::new(alloc, "explain")
        .long("explain")
        .action(ArgAction::SetTrue)
        .help("below each line what it means")
}

/// `explore`, its file and its options.
pub(crate) fn explore_command<'a>(alloc: Global) -> Result<Command<'a>, AllocError> {
    let seeds = Arg::new(alloc, "seeds")
        .long("seeds")
        .value_name("A..B")
        .required(true)
        .help("the seeds from A on, without B");
    let workers = Arg::new(alloc, "workers")
        .long("workers")
        .value_name("N")
        .value_parser(workers_parser())
        .help("how many seeds are run side by side [default: 1]");
    let answered = Arg::new(alloc, "answered")
        .long("answered")
        .action(ArgAction::SetTrue)
        .help("a request of a client that is open behind the last step ends the search, too");
    let shrink = Arg::new(alloc, "shrink")
        .long("shrink")
        .action(ArgAction::SetTrue)
        .help(
            "behind what ends the search few choices for each deliver step that come to the same",
        );
    Command::new(alloc, "explore")
        .about("Runs a script under many orders of its deliveries and audits each")
        .arg(file_argument(alloc, "the script [default: standard input]"))?
        .arg(seeds)?
        .arg(workers)?
        .arg(answered)?
        .arg(shrink)?
        .arg(json_option(alloc))
}

/// Runs a script of a world, whose FILE lies at this place, under the seed that is named, and has its lines explained or objects
/// made of them where that is asked for.
pub(crate) fn play<R: Files + AllocGlobal, I: Read, O: Write, P: Progress>(
    rt: &R,
    place: Place<'_>,
    options: &ArgMatches<'_>,
    reader: &mut I,
    writer: &mut O,
    progress: &mut P,
) -> Result<(), Failure> {
    let alloc = rt.alloc();
    let beside = place.beside(file_of(options));
    let format = format_of(options);
    let seed = options.get_one::<u64>("seed");
    let placed = match read_script_at(rt, beside, dialect_under(seed), reader) {
        Ok(placed) => placed,
        Err(refused) => return Err(refused.written_in(format, writer)),
    };
    let placed = match seed {
        Some(seed) => placed.ordered(seed),
        None => placed,
    };
    if format == Format::Json {
        let mut objects = LineObjects::new(alloc, &placed.script, writer);
        let done = play_read(alloc, options, &placed, &mut objects, progress);
        return objects.ended(done);
    }
    if !options.get_flag("explain") {
        return play_read(alloc, options, &placed, writer, progress);
    }
    let mut explainer = Explainer::new(alloc, &placed.script, writer);
    play_read(alloc, options, &placed, &mut explainer, progress)
}

/// The dialect of a script of a world, perhaps under a seed that is given beside it.
pub(crate) fn dialect_under(seed: Option<u64>) -> Dialect {
    match seed {
        Some(_) => Dialect::Seeded,
        None => Dialect::World,
    }
}

/// Runs a script of a world that was read.
fn play_read<O: Write, P: Progress>(
    alloc: Global,
    options: &ArgMatches<'_>,
    placed: &PlacedScript,
    writer: &mut O,
    progress: &mut P,
) -> Result<(), Failure> {
    let played = match options.get_str("chart") {
        Some("svg") => chart_script(alloc, ChartForm::Svg, placed, writer, progress)?,
        Some(_) => chart_script(alloc, ChartForm::Mermaid, placed, writer, progress)?,
        None if options.get_flag("trace") => trace_script(alloc, placed, writer, progress)?,
        None => run_read(alloc, &placed.script, writer, progress)?,
    };
    match played {
        Played::Whole => Ok(()),
        Played::Unexpected => Err(Failure::Refused),
    }
}

/// Runs a script, whose FILE lies at this place, under many seeds.
pub(crate) fn explore<R: Files + AllocGlobal + Threads + Sync, I: Read, O: Write, P: Progress>(
    rt: &R,
    place: Place<'_>,
    options: &ArgMatches<'_>,
    reader: &mut I,
    writer: &mut O,
    progress: &mut P,
) -> Result<(), Failure> {
    let search = Search {
        seeds: seeds_of(options)?,
        wanted: wanted_of(options),
        shrinks: options.get_flag("shrink"),
    };
    let workers = usize::from(options.get_one::<u8>("workers").unwrap_or(1));
    let beside = place.beside(file_of(options));
    let format = format_of(options);
    let placed = match read_script_at(rt, beside, Dialect::Seeded, reader) {
        Ok(placed) => placed,
        Err(refused) => return Err(refused.written_in(format, writer)),
    };
    if format == Format::Json {
        let mut objects = LineObjects::new(rt.alloc(), &placed.script, writer);
        let done = explore_read(rt, workers, search, &placed.script, &mut objects, progress);
        return objects.ended(done);
    }
    explore_read(rt, workers, search, &placed.script, writer, progress)
}

/// Runs a script that was read under many seeds, so many side by side.
fn explore_read<R: AllocGlobal + Threads + Sync, O: Write, P: Progress>(
    rt: &R,
    workers: usize,
    search: Search,
    script: &Script,
    writer: &mut O,
    progress: &mut P,
) -> Result<(), Failure> {
    let alloc = rt.alloc();
    if workers <= 1 {
        return ended(explore_script(alloc, search, script, writer, progress)?);
    }
    ended(explore_side_by_side(rt, alloc, workers, search, script, writer, progress)?)
}

fn ended(searched: Searched) -> Result<(), Failure> {
    match searched {
        Searched::Agreed => Ok(()),
        Searched::Refused => Err(Failure::Refused),
    }
}

/// What the options say that is to hold behind the steps.
fn wanted_of(options: &ArgMatches<'_>) -> Wanted {
    if options.get_flag("answered") {
        Wanted::Answers
    } else {
        Wanted::Agreement
    }
}

/// The seeds that the options name.
fn seeds_of(options: &ArgMatches<'_>) -> Result<Seeds, Failure> {
    match read_seeds(options.get_str("seeds").unwrap_or("")) {
        Some(seeds) => Ok(seeds),
        None => Err(Failure::BadSeeds),
    }
}

/// Reads `A..B`.
fn read_seeds(text: &str) -> Option<Seeds> {
    let (first, end) = text.split_once("..")?;
    match (first.parse::<u64>(), end.parse::<u64>()) {
        (Ok(first), Ok(end)) if first < end && end <= SEEDS_END => Some(Seeds { first, end }),
        _ => None,
    }
}
