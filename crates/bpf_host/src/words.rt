//! The words of the command line: which commands and options there are.

use crate::worlds::{explain_option, explore_command, world_command};
use clap::builder::ValueParser;
use clap::{Arg, ArgAction, ArgMatches, Command, value_parser};
use code_commands::{CodeForm, Format, Profile};
use script_hints::keys_help;
use std::alloc::{AllocError, Global};

/// The program's version.
const VERSION: &str = "1.1.0";

/// The word that names standard input.
const STANDARD_INPUT: &str = "-";

/// What `--help` says below the options.
const EXAMPLES: &str = "\
Code and --args are hex, of either case; spaces, tabs and line ends are skipped. asm reads a text,
one instruction or one label (`name:`) a line, and prints its code; disasm prints such a text.
Each command reads FILE, and standard input where FILE is - or left out. No command means exec.
world, explore and run read a script (docs/SCRIPTS.md); its faults name their step. explore
runs it under each seed as the order of its deliveries. run has requests and timeouts alone, and its replicas are
threads. check runs each NAME.toml of a folder and each row of its NAME.rows, and says where one prints something else.

Examples:
  echo 'b700000007000000 9500000000000000' | bpf_host exec
  echo 'bf20000000000000 9500000000000000' | bpf_host exec --args '0a 0b' --client 100
  bpf_host exec examples/procedures/counter.hex --numbers '7 5' --dump
  bpf_host verify code.hex
  bpf_host exec code.o --object
  echo '7110000000000000 9500000000000000' | bpf_host verify --explain
  printf 'mov64 r0, 7\\nexit\\n' | bpf_host asm
  echo 'b700000007000000 9500000000000000' | bpf_host disasm
  bpf_host world script.toml
  bpf_host world script.toml --trace
  bpf_host explore script.toml --seeds 0..1000 --workers 4
  bpf_host world script.toml --seed 3 --trace
  bpf_host run requests.toml
  bpf_host check crates/bpf_host/data

Status: 0 done, 1 refused, 2 a fault of the command line, 3 out of memory, 4 a read or write failed";

/// A script to begin with, for the help of `world`.
const FIRST_SCRIPT: &str = r#"A script to begin with: bpf_host world FILE runs it.

f = 1
k = 8
secret = "0000000000000000000000000000000000000000000000000000000000000000"

[[client]]
id = 100
tenant = 1

[[step]]
do = "request"
client = 100
install = "b7000000070000009500000000000000"

[[step]]
do = "deliver""#;

/// What the help of `world` ends with: the keys of scripts, and a script.
pub(crate) fn world_help(alloc: Global) -> Result<String, AllocError> {
    let keys = keys_help(alloc)?;
    format!(in alloc; "{keys}\n\n{FIRST_SCRIPT}")
}

/// The commands and their options; the help of `world` ends with this text.
pub(crate) fn command_line<'a>(alloc: Global, ending: &'a str) -> Result<Command<'a>, AllocError> {
    Command::new(alloc, "bpf_host")
        .about("Runs BPF procedures, alone or on replicas")
        .version(VERSION)
        .after_help(EXAMPLES)
        .subcommand(asm_command(alloc)?)?
        .subcommand(disasm_command(alloc)?)?
        .subcommand(verify_command(alloc)?)?
        .subcommand(exec_command(alloc)?)?
        .subcommand(check_command(alloc)?)?
        .subcommand(world_command(alloc, ending)?)?
        .subcommand(explore_command(alloc)?)?
        .subcommand(run_command(alloc)?)
}

/// The file that a command reads.
pub(crate) fn file_argument<'a>(alloc: Global, help: &'a str) -> Arg<'a> {
    Arg::new(alloc, "file").value_name("FILE").help(help)
}

/// The file that the options name, where that isn't standard input.
pub(crate) fn file_of<'a>(options: &ArgMatches<'a>) -> Option<&'a str> {
    match options.get_str("file") {
        Some(STANDARD_INPUT) => None,
        file => file,
    }
}

/// `asm` and its file.
fn asm_command<'a>(alloc: Global) -> Result<Command<'a>, AllocError> {
    Command::new(alloc, "asm")
        .about("Reads an assembler text and prints its code")
        .arg(file_argument(alloc, "the text [default: standard input]"))
}

/// `disasm`, its file and its options.
fn disasm_command<'a>(alloc: Global) -> Result<Command<'a>, AllocError> {
    Command::new(alloc, "disasm")
        .about("Prints the assembler text of code")
        .arg(code_argument(alloc))?
        .arg(raw_option(alloc))?
        .arg(object_option(alloc)?)
}

/// `run`, its file and its options.
fn run_command<'a>(alloc: Global) -> Result<Command<'a>, AllocError> {
    Command::new(alloc, "run")
        .about("Runs a script of requests and timeouts on replicas in threads")
        .arg(file_argument(alloc, "the script [default: standard input]"))?
        .arg(explain_option(alloc).conflicts_with("json")?)?
        .arg(json_option(alloc))
}

/// `verify`, its file and its options.
fn verify_command<'a>(alloc: Global) -> Result<Command<'a>, AllocError> {
    let explain = Arg::new(alloc, "explain")
        .long("explain")
        .action(ArgAction::SetTrue)
        .conflicts_with("json")?
        .help("also what is known before each instruction, and why code is refused");
    Command::new(alloc, "verify")
        .about("Verifies code and prints the verdict")
        .arg(code_argument(alloc))?
        .arg(raw_option(alloc))?
        .arg(object_option(alloc)?)?
        .arg(profile_option(alloc))?
        .arg(explain)?
        .arg(json_option(alloc))
}

/// The file with code.
fn code_argument<'a>(alloc: Global) -> Arg<'a> {
    file_argument(alloc, "the code [default: standard input]")
}

/// The option by which code is read as it is.
fn raw_option<'a>(alloc: Global) -> Arg<'a> {
    Arg::new(alloc, "raw")
        .long("raw")
        .action(ArgAction::SetTrue)
        .help("the input is the code's bytes, not hex")
}

/// The option by which the code of an ELF object is read.
fn object_option<'a>(alloc: Global) -> Result<Arg<'a>, AllocError> {
    Arg::new(alloc, "object")
        .long("object")
        .action(ArgAction::SetTrue)
        .help("the input is an ELF object, and the code its section .text")
        .conflicts_with("raw")
}

/// How the options say that code stands in the input.
pub(crate) fn form_of(options: &ArgMatches<'_>) -> CodeForm {
    if options.get_flag("raw") {
        CodeForm::Raw
    } else if options.get_flag("object") {
        CodeForm::Object
    } else {
        CodeForm::Hex
    }
}

/// The option by which objects of JSON are printed.
pub(crate) fn json_option<'a>(alloc: Global) -> Arg<'a> {
    Arg::new(alloc, "json")
        .long("json")
        .action(ArgAction::SetTrue)
        .help("prints an object of JSON a line")
}

/// How the options say that is written.
pub(crate) fn format_of(options: &ArgMatches<'_>) -> Format {
    if options.get_flag("json") {
        Format::Json
    } else {
        Format::Words
    }
}

/// The option that names the verifier's profile.
fn profile_option<'a>(alloc: Global) -> Arg<'a> {
    Arg::new(alloc, "profile")
        .long("profile")
        .value_name("N")
        .value_parser(["1", "2"].as_slice())
        .help("1: registers are followed; 2: words of the stack too [default: 1]")
}

/// The verifier's profile that the options name.
pub(crate) fn profile_of(options: &ArgMatches<'_>) -> Profile {
    match options.get_str("profile") {
        Some("2") => Profile::Two,
        _ => Profile::One,
    }
}

/// `exec`, its file and its options.
fn exec_command<'a>(alloc: Global) -> Result<Command<'a>, AllocError> {
    let client = Arg::new(alloc, "client")
        .long("client")
        .value_name("N")
        .value_parser(value_parser!(u32))
        .help("the client that calls [default: 16]");
    let map = Arg::new(alloc, "map").long("map").value_name("FILE").help(
        "the map at first: a line `entry KEY VALUE` for each entry [default: an empty map]",
    );
    let dump = Arg::new(alloc, "dump")
        .long("dump")
        .action(ArgAction::SetTrue)
        .help("also the map's entries behind the last call, as --map reads them");
    Command::new(alloc, "exec")
        .about("Verifies code and runs it over a map")
        .arg(code_argument(alloc))?
        .arg(raw_option(alloc))?
        .arg(object_option(alloc)?)?
        .arg(profile_option(alloc))?
        .arg(args_option(alloc)?)?
        .arg(numbers_option(alloc)?)?
        .arg(calls_option(alloc))?
        .arg(client)?
        .arg(map)?
        .arg(dump)?
        .arg(json_option(alloc))
}

/// The option with a call's argument bytes.
fn args_option<'a>(alloc: Global) -> Result<Arg<'a>, AllocError> {
    Arg::new(alloc, "args")
        .long("args")
        .value_name("HEX")
        .help("the argument bytes of the call as hex, at most 256")
        .conflicts_with("numbers")?
        .conflicts_with("calls")
}

/// The option with a call's arguments as numbers.
fn numbers_option<'a>(alloc: Global) -> Result<Arg<'a>, AllocError> {
    Arg::new(alloc, "numbers")
        .long("numbers")
        .value_name("NUMBERS")
        .allow_hyphen_values(true)
        .help("the arguments as decimal numbers, 8 bytes each, the least first")
        .conflicts_with("calls")
}

/// The option that names a text of calls.
fn calls_option<'a>(alloc: Global) -> Arg<'a> {
    Arg::new(alloc, "calls")
        .long("calls")
        .value_name("FILE")
        .help("calls over one map: a line of argument bytes for each, `@N` before them the client")
}

/// `check` and its folder.
fn check_command<'a>(alloc: Global) -> Result<Command<'a>, AllocError> {
    let folder = Arg::new(alloc, "folder")
        .value_name("FOLDER")
        .required(true)
        .help("the folder with the runs");
    Command::new(alloc, "check")
        .about("Runs the scripts and rows of a folder and compares what they print")
        .arg(folder)?
        .arg(json_option(alloc))
}

/// A number of workers.
pub(crate) fn workers_parser<'a>() -> ValueParser<'a> {
    ValueParser::unsigned(1, 255)
}
