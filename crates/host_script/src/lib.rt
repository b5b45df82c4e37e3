//! Scripts: of a world, whose events they say (`run_script`), and of running threads (`run_threads`).
//!
//!     let ended = run_threads(&rt, alloc, &mut reader, &mut writer)?;
#![tactic(auto)]

mod broken;
mod callers;
mod group;
mod run;
mod told;

pub use broken::{BrokenReader, BrokenWriter};
pub use group::Audited;
pub use host_client::{
    CallFault, Host, HostFault, Named, Seat, Session, SessionFault, Station, Ticker, call,
    call_or_idle, call_or_stuck,
};
pub use run::{run_threads, run_threads_read, run_threads_told, run_threads_watched};
pub use told::{InWords, Telling, Told};
pub use world_script::{
    AuditFault, Dialect, Done, FileName, FileUse, Halt, History, Input, MAX_FILE, NamedFile,
    Played, Progress, Row, Script, ScriptFault, ScriptKind, Status, Unwatched, files_named_in,
    read_input, read_script, read_script_with, read_thread_script, report, run_read, run_script,
    run_script_watched,
};
