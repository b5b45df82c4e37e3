//! Scripts for running replicas: what each may say, and which of several faults is reported.

use host_script::{ScriptFault, read_thread_script};
use std::alloc::Global;
use std::test::Fail;

/// What stands ahead of a row's lines, where the row doesn't begin with a head of its own.
const HEAD: &str =
    "f = 1\nk = 8\nclient = [{ id = 100, tenant = 1 }]\nsecret = \"0000000000000000000000000000000000000000000000000000000000000000\"\n";

/// A script's lines, with `/` for a line's end, and what is read: `ok`, or a fault's number and step.
const ROWS: &str = "\
step = []|ok
faulty = []|ok
faulty = [0]|3 0
faulty = [0]/x = 1|3 0
faulty = [9]|3 0
faulty = 0|3 0
faulty = []/x = 1|4 0
step = [{ do = 'request', client = 100, call = 0 }]|ok
step = [{ do = 'timeout', at = [0, 1] }]|ok
step = [{ do = 'request', client = 100, call = 0, to = [0] }]|3 1
step = [{ do = 'request', client = 100, call = 0, to = [] }]|3 1
step = [{ do = 'request', call = 0, to = [0] }]|2 1
step = [{ do = 'request', client = 100, call = 0, to = [0], x = 1 }]|3 1
step = [{ do = 'request', client = 100, call = 0, x = 1 }]|4 1
step = [{ do = 'timeout' }]|2 1
step = [{ do = 'timeout', at = [4] }]|3 1
step = [{ at = 0 }]|2 1
step = [{ do = 'deliver' }]|3 1
step = [{ do = 'show' }]|3 1
step = [{ do = 'state' }]|3 1
step = [{ do = 'state', x = 1 }]|3 1
step = [{ do = 'expect', lines = [] }]|3 1
step = [{ do = 'audit' }]|3 1
step = [{ do = 'queue' }]|3 1
step = [{ do = 'request', client = 100, asm = 'exit' }]|ok
step = [{ do = 'request', client = 100, asm = 'jump' }]|3 1
step = [{ do = 'request', client = 100, asm = 'exit', to = [0] }]|3 1
step = [{ do = 'timeout', at = [0] }, { do = 'raw' }]|3 2
step = [{ do = 'show' }, { do = 'timeout' }]|3 1
faulty = [0]/step = [{ do = 'show' }]|3 0
f = 1/k = 8/faulty = [0]|2 0
f = 4/k = 8/secret = '0000000000000000000000000000000000000000000000000000000000000000'/faulty = [0]|3 0
f = 4/k = 8/secret = '0000000000000000000000000000000000000000000000000000000000000000'|5 0
=|1 0
";

// The text of a row's lines.
fn text_of(alloc: Global, lines: &str) -> Result<String, Fail> {
    let mut text = String::new(alloc);
    if !lines.starts_with("f = ") && !lines.starts_with("=") {
        text.push_str(HEAD)?;
    }
    for line in lines.split('/') {
        text.push_str(line)?;
        text.push_str("\n")?;
    }
    Ok(text)
}

// What reading a text comes to, as a row has it.
fn said(alloc: Global, text: &str) -> Result<String, Fail> {
    match read_thread_script(alloc, text.as_bytes()) {
        Ok(_) => Ok(format!(in alloc; "ok")?),
        Err(ScriptFault { kind, step }) => {
            let number = kind.number();
            Ok(format!(in alloc; "{number} {step}")?)
        }
    }
}

#[test]
fn texts_of_running_replicas(rt: HostRuntime) -> Result<(), Fail> {
    let alloc = rt.alloc();
    for row in ROWS.lines() {
        let Some((lines, wanted)) = row.split_once('|') else {
            return Err(Fail::new("a row without an answer"));
        };
        let text = text_of(alloc, lines)?;
        if said(alloc, text.as_str())?.as_str() != wanted {
            return Err(Fail::new(row));
        }
    }
    Ok(())
}
