//! Files that a script names, by its reader alone.

use host_types::Bytes;
use script_text::{
    Dialect, FileName, NamedFile, files_named_in, read_script, read_script_with, read_thread_script,
};
use std::alloc::Global;
use std::test::Fail;

/// A script whose first request installs the code of a file.
const SCRIPT: &str = "\
f = 1
k = 8
secret = \"0000000000000000000000000000000000000000000000000000000000000000\"
client = [{ id = 100, tenant = 1 }]
step = [{ do = \"request\", client = 100, file = \"blanks.hex\" }]
";

/// The number of the fault of the script with a file of so many blanks, 0 if it is one.
fn fault_with(alloc: Global, dialect: Dialect, blanks: usize) -> Result<u8, Fail> {
    let files = vec![in alloc;
        NamedFile {
            name: FileName::new(alloc, "blanks.hex")?,
            bytes: Bytes::from_vec(vec![in alloc; b' '; blanks]?),
        },
    ]?;
    match read_script_with(alloc, dialect, &files, SCRIPT.as_bytes()) {
        Ok(_) => Ok(0),
        Err(fault) => Ok(fault.kind.number()),
    }
}

#[test]
fn a_file_that_is_too_long(rt: HostRuntime) -> Result<(), Fail> {
    for (blanks, wanted) in [(0, 0), (1_048_576, 0), (1_048_577, 3)] {
        let found = fault_with(rt.alloc(), Dialect::World, blanks)?;
        assert!(rt; found == wanted, "{blanks}");
    }
    assert!(rt; fault_with(rt.alloc(), Dialect::Threads, 1_048_577)? == 3);
    Ok(())
}

/// A text alone is no script where it names a file.
#[test]
fn a_text_alone_has_no_files(rt: HostRuntime) {
    let world = read_script(rt.alloc(), SCRIPT.as_bytes()).err();
    let threads = read_thread_script(rt.alloc(), SCRIPT.as_bytes()).err();
    for fault in [world, threads] {
        let found = fault.map_or((0, 0), |fault| (fault.kind.number(), fault.step));
        assert!(rt; found == (3, 1));
    }
}

/// Texts, and the files that they name, with their steps; most are no scripts.
const USES: &str = "\
|
=|
step = 1|
step = []|
step = [{ do = 'request', file = 'a.hex' }]|1 a.hex;
step = [1, { do = 'request', file = 'a.hex' }]|2 a.hex;
step = [{ file = 'a.hex' }, { do = 'show', file = 'b.hex' }, { do = 'request', call = 0, file = 'c.asm' }]|3 c.asm;
step = [{ do = 'request', file = 'a.hex' }, { do = 'request' }, { do = 'request', file = 'a.hex' }]|1 a.hex;3 a.hex;
step = [{ do = 'request', file = 'a/b.hex' }, { do = 'request', file = 'a.bin' }, { do = 'request', file = 7 }]|
step = [{ do = 'request', file = '.asm' }, { do = 'request', file = 'hex' }, { do = 'request', file = '..hex' }]|1 .asm;3 ..hex;
";

/// The files that a text names, as a row has them.
fn uses_of(alloc: Global, text: &str) -> Result<String, Fail> {
    let mut uses = String::new(alloc);
    for used in files_named_in(alloc, text.as_bytes())? {
        let step = used.step;
        let name = used.name.as_str();
        write!(uses, "{step} {name};")?;
    }
    Ok(uses)
}

#[test]
fn files_that_texts_name(rt: HostRuntime) -> Result<(), Fail> {
    for row in USES.lines() {
        let (text, wanted) = row.split_once('|').ok_or("half a row")?;
        let found = uses_of(rt.alloc(), text)?;
        assert!(rt; found.as_str() == wanted, "{row}");
    }
    Ok(())
}
