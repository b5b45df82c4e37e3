//! Scripts of worlds whose reader or writer breaks.

use host_script::{BrokenReader, BrokenWriter, Played, ScriptFault, ScriptKind, run_script};
use std::alloc::Global;
use std::test::Fail;

/// An installation and a call.
const SCRIPT: &str = "\
f = 1
k = 8
secret = \"0000000000000000000000000000000000000000000000000000000000000000\"
client = [{ id = 100, tenant = 1 }]
step = [
  { do = \"request\", client = 100, install = \"b700000007000000 9500000000000000\" },
  { do = \"deliver\" },
  { do = \"request\", client = 100, call = 0 },
  { do = \"deliver\" },
  { do = \"show\" },
  { do = \"state\", at = 0 },
]
";

/// How the script ends with so many reads and writes before the ones that fail, and what is written.
fn ran(alloc: Global, reads: u32, writes: u32) -> (Result<Played, ScriptFault>, Vec<u8>) {
    let mut reader = BrokenReader {
        bytes: SCRIPT.as_bytes(),
        reads,
    };
    let mut writer = BrokenWriter {
        written: Vec::new(alloc),
        writes,
    };
    let ended = run_script(alloc, &mut reader, &mut writer);
    (ended, writer.written)
}

fn kind_of(ended: &Result<Played, ScriptFault>) -> Option<ScriptKind> {
    match ended {
        Ok(_) => None,
        Err(fault) => Some(fault.kind),
    }
}

// The first read gives the whole script, and the second one would give its end.
#[test]
fn a_reader_that_fails_at_its_second_read(rt: HostRuntime) {
    let (ended, written) = ran(rt.alloc(), 1, u32::MAX);
    assert!(rt; kind_of(&ended) == Some(ScriptKind::Read));
    assert!(rt; written.as_slice() == b"script fault 8 Read step 0\n".as_slice());
}

// At each of its writes, one after another, until there is none that could fail.
#[test]
fn a_writer_that_fails_at_each_of_its_writes(rt: HostRuntime) -> Result<(), Fail> {
    let (ended, whole) = ran(rt.alloc(), u32::MAX, u32::MAX);
    assert!(rt; ended.is_ok() && whole.starts_with(b"client 100 time 1 number 1".as_slice()));
    for writes in 0..1_000 {
        let (ended, written) = ran(rt.alloc(), u32::MAX, writes);
        if ended.is_ok() {
            assert!(rt; writes > 3 && written == whole);
            return Ok(());
        }
        assert!(rt; kind_of(&ended) == Some(ScriptKind::Write), "{writes}");
        assert!(rt;
            written.len() < whole.len() && whole.starts_with(&written),
            "{writes}"
        );
    }
    Err(Fail::new("writes fail without end"))
}
