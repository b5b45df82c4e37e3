//! The bytes of a script.

ghost use Rattle.world_script.specs.Running.{ReadsAll};

use script_text::{MAX_SCRIPT, ScriptKind};
use std::alloc::Global;
use std::io::Read;

/// How many bytes are asked for at a time.
const CHUNK: usize = 4096;

/// Reads to the end: `TooLong` where there are more bytes than a script has, `Read` where a read fails,
/// `Memory` where memory runs out.
pub fn read_input<I: Read>(alloc: Global, reader: &mut I) -> Result<Vec<u8>, ScriptKind>
    ensures { ReadsAll (I.remaining reader.old) result }
{
    let mut input = Vec::new(alloc);
    let mut chunk = [0; CHUNK];
    for _ in 0..=MAX_SCRIPT {
        let Ok(count) = reader.read(&mut chunk) else {
            return Err(ScriptKind::Read);
        };
        if count == 0 {
            return Ok(input);
        }
        if input.extend_from_slice(&chunk[..count]).is_err() {
            return Err(ScriptKind::Memory);
        }
        if input.len() > MAX_SCRIPT {
            break;
        }
    }
    Err(ScriptKind::TooLong)
}
