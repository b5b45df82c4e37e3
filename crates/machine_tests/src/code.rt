//! Which bytes are opcodes, what a reader of instructions is given, and the fault that no row shows.

use bpf_decode::{decode_all, encode_all, read_into};
use bpf_verifier::VerifyFault;
use hex::decode;
use std::alloc::Global;
use std::test::Fail;

/// Every opcode of one slot that needs no other field, ascending.
const OPCODES: &str = "\
040506070c0f141516171c1d1e1f242526272c2d2e2f343536373c3d3e3f444546474c4d4e4f\
545556575c5d5e5f61626364656667696a6b6c6d6e6f71727374757677797a7b7c7d7e7f8184\
858789919495979c9fa4a5a6a7acadaeafb4b5b6b7bcbdbebfc4c5c6c7cccdcecfd5d6ddde";

/// Whether the slot that begins with this byte and has zeros behind it is code that is written again as it
/// was.
fn is_code(alloc: Global, opcode: u8) -> Result<bool, Fail> {
    let slot = [opcode, 0, 0, 0, 0, 0, 0, 0];
    match decode_all(alloc, &slot) {
        Ok(code) => Ok(encode_all(alloc, &code)?.as_slice() == slot.as_slice()),
        Err(_) => Ok(false),
    }
}

#[test]
fn opcodes(rt: HostRuntime) -> Result<(), Fail> {
    let known = decode(rt.alloc(), OPCODES)?;
    for byte in 0..=255u8 {
        let found = is_code(rt.alloc(), byte)?;
        assert!(rt; found == known.as_slice().contains(&byte), "opcode {byte}");
    }
    Ok(())
}

/// Slots, and the code that a list takes of them, in hex: all of what is code, what stands before the first
/// fault, and nothing of what is no code by its length.
const TAKEN: &str = "\
18010000efcdab890000000067452301 9500000000000000 9500000000000000 => 18010000efcdab890000000067452301 9500000000000000 9500000000000000\n\
18010000efcdab890000000067452301 9500000000000000 ff00000000000000 9500000000000000 => 18010000efcdab890000000067452301 9500000000000000 refused 4 at 3\n\
95000000000000 => refused 2 at 0\n\
";

/// What a list takes of these bytes.
fn taken(alloc: Global, bytes: &[u8]) -> Result<String, Fail> {
    let mut code = Vec::new(alloc);
    let refusal = read_into(bytes, &mut code).err();
    let mut text = String::new(alloc);
    for insn in &code {
        let slots = encode_all(alloc, &[*insn])?;
        text.push_str(&hex::encode(alloc, slots.as_slice())?)?;
        text.push(' ')?;
    }
    if let Some(refusal) = refusal {
        let (fault, slot) = (refusal.fault.number(), refusal.slot);
        text.push_str(&format!(in alloc; "refused {fault} at {slot}")?)?;
    }
    Ok(text)
}

#[test]
fn what_a_sink_takes(rt: HostRuntime) -> Result<(), Fail> {
    for line in TAKEN.lines() {
        let (slots, wanted) = line.split_once(" => ").ok_or("no answer")?;
        let bytes = decode(rt.alloc(), &slots.replace(rt.alloc(), " ", "")?)?;
        let found = taken(rt.alloc(), &bytes)?;
        assert!(rt; found.trim_end() == wanted, "{line}");
    }
    assert!(rt; taken(rt.alloc(), &[])?.as_str() == "refused 1 at 0");
    assert!(rt; VerifyFault::Memory.number() == 21);
    Ok(())
}
