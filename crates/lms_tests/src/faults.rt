//! What is wrong with signatures under keys of one tree and of two levels.

use crate::cases::{Case, halves, valid_case};
use lms_tree::{SigFault, Verifier, verify};
use std::alloc::Global;
use std::test::Fail;

/// Valid cases, and those that a change damages, with the fault.
const CHANGES: &str = "\
first => -\n\
ten => -\n\
zero => -\n\
five => -\n\
rfc => -\n\
five length 2349 => Length\n\
five length 8 => Length\n\
five key 3 06 => Length\n\
five key 7 04 => WrongType\n\
ten key 3 00 => WrongType\n\
ten signature 2187 00 => WrongType\n\
five signature 0 00000020 => Leaf\n\
five signature 0 ffffffff => Leaf\n\
ten signature 0 00000001 => Mismatch\n\
five message 61 => Mismatch\n\
ten signature 2188 01 => Mismatch\n\
5/5 => -\n\
5/10 => -\n\
10/5 => -\n\
10/10 => -\n\
5/5:0 => -\n\
5/5:1023 => -\n\
5/10:1024 => -\n\
10/5:1024 => -\n\
10/10 length 0 => Length\n\
10/10 key 3 03 => WrongType\n\
10/10 signature 3 00 => WrongType\n\
10/10 length 5077 => Length\n\
10/10 length 2568 => Length\n\
10/10 length 2567 => Length\n\
10/10 signature 2567 d0 => Mismatch\n\
10/10 signature 2191 05 => WrongType\n\
10/10 signature 2511 ee => Mismatch\n\
10/10 signature 2576 e4 => Mismatch\n\
10/10 signature 2570 0400 => Leaf\n\
10/10 signature 4755 05 => WrongType\n\
10/10 signature 5075 30 => Mismatch\n\
10/5 length 4 => Length\n\
10/5 message 61 => Mismatch\n\
10/5 signature 2515 06 => Length\n\
10/5 length 2567 => Length\n\
10/5 signature 2567 5b => Mismatch\n\
10/5 signature 12 3a => Mismatch\n\
10/5 signature 11 02 => WrongType\n\
10/5 signature 2576 cd => Mismatch\n\
10/5 signature 2571 20 => Leaf\n\
10/5 signature 2575 02 => WrongType\n\
10/5 signature 4915 25 => Mismatch\n\
5/10 length 0 => Length\n\
5/10 key 3 01 => WrongType\n\
5/10 key 3 03 => WrongType\n\
5/10 signature 3 00 => WrongType\n\
5/10 signature 3 02 => WrongType\n\
5/10 signature 2360 64 => Mismatch\n\
5/10 signature 2355 05 => Length\n\
5/10 length 2407 => Length\n\
5/10 signature 7 00 => Mismatch\n\
5/10 signature 2191 06 => WrongType\n\
5/10 signature 11 02 => WrongType\n\
5/10 signature 2411 00 => Mismatch\n\
5/10 signature 2410 0400 => Leaf\n\
5/10 signature 2415 02 => WrongType\n\
5/10 signature 4915 21 => Mismatch\n\
5/10 signature 3408 2e => Mismatch\n\
5/5 key 3 03 => WrongType\n\
5/5 key 59 6e => Mismatch\n\
5/5 signature 3 02 => WrongType\n\
5/5 length 4757 => Length\n\
5/5 length 4755 => Length\n\
5/5 length 2352 => Length\n\
5/5 length 2408 => Length\n\
5/5 signature 2355 06 => Length\n\
5/5 signature 2411 20 => Leaf\n\
5/5 signature 4595 06 => WrongType\n\
";

/// Cases with two faults at once: the first in the order of the faults is answered.
const TWO_FAULTS: &str = "\
5/5 key 3 03, length 100 => WrongType\n\
5/5 key 7 07, length 100 => WrongType\n\
5/5 key 11 04, length 2407 => WrongType\n\
5/5 length 2407, signature 3 02 => Length\n\
5/5 length 2407, signature 2355 07 => Length\n\
5/5 signature 3 02, length 4757 => WrongType\n\
5/5 signature 2355 07, length 4757 => WrongType\n\
5/5 signature 2359 04, length 4755 => WrongType\n\
5/5 length 4757, signature 11 02 => Length\n\
5/5 length 4757, signature 7 20 => Length\n\
5/5 signature 11 02, signature 7 20 => WrongType\n\
5/5 signature 7 20, signature 12 24 => Leaf\n\
5/5 signature 7 20, signature 2415 02 => Leaf\n\
5/5 signature 12 24, signature 2415 02 => Mismatch\n\
5/5 signature 12 24, signature 2411 20 => Mismatch\n\
5/5 signature 2191 06, signature 2411 20 => WrongType\n\
5/5 signature 2415 02, signature 2411 20 => WrongType\n\
5/5 signature 2411 20, message 61 => Leaf\n\
";

/// What verification says of a case, changed or not: the name of the fault, or `-`.
fn verdict(alloc: Global, line: &str) -> Result<String, Fail> {
    let (name, changes) = halves(line);
    let mut case = valid_case(alloc, name)?;
    for change in changes.split(", ") {
        case.change(alloc, change)?;
    }
    match verify(&case.key, &case.message, &case.signature) {
        Ok(()) => Ok(String::from_str(alloc, "-")?),
        Err(fault) => Ok(fault.to_string(alloc)?),
    }
}

#[test]
fn valid_and_damaged_signatures(rt: HostRuntime) -> Result<(), Fail> {
    for line in CHANGES.lines() {
        let (case, wanted) = line.split_once(" => ").ok_or("no verdict")?;
        assert!(rt; verdict(rt.alloc(), case)?.as_str() == wanted, "{line}");
    }
    Ok(())
}

#[test]
fn the_first_of_two_faults(rt: HostRuntime) -> Result<(), Fail> {
    for line in TWO_FAULTS.lines() {
        let (case, wanted) = line.split_once(" => ").ok_or("no verdict")?;
        assert!(rt; verdict(rt.alloc(), case)?.as_str() == wanted, "{line}");
    }
    Ok(())
}

/// The verdict on a case's message in pieces of 7 bytes, and these more bytes behind it.
fn in_pieces(case: &Case, more: &[u8]) -> Result<(), SigFault> {
    let mut verifier = Verifier::new(&case.key, &case.signature)?;
    for piece in case.message.chunks(7) {
        verifier.update(piece);
    }
    verifier.update(more);
    verifier.finish()
}

/// Whether the case of this name is valid in pieces, and refused with a byte more.
fn is_valid_in_pieces(alloc: Global, name: &str) -> Result<bool, Fail> {
    let case = valid_case(alloc, name)?;
    let refused = in_pieces(&case, &[0]).err() == Some(SigFault::Mismatch);
    Ok(in_pieces(&case, &[]).is_ok() && refused)
}

#[test]
fn a_message_in_pieces(rt: HostRuntime) -> Result<(), Fail> {
    assert!(rt; is_valid_in_pieces(rt.alloc(), "rfc")?);
    assert!(rt; is_valid_in_pieces(rt.alloc(), "10/5")?);
    Ok(())
}
