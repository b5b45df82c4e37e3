//! What to do where an ELF object isn't taken, or is given as something else.

use crate::failure::CodeFailure;
use crate::input::{CodeForm, without_blanks};
use elf_object::{ObjectFault, is_elf};
use std::alloc::{AllocError, Global};

/// The hex digits with which an ELF file begins.
const MAGIC_DIGITS: &[u8] = b"7f454c46";

/// Whether an input that is no code, or whose code is refused, is an ELF file that isn't read as one.
pub(crate) fn is_object_elsewhere(
    alloc: Global,
    form: CodeForm,
    input: &[u8],
    failure: &CodeFailure,
) -> Result<bool, AllocError> {
    match (form, failure) {
        (CodeForm::Object, _) => Ok(false),
        (
            _,
            CodeFailure::NotHex
            | CodeFailure::Refused(_)
            | CodeFailure::Explained(_)
            | CodeFailure::NoCode(_),
        ) => Ok(is_elf(input) || is_elf_as_hex(alloc, input)?),
        _ => Ok(false),
    }
}

/// Whether an input begins with the hex of the bytes with which an ELF file begins.
fn is_elf_as_hex(alloc: Global, input: &[u8]) -> Result<bool, AllocError> {
    let digits = without_blanks(alloc, input)?;
    Ok(match digits.get(..MAGIC_DIGITS.len()) {
        Some(first) => first.eq_ignore_ascii_case(MAGIC_DIGITS),
        None => false,
    })
}

/// What an object lacks, and what to do.
pub(crate) fn object_sentence(
    alloc: Global,
    input: &[u8],
    fault: ObjectFault,
) -> Result<&'static str, AllocError> {
    Ok(match fault {
        ObjectFault::NotElf if is_elf_as_hex(alloc, input)? => {
            "--object takes the bytes of an object, and the input is the hex of one"
        }
        ObjectFault::NotElf => {
            "the input doesn't begin with the bytes 7f 45 4c 46, as an ELF file does; code that is hex needs no --object"
        }
        ObjectFault::CutShort => "the file ends within its ELF header, which has 64 bytes",
        ObjectFault::Not64Bit => {
            "the file is not of 64 bits; clang --target=bpfel -c makes an object that is"
        }
        ObjectFault::NotLittleEndian => {
            "the file has the greatest byte of a number first; clang --target=bpfel -c makes an object with the least first"
        }
        ObjectFault::NotRelocatable => {
            "the file is no object that a compiler writes, or is linked already; clang --target=bpfel -c makes an object"
        }
        ObjectFault::NotForBpf => {
            "the object is for another machine; clang --target=bpfel -c makes one for BPF"
        }
        ObjectFault::BadTable => "the table of sections is damaged, or the file is cut short",
        ObjectFault::BadNames => {
            "the names of the sections are damaged, or the file is cut short"
        }
        ObjectFault::TextTwice => "more than one section is named .text",
        ObjectFault::NoText => {
            "no section is named .text; a function stands there where no attribute names another section"
        }
        ObjectFault::NotProgbits => "the section .text has no bytes in the file",
        ObjectFault::TextOutside => "the section .text is damaged, or the file is cut short",
        ObjectFault::Relocated => {
            "the code calls or names something that a linker would have to fill in; helpers by number, static functions, the stack, the arguments and the map need none"
        }
    })
}
