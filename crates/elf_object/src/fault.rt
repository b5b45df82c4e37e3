//! Why an object isn't taken.

ghost use Rattle.std.specs.Prelude.{◌≡◌};

use thiserror::Error;

/// Why an ELF object isn't taken. Of several faults the first in this order is reported.
#[derive(Clone, Copy, Debug, PartialEq, Eq, Error)]
pub enum ObjectFault {
    /// The file doesn't begin with the four bytes of an ELF file.
    #[error("NotElf")]
    NotElf = 1,
    /// The file ends within the ELF header, which has 64 bytes.
    #[error("CutShort")]
    CutShort = 2,
    /// The class isn't ELFCLASS64.
    #[error("Not64Bit")]
    Not64Bit = 3,
    /// The data isn't ELFDATA2LSB.
    #[error("NotLittleEndian")]
    NotLittleEndian = 4,
    /// The type isn't ET_REL: the file is linked already, or no object.
    #[error("NotRelocatable")]
    NotRelocatable = 5,
    /// The machine isn't EM_BPF.
    #[error("NotForBpf")]
    NotForBpf = 6,
    /// The table of sections doesn't lie in the file, has entries of another size than 64, or none, or so many that the
    /// header doesn't count them.
    #[error("BadTable")]
    BadTable = 7,
    /// The header names no section of strings that lies in the file, for the names of sections.
    #[error("BadNames")]
    BadNames = 8,
    /// More than one section is named `.text`.
    #[error("TextTwice")]
    TextTwice = 9,
    /// No section is named `.text`.
    #[error("NoText")]
    NoText = 10,
    /// `.text` isn't of the type SHT_PROGBITS.
    #[error("NotProgbits")]
    NotProgbits = 11,
    /// The bytes of `.text` don't lie in the file.
    #[error("TextOutside")]
    TextOutside = 12,
    /// Relocations apply to `.text`.
    #[error("Relocated")]
    Relocated = 13,
}

impl ObjectFault {
    ghost use Rattle.elf_object.specs.Faults.{number_of};

    /// The fault's number.
    pub fn number(&self) -> u8
        ensures { result ≡ number_of self.now }
    {
        *self as u8
    }
}
