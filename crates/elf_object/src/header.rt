//! The ELF header.

ghost use Rattle.std.specs.Prelude.{◌≡◌, ◌≤◌, length};
ghost use Rattle.elf_object.specs.Header.{elf_header, header_of, is_elf, suited};

use crate::fault::ObjectFault;
use crate::fields::field;

/// With what an ELF file begins.
const MAGIC: &[u8] = b"\x7fELF";

/// The bytes of an ELF header.
const HEADER_SIZE: usize = 64;

/// The class of files with 64 bits.
const ELFCLASS64: u8 = 2;

/// The data of files whose numbers have the least byte first.
const ELFDATA2LSB: u8 = 1;

/// The type of objects that a compiler writes.
const ET_REL: u16 = 1;

/// The machine BPF.
const EM_BPF: u16 = 247;

/// What is looked at of an ELF header.
#[derive(Clone, Copy, Debug)]
pub(crate) struct Header {
    /// `e_ident[EI_CLASS]`: of how many bits the file is.
    pub class: u8,
    /// `e_ident[EI_DATA]`: in which order a number's bytes stand.
    pub encoding: u8,
    /// `e_type`: what the file is for.
    pub kind: u16,
    /// `e_machine`: for which machine its code is.
    pub machine: u16,
    /// `e_shoff`: where the table of sections stands.
    pub table: u64,
    /// `e_shentsize`: the bytes of an entry of it.
    pub entry_size: u16,
    /// `e_shnum`: how many entries it has.
    pub count: u16,
    /// `e_shstrndx`: the index of the section with the names of sections.
    pub names: u16,
}

impl Header {
    /// The header of a file for BPF, or why it is none.
    pub(crate) fn read(file: &[u8]) -> Result<Header, ObjectFault>
        ensures { result ≡ elf_header file.now }
    {
        if !is_elf(file) {
            return Err(ObjectFault::NotElf);
        }
        if file.len() < HEADER_SIZE {
            return Err(ObjectFault::CutShort);
        }
        Header::of(file).suited()
    }

    /// The fields, where they stand.
    fn of(file: &[u8]) -> Header
        requires { 64 ≤ length file.now }
        ensures { result ≡ header_of file.now }
    {
        Header {
            class: file[4],
            encoding: file[5],
            kind: u16::from_le_bytes(field::<2>(file, 16)),
            machine: u16::from_le_bytes(field::<2>(file, 18)),
            table: u64::from_le_bytes(field::<8>(file, 40)),
            entry_size: u16::from_le_bytes(field::<2>(file, 58)),
            count: u16::from_le_bytes(field::<2>(file, 60)),
            names: u16::from_le_bytes(field::<2>(file, 62)),
        }
    }

    /// The header again, where it is that of an object for BPF.
    fn suited(self) -> Result<Header, ObjectFault>
        ensures { result ≡ suited self }
    {
        if self.class != ELFCLASS64 {
            Err(ObjectFault::Not64Bit)
        } else if self.encoding != ELFDATA2LSB {
            Err(ObjectFault::NotLittleEndian)
        } else if self.kind != ET_REL {
            Err(ObjectFault::NotRelocatable)
        } else if self.machine != EM_BPF {
            Err(ObjectFault::NotForBpf)
        } else {
            Ok(self)
        }
    }
}

/// Whether a file begins as every ELF file does.
pub fn is_elf(file: &[u8]) -> bool
    ensures { result ≡ is_elf file.now }
{
    file.starts_with(MAGIC)
}
