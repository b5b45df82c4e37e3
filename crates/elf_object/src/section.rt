//! An entry of the table of sections.

ghost use Rattle.std.specs.Prelude.{◌≡◌};
ghost use Rattle.elf_object.specs.Section.{is_named_text, relocates, section_of};

use crate::fields::field;

/// The bytes of an entry of the table of sections.
pub(crate) const ENTRY_SIZE: usize = 64;

/// The type of sections with bytes that the program gives them.
pub(crate) const SHT_PROGBITS: u32 = 1;

/// The type of sections with strings.
pub(crate) const SHT_STRTAB: u32 = 3;

/// The type of sections with relocations that have addends.
const SHT_RELA: u32 = 4;

/// The type of sections with relocations that have none.
const SHT_REL: u32 = 9;

/// The name of the section with the code, and the byte behind each name.
const TEXT: &[u8] = b".text\0";

/// What is looked at of a section's header.
#[derive(Clone, Copy, Debug)]
pub(crate) struct Section {
    /// `sh_name`: where in the names its own begins.
    pub name: u32,
    /// `sh_type`: what it has.
    pub kind: u32,
    /// `sh_offset`: where in the file its bytes begin.
    pub offset: u64,
    /// `sh_size`: how many they are.
    pub size: u64,
    /// `sh_info`: of relocations the index of the section to which they apply.
    pub info: u32,
}

impl Section {
    /// The fields, where they stand in an entry.
    #[tactic(auto, unfolding(crate::specs::Section::section_of))]
    pub(crate) fn of(entry: &[u8; ENTRY_SIZE]) -> Section
        ensures { result ≡ section_of entry.now }
    {
        Section {
            name: u32::from_le_bytes(field::<4>(entry, 0)),
            kind: u32::from_le_bytes(field::<4>(entry, 4)),
            offset: u64::from_le_bytes(field::<8>(entry, 24)),
            size: u64::from_le_bytes(field::<8>(entry, 32)),
            info: u32::from_le_bytes(field::<4>(entry, 44)),
        }
    }

    /// Whether it is named `.text`, by these names.
    pub(crate) fn is_named_text(self, names: &[u8]) -> bool
        ensures { result ≡ is_named_text names.now self }
    {
        match names.get(self.name as usize..) {
            Some(name) => name.starts_with(TEXT),
            None => false,
        }
    }

    /// Whether it has relocations that apply to the section of this index.
    pub(crate) fn relocates(self, index: usize) -> bool
        ensures { result ≡ relocates index self }
    {
        (self.kind == SHT_REL || self.kind == SHT_RELA)
            && self.info as usize == index
            && self.size != 0
    }
}
