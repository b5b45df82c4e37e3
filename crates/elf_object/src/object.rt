//! The code of an object.

ghost use Rattle.std.specs.Prelude.{◌≡◌, ◌<◌, IfSome, MatchResult, Ok, Err, count_by, length};
ghost use Rattle.std.specs.List.{list_any, position};
ghost use Rattle.elf_object.specs.Section.{is_text, relocates_by};
ghost use Rattle.elf_object.specs.Object.{code_of, section_names, section_table, text_of, text_section};

use crate::fault::ObjectFault;
use crate::fields::part;
use crate::header::Header;
use crate::section::{ENTRY_SIZE, SHT_PROGBITS, SHT_STRTAB, Section};

/// From this number on a header doesn't count sections (SHN_LORESERVE).
const UNCOUNTED: u16 = 0xff00;

/// An entry of the table of sections.
type Entry = [u8; ENTRY_SIZE];

/// The code of an ELF object for BPF: the bytes of its section `.text`, which begin with the procedure. The error is the first
/// fault in the order of `ObjectFault`.
pub fn text_of(file: &[u8]) -> Result<&[u8], ObjectFault>
    ensures { MatchResult result (λ code. text_of file.now ≡ Ok code.now) (λ fault. text_of file.now ≡ Err fault) }
{
    let header = Header::read(file)?;
    let table = section_table(file, header)?;
    let names = section_names(file, header, table)?;
    let (index, text) = text_section(names, table)?;
    code_of(file, table, index, text)
}

/// The table of sections, an entry for each.
fn section_table(file: &[u8], header: Header) -> Result<&[Entry], ObjectFault>
    ensures { MatchResult result
        (λ table. section_table file.now header ≡ Ok table.now)
        (λ fault. section_table file.now header ≡ Err fault) }
{
    if header.entry_size as usize != ENTRY_SIZE || header.count == 0 || header.count >= UNCOUNTED {
        return Err(ObjectFault::BadTable);
    }
    match part(file, header.table, 64 * u64::from(header.count)) {
        Some(bytes) => Ok(bytes.as_chunks::<ENTRY_SIZE>().0),
        None => Err(ObjectFault::BadTable),
    }
}

/// The names of sections, each with a byte 0 behind it.
fn section_names<'a>(
    file: &'a [u8],
    header: Header,
    table: &[Entry],
) -> Result<&'a [u8], ObjectFault>
    ensures { MatchResult result
        (λ names. section_names file.now header table.now ≡ Ok names.now)
        (λ fault. section_names file.now header table.now ≡ Err fault) }
{
    let Some(entry) = table.get(header.names as usize) else {
        return Err(ObjectFault::BadNames);
    };
    let section = Section::of(entry);
    if section.kind != SHT_STRTAB {
        return Err(ObjectFault::BadNames);
    }
    match part(file, section.offset, section.size) {
        Some(names) => Ok(names),
        None => Err(ObjectFault::BadNames),
    }
}

/// The one section that is named `.text`, and its index.
fn text_section(names: &[u8], table: &[Entry]) -> Result<(usize, Section), ObjectFault>
    ensures { result ≡ text_section names.now table.now }
{
    if count_texts(names, table) > 1 {
        return Err(ObjectFault::TextTwice);
    }
    match first_text(names, table) {
        Some(index) => Ok((index, Section::of(&table[index]))),
        None => Err(ObjectFault::NoText),
    }
}

/// How many sections are named `.text`.
fn count_texts(names: &[u8], table: &[Entry]) -> usize
    ensures { result ≡ count_by (is_text names.now) table.now }
{
    table.iter().filter(|entry| is_text(names, entry)).count()
}

/// The index of the first section that is named `.text`.
fn first_text(names: &[u8], table: &[Entry]) -> Option<usize>
    ensures found { result ≡ position (is_text names.now) table.now }
    ensures within { IfSome result (λ index. index < length table.now) }
{
    table.iter().position(|entry| is_text(names, entry))
}

/// Whether an entry is that of a section named `.text`.
fn is_text(names: &[u8], entry: &Entry) -> bool
    ensures { result ≡ is_text names.now entry.now }
{
    Section::of(entry).is_named_text(names)
}

/// Whether relocations apply to the section of an index.
fn is_relocated(table: &[Entry], index: usize) -> bool
    ensures { result ≡ list_any (relocates_by index) table.now }
{
    table.iter().any(|entry| relocates(entry, index))
}

/// Whether an entry is that of relocations for the section of an index.
fn relocates(entry: &Entry, index: usize) -> bool
    ensures { result ≡ relocates_by index entry.now }
{
    Section::of(entry).relocates(index)
}

/// The bytes of the section `.text`, to which no relocation may apply.
fn code_of<'a>(
    file: &'a [u8],
    table: &[Entry],
    index: usize,
    text: Section,
) -> Result<&'a [u8], ObjectFault>
    ensures { MatchResult result
        (λ code. code_of file.now table.now index text ≡ Ok code.now)
        (λ fault. code_of file.now table.now index text ≡ Err fault) }
{
    if text.kind != SHT_PROGBITS {
        return Err(ObjectFault::NotProgbits);
    }
    let Some(code) = part(file, text.offset, text.size) else {
        return Err(ObjectFault::TextOutside);
    };
    if is_relocated(table, index) {
        return Err(ObjectFault::Relocated);
    }
    Ok(code)
}
