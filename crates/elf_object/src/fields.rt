//! What stands at a place of a file.

ghost use Rattle.std.specs.Prelude.{◌≡◌, ◌+◌, ◌<◌, ◌≤◌, length, take, drop};
ghost use Rattle.std.specs.Option.{option_copied};
ghost use Rattle.elf_object.specs.Fields.{part};

/// The bytes of a field, from a place on.
pub(crate) fn field<const N: usize>(bytes: &[u8], at: usize) -> [u8; N]
    requires some { 0 < N }
    requires inside { at + N ≤ length bytes.now }
    ensures { result ≡ take N (drop at bytes.now) }
{
    let mut field = [0; N];
    field.copy_from_slice(&bytes[at..at + N]);
    field
}

/// So many bytes of a file from an offset on; none where they don't lie in it.
pub(crate) fn part(file: &[u8], offset: u64, size: u64) -> Option<&[u8]>
    ensures { option_copied result ≡ part file.now offset size }
{
    let length = file.len() as u64;
    let end = offset.checked_add(size)?;
    if end <= length {
        Some(&file[offset as usize..end as usize])
    } else {
        None
    }
}
