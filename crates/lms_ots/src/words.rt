//! Hashes as words, in which chains are run on, and as bytes.

ghost use Rattle.std.specs.Prelude.{◌≡◌, ◌+◌, ◌≤◌, length};
ghost use Rattle.lms_ots.specs.Words.{bytes_of};
ghost use Rattle.sha2.specs.Sha256.{word_at};

/// The number in the four bytes from offset `at` on, the high one first.
#[inline(always)]
pub(crate) fn word_at(bytes: &[u8], at: usize) -> u32
    requires { at + 4 ≤ length bytes.now }
    ensures { result ≡ word_at bytes.now at }
{
    u32::from_be_bytes([bytes[at], bytes[at + 1], bytes[at + 2], bytes[at + 3]])
}

/// The words of a hash.
pub(crate) fn words_of(bytes: &[u8; 32]) -> [u32; 8]
    ensures { bytes_of result ≡ bytes.now }
{
    [
        word_at(bytes, 0),
        word_at(bytes, 4),
        word_at(bytes, 8),
        word_at(bytes, 12),
        word_at(bytes, 16),
        word_at(bytes, 20),
        word_at(bytes, 24),
        word_at(bytes, 28),
    ]
}

/// The bytes of a hash.
pub(crate) fn bytes_of(words: &[u32; 8]) -> [u8; 32]
    ensures { result ≡ bytes_of words.now }
{
    let mut bytes = [0u8; 32];
    'words: for i in 0..8 {
        bytes[4 * i..4 * i + 4].copy_from_slice(&words[i].to_be_bytes());
    }
    bytes
}
