//! The heights of trees, with their typecodes and sizes.

ghost use Rattle.std.specs.Prelude.{◌≡◌, ◌+◌, ◌*◌, ◌^◌};

/// The height of a tree (RFC 8554, section 5.1).
#[derive(Clone, Copy, Debug, PartialEq, Eq)]
pub enum Height {
    /// LMS_SHA256_M32_H5: 32 signatures.
    H5,
    /// LMS_SHA256_M32_H10: 1,024 signatures.
    H10,
}

impl Height {
    ghost use Rattle.lms_level.specs.Signature.{height_of_typecode, levels_of, typecode_of};

    // The height that a typecode names.
    pub(crate) fn from_typecode(word: u32) -> Option<Height>
        ensures { result ≡ height_of_typecode word }
    {
        if word == 5 {
            Some(Height::H5)
        } else if word == 6 {
            Some(Height::H10)
        } else {
            None
        }
    }

    /// The levels above the leaves.
    pub fn levels(self) -> usize
        ensures { result ≡ levels_of self }
    {
        match self {
            Height::H5 => 5,
            Height::H10 => 10,
        }
    }

    /// The typecode.
    pub fn typecode(self) -> u32
        ensures { result ≡ typecode_of self }
    {
        match self {
            Height::H5 => 5,
            Height::H10 => 6,
        }
    }

    /// The number of leaves, each of which signs once.
    pub fn leaf_count(self) -> u32
        ensures { result ≡ 2 ^ levels_of self }
    {
        match self {
            Height::H5 => 32,
            Height::H10 => 1024,
        }
    }

    /// The length of one tree's signature in bytes.
    pub fn signature_len(self) -> usize
        ensures { result ≡ 2188 + 32 * levels_of self }
    {
        match self {
            Height::H5 => 2348,
            Height::H10 => 2508,
        }
    }
}
