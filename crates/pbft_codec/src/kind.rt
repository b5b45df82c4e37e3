//! The kinds of bodies and their bytes.

ghost use Rattle.std.specs.Prelude.{◌≡◌};
ghost use Rattle.pbft_codec.specs.Kinds.{kind_byte, kind_of};

/// The kind of a body.
#[derive(Clone, Copy, Debug, PartialEq, Eq)]
pub enum Kind {
    Request,
    PrePrepare,
    Prepare,
    Commit,
    Reply,
    Checkpoint,
    ViewChange,
    NewView,
    Fetch,
    Snapshot,
}

impl Kind {
    /// The kind of a byte, or none.
    #[tactic(auto, unfolding(crate::specs::Kinds::kind_of))]
    pub fn of(byte: u8) -> Option<Kind>
        ensures { result ≡ kind_of byte }
    {
        Some(match byte {
            0x01 => Kind::Request,
            0x02 => Kind::PrePrepare,
            0x03 => Kind::Prepare,
            0x04 => Kind::Commit,
            0x05 => Kind::Reply,
            0x06 => Kind::Checkpoint,
            0x07 => Kind::ViewChange,
            0x08 => Kind::NewView,
            0x09 => Kind::Fetch,
            0x0a => Kind::Snapshot,
            _ => return None,
        })
    }

    /// Its byte.
    pub fn byte(self) -> u8
        ensures { result ≡ kind_byte self }
    {
        match self {
            Kind::Request => 0x01,
            Kind::PrePrepare => 0x02,
            Kind::Prepare => 0x03,
            Kind::Commit => 0x04,
            Kind::Reply => 0x05,
            Kind::Checkpoint => 0x06,
            Kind::ViewChange => 0x07,
            Kind::NewView => 0x08,
            Kind::Fetch => 0x09,
            Kind::Snapshot => 0x0a,
        }
    }
}
