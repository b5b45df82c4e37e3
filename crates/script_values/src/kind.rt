//! The kinds of messages, by their names in a script.

use pbft_codec::Body;

/// A kind of message, by its name in a script.
#[derive(Clone, Copy, Debug, PartialEq, Eq)]
pub enum Kind {
    Request = 1,
    PrePrepare = 2,
    Prepare = 3,
    Commit = 4,
    Reply = 5,
    Checkpoint = 6,
    ViewChange = 7,
    NewView = 8,
    Fetch = 9,
    Snapshot = 10,
}

impl Kind {
    ghost use Rattle.std.specs.Prelude.{◌≡◌};
    ghost use Rattle.script_values.specs.Forms.{kind_named};
    ghost use Rattle.script_values.specs.Kinds.{kind_number, kind_of_body, kind_text};

    /// The kind of a body.
    pub fn of(body: &Body) -> Kind
        ensures { result ≡ kind_of_body body.now }
    {
        match body {
            Body::Request(_) => Kind::Request,
            Body::PrePrepare(_) => Kind::PrePrepare,
            Body::Prepare(_) => Kind::Prepare,
            Body::Commit(_) => Kind::Commit,
            Body::Reply(_) => Kind::Reply,
            Body::Checkpoint(_) => Kind::Checkpoint,
            Body::ViewChange(_) => Kind::ViewChange,
            Body::NewView(_) => Kind::NewView,
            Body::Fetch(_) => Kind::Fetch,
            Body::Snapshot(_) => Kind::Snapshot,
        }
    }

    /// The kind's number.
    pub fn number(self) -> u8
        ensures { result ≡ kind_number self }
    {
        self as u8
    }

    /// The kind's name in a script.
    pub fn name(self) -> &'static str
        ensures { result.now ≡ kind_text self }
    {
        match self {
            Kind::Request => "request",
            Kind::PrePrepare => "pre-prepare",
            Kind::Prepare => "prepare",
            Kind::Commit => "commit",
            Kind::Reply => "reply",
            Kind::Checkpoint => "checkpoint",
            Kind::ViewChange => "view-change",
            Kind::NewView => "new-view",
            Kind::Fetch => "fetch",
            Kind::Snapshot => "snapshot",
        }
    }

    /// The kind of this name.
    pub(crate) fn named(name: &str) -> Option<Kind>
        ensures { result ≡ kind_named name.now }
    {
        match name {
            "request" => Some(Kind::Request),
            "pre-prepare" => Some(Kind::PrePrepare),
            "prepare" => Some(Kind::Prepare),
            "commit" => Some(Kind::Commit),
            "reply" => Some(Kind::Reply),
            "checkpoint" => Some(Kind::Checkpoint),
            "view-change" => Some(Kind::ViewChange),
            "new-view" => Some(Kind::NewView),
            "fetch" => Some(Kind::Fetch),
            "snapshot" => Some(Kind::Snapshot),
            _ => None,
        }
    }
}
