//! What a replica owes for its last execution.

ghost use Rattle.std.specs.Prelude.{◌≡◌, false, None};

use host_types::Reply;

/// What the last execution still has to send: its reply, and at a multiple of the checkpoint interval its Checkpoint.
#[derive(Drop)]
pub struct Owed {
    pub reply: Option<Reply>,
    pub checkpoint: bool,
}

impl Owed {
    /// Nothing: so a replica begins, and so it goes on from a state that it has installed, of which it signs no
    /// Checkpoint.
    pub fn nothing() -> Owed
        ensures reply { result.reply ≡ None }
        ensures checkpoint { result.checkpoint ≡ false }
    {
        Owed {
            reply: None,
            checkpoint: false,
        }
    }
}
