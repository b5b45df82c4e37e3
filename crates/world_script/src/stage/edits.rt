//! What the steps do that change the queue alone.

ghost use Rattle.std.specs.Prelude.{◌≡◌, IfOk, string_bytes};
ghost use Rattle.std.specs.Option.{option_map};
ghost use Rattle.world_queue.specs.Changes.{payload_bytes, raw_letter};
ghost use Rattle.world_script.specs.Edits.{edited, raws};
ghost use Rattle.world_script.specs.Stages.{with_queue};

use crate::stage::Stage;
use host_types::ReplicaId;
use script_text::{Node, Payload, QueueEdit};
use std::alloc::AllocError;
use world_queue::{Letter, changed, find_named, line_of_nothing_queued};

/// Whom a letter of raw bytes is for until it is copied for its addressees.
const NOBODY: Node = Node::Replica(ReplicaId(0));

impl Stage {
    /// Changes the queue as a step says. What is printed.
    pub(crate) fn edit(&mut self, edit: &QueueEdit) -> Result<String, AllocError>
        ensures { IfOk result (λ text. (string_bytes text, self.new) ≡ with_queue self.old (edited self.old edit.now)) }
    {
        let nothing = String::new(self.alloc);
        match edit {
            QueueEdit::Drop(filter) => {
                self.queue.discard(filter);
                Ok(nothing)
            }
            QueueEdit::Repeat(filter) => {
                self.queue.repeat(filter)?;
                Ok(nothing)
            }
            QueueEdit::Mangle { filter, damage } => {
                self.queue.mangle(filter, *damage)?;
                Ok(nothing)
            }
            QueueEdit::Raw { to, payload } => self.raw(to.as_slice(), payload),
        }
    }

    /// Queues bytes that have no sender or kind. What is printed.
    fn raw(&mut self, to: &[Node], payload: &Payload) -> Result<String, AllocError>
        ensures { IfOk result (λ text. (string_bytes text, self.new) ≡ with_queue self.old (raws self.old to.now payload.now)) }
    {
        let Some(letter) = self.raw_letter(payload)? else {
            return line_of_nothing_queued(self.alloc);
        };
        self.queue.send(&letter, to)?;
        Ok(String::new(self.alloc))
    }

    /// Bytes as a letter; none where they are to be those of a message that there isn't.
    fn raw_letter(&self, payload: &Payload) -> Result<Option<Letter>, AllocError>
        ensures { IfOk result (λ letter. letter ≡ option_map raw_letter (payload_bytes self.now.named payload.now)) }
    {
        match payload {
            Payload::Bytes(bytes) => {
                let letter = Letter::new(self.alloc, NOBODY, None, None, bytes.as_slice())?;
                Ok(Some(letter))
            }
            Payload::Message { name, change } => match find_named(&self.named, name) {
                Some(named) => {
                    let bytes = changed(self.alloc, named.letter.bytes(), *change)?;
                    Ok(Some(Letter::new(self.alloc, NOBODY, None, None, &bytes)?))
                }
                None => Ok(None),
            },
        }
    }
}
