//! The messages that steps gave names to.

use crate::queue::Letter;
use script_text::MessageName;

/// A message that a step gave a name to.
#[derive(Drop)]
pub struct Named {
    /// Its name.
    pub name: MessageName,
    /// The message.
    pub letter: Letter,
}
