//! Lists of checked messages under one configuration.

ghost use Rattle.std.specs.Prelude.{◌≡◌, ◌==◌, [], length, map, IfOk, OnOk, OnErr};
ghost use Rattle.seal.specs.Lists.{AreChecked, IsUnder, under, with_message};

use crate::checked::Checked;
use host_types::Config;
use std::alloc::{AllocError, Global};
use std::marker::Model;
use std::sync::Arc;

/// A list of checked messages, all under one configuration. It holds handles: a message that is put
/// into it is not copied. Contracts see the configuration and the messages.
#[derive(Drop)]
pub struct CheckedList {
    config: Arc<Config>,
    messages: Vec<Checked>,
}

impl Model for CheckedList {
    ghost use Rattle.std.specs.List.{AllByRecursion};
    ghost use Rattle.seal.specs.Lists.{CheckedMessages, IsUnder, messages_of};

    ghost Value = { CheckedMessages };

    ghost view = { λ l. record { config = l.config.value; messages = messages_of l.messages.items } };

    ghost invariant = { λ l. AllByRecursion (IsUnder l.config.value) l.messages.items };
}

impl CheckedList {
    /// The list of no messages under this configuration. It is refused only where the count of the
    /// configuration's handles is full.
    pub fn new(alloc: Global, config: &Arc<Config>) -> Result<CheckedList, AllocError>
        ensures { IfOk result (λ l. l ≡ record { config = config.now.value; messages = [] }) }
    {
        Ok(CheckedList {
            config: Arc::try_clone(config)?,
            messages: Vec::new(alloc),
        })
    }

    /// Puts a message of the same configuration at the end. Where memory runs out, the list is as it was.
    pub fn push(&mut self, message: Checked) -> Result<(), AllocError>
        requires { message.config ≡ self.old.config }
        ensures pushed { OnOk result (self.new ≡ with_message self.old message.message) }
        ensures unchanged { OnErr result (self.new ≡ self.old) }
    {
        let _ = message.signer();
        self.messages.push(message)?;
        Ok(())
    }

    /// One more list of the same messages. It holds handles: no bytes are copied. It is refused only where
    /// memory ran out.
    pub fn copy(&self) -> Result<CheckedList, AllocError>
        ensures { IfOk result (λ copy. copy ≡ self.now) }
    {
        let mut copy = CheckedList::new(*self.messages.allocator(), &self.config)?;
        for message in self.as_slice() {
            copy.push(message.copy()?)?;
        }
        Ok(copy)
    }

    /// How many messages there are.
    pub fn len(&self) -> usize
        ensures { result ≡ length self.now.messages }
    {
        self.messages.len()
    }

    /// Whether there is no message.
    pub fn is_empty(&self) -> bool
        ensures { result ≡ (length self.now.messages == 0) }
    {
        self.messages.is_empty()
    }

    /// The messages in order, each checked under the list's configuration.
    pub fn as_slice(&self) -> &[Checked]
        ensures value { result.now ≡ map (under self.now.config) self.now.messages }
        ensures checked { AreChecked self.now }
    {
        &self.messages
    }
}
