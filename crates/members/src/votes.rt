//! Votes that come early, as bytes.

ghost use Rattle.std.specs.Prelude.{◌≡◌, IfOk, None, OnErr, OnOk};
ghost use Rattle.std.specs.Option.{option_copied};
ghost use Rattle.early_votes.specs.Holding.{kept, moved};
ghost use Rattle.members.specs.Votes.{Holds, Readies, VotesFacts, no_votes};

use early_votes::Held;
use host_types::{Config, SeqNo, View};
use seal::{Checked, SealFault, open};
use std::alloc::{AllocError, Global};
use std::marker::Model;
use std::sync::Arc;

/// The votes that came early for a replica (`early_votes`), and the one that is handed in next. Whoever drives a replica by
/// bytes keeps them beside it.
#[derive(Drop)]
pub struct Votes {
    alloc: Global,
    config: Arc<Config>,
    kept: Held,
    next: Option<Checked>,
}

impl Model for Votes {
    ghost use Rattle.std.specs.Prelude.{◌≡◌};
    ghost use Rattle.members.specs.Votes.{VotesFacts};

    ghost Value = { VotesFacts };

    ghost view = { λ v. record { kept = v.kept; next = v.next } };

    ghost invariant = { λ v. v.kept.config ≡ v.config.value };
}

impl Votes {
    /// Nothing is kept, for a replica before its first message.
    pub fn new(alloc: Global, config: &Arc<Config>) -> Result<Votes, AllocError>
        ensures { IfOk result (λ v. v ≡ no_votes config.now.value) }
    {
        Ok(Votes {
            alloc,
            config: Arc::try_clone(config)?,
            kept: Held::new(alloc, config)?,
            next: None,
        })
    }

    /// Opens bytes, and keeps the vote that they are where it comes early. `true` says that it came early: it is kept, or passed
    /// over as `Held::keep` says; `false` that the replica is to take the message now. Bytes that aren't opened, and memory that
    /// runs out, change nothing.
    pub fn hold(&mut self, bytes: &[u8]) -> Result<bool, SealFault>
        ensures { Holds self.old bytes.now result self.new }
    {
        let message = open(self.alloc, &self.config, bytes)?;
        if !self.kept.is_early(&message) {
            return Ok(false);
        }
        match keep(&mut self.kept, message) {
            Ok(()) => Ok(true),
            Err(_) => Err(SealFault::Memory),
        }
    }

    /// The replica has this low mark and this view: votes that it can't record any more go. It takes no memory.
    pub fn move_to(&mut self, low: SeqNo, view: View)
        ensures { self.new ≡ record self.old { kept = moved self.old.kept low.0 view.0 } }
    {
        self.kept.move_to(low, view);
    }

    /// Takes out the first vote that is on time, which is then `next`, unless one is already. It takes no memory.
    pub fn ready(&mut self)
        ensures { Readies self.old.next self.old self.new }
    {
        if self.next.is_none() {
            self.next = self.kept.next();
        }
    }

    /// The vote that the replica is to take next; none where all that are kept are early. It takes no memory.
    pub fn next(&self) -> Option<&Checked>
        ensures { option_copied result ≡ self.now.next }
    {
        self.next.as_ref()
    }

    /// The replica has taken `next`.
    pub fn pass(&mut self)
        ensures { self.new ≡ record self.old { next = None } }
    {
        self.next = None;
    }
}

/// Keeps a vote, under the configuration that it has.
fn keep(held: &mut Held, message: Checked) -> Result<(), AllocError>
    requires { message.config ≡ held.old.config }
    ensures kept { OnOk result (held.new ≡ kept held.old message) }
    ensures unchanged { OnErr result (held.new ≡ held.old) }
    ensures config { held.new.config ≡ held.old.config }
{
    held.keep(message)
}
