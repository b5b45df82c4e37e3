//! Messages that are heard one after another, and whom they blame.

ghost use Rattle.std.specs.Prelude.{◌≡◌, ◌<◌, ◌↔◌, [], Some, IsTrue, length};
ghost use Rattle.driver_notes.specs.Blaming.{Blames, HearsClaim, Tells};

use conflicts::{Claim, claim_of};
use host_types::Config;
use seal::{SealFault, open};
use std::alloc::Global;
use std::marker::Model;
use std::sync::Arc;

/// What each message claims that was heard, in their order (`conflicts::claim_of`).
#[derive(Drop)]
pub struct Audit {
    heard: Vec<Option<Claim>>,
}

impl Model for Audit {
    ghost use Rattle.std.specs.Prelude.{List, Option};
    ghost use Rattle.conflicts.specs.declared.claim.Claim.{Claim};

    ghost Value = { List (Option Claim) };

    ghost view = { λ a. a.heard.items };
}

impl Audit {
    /// Nothing was heard yet.
    pub fn new(alloc: Global) -> Audit
        ensures { result ≡ [] }
    {
        Audit {
            heard: Vec::new(alloc),
        }
    }

    /// How many messages were heard.
    pub fn len(&self) -> usize
        ensures { result ≡ length self.now }
    {
        self.heard.len()
    }

    /// Opens bytes under a configuration, hears the message that they are, and tells the place of the first one before it, from 0 on,
    /// that its signer contradicts in it: both have the signer's signature, so whoever has the two can blame him. Bytes that aren't
    /// opened, and memory that runs out, change nothing. It goes over all that was heard.
    pub fn hear(
        &mut self,
        alloc: Global,
        config: &Arc<Config>,
        bytes: &[u8],
    ) -> Result<Option<usize>, SealFault>
        ensures { HearsClaim config.now.value self.old bytes.now result self.new }
    {
        let message = open(alloc, config, bytes)?;
        let claim = claim_of(&message);
        let place = place_of(&self.heard, &claim);
        match self.heard.push(claim) {
            Ok(()) => Ok(place),
            Err(_) => Err(SealFault::Memory),
        }
    }
}

/// The first place whose claim contradicts this one.
fn place_of(heard: &[Option<Claim>], claim: &Option<Claim>) -> Option<usize>
    ensures { Tells heard.now claim.now result }
{
    match claim {
        Some(claim) => first_of(heard, claim),
        None => None,
    }
}

fn first_of(heard: &[Option<Claim>], claim: &Claim) -> Option<usize>
    ensures { Tells heard.now (Some claim.now) result }
{
    for place in 0..heard.len() {
        if blames(heard, place, claim) {
            return Some(place);
        }
    }
    None
}

fn blames(heard: &[Option<Claim>], place: usize, claim: &Claim) -> bool
    requires { place < length heard.now }
    ensures { IsTrue result ↔ Blames heard.now claim.now place }
{
    match &heard[place] {
        Some(other) => other.contradicts(claim),
        None => false,
    }
}
