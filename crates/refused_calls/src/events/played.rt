//! The events that happen to the replicas of a script when it is played.

ghost use Rattle.std.specs.Prelude.{◌≡◌};
ghost use Rattle.world_script.specs.Keys.{keys_of};

use anyhow::{Result, anyhow};
use host_types::{Bytes, Config, ReplicaId, ReplicaSet};
use lms_tree::Signer;
use script_text::{Head, NamedStep, Node, Script, Step};
use std::alloc::{AllocError, Global};
use std::sync::Arc;
use world_script::{
    Delivery, Event, Expiry, KeySources, Keys, Letter, Stage, Unwatched, Watcher, run_step,
};

/// The correct replicas of a script before their first signatures.
#[derive(Drop)]
pub(crate) struct Cast {
    pub(crate) config: Arc<Config>,
    pub(crate) faulty: ReplicaSet,
    pub(crate) signers: Vec<Signer>,
}

impl Cast {
    /// Those of a script with this head, of which the sources are.
    pub(crate) fn new(alloc: Global, head: &Head, sources: &KeySources) -> Result<Cast, AllocError>
        requires { sources.now ≡ keys_of head.now }
    {
        let Keys {
            config,
            replicas,
            clients: _,
        } = sources.keys(alloc, head)?;
        let faulty = faulty_set(head);
        let signers = correct(alloc, replicas, &faulty)?;
        let config = Arc::new(alloc, config)?;
        Ok(Cast {
            config,
            faulty,
            signers,
        })
    }
}

fn faulty_set(head: &Head) -> ReplicaSet {
    let mut set = ReplicaSet::new();
    for id in head.faulty() {
        set.insert(*id);
    }
    set
}

/// The signers of the correct replicas.
fn correct(
    alloc: Global,
    signers: Vec<Signer>,
    faulty: &ReplicaSet,
) -> Result<Vec<Signer>, AllocError> {
    let mut correct = Vec::new(alloc);
    let mut id: u8 = 0;
    for signer in signers {
        if !faulty.contains(ReplicaId(id)) {
            correct.push(signer)?;
        }
        id = id.saturating_add(1);
    }
    Ok(correct)
}

/// What happens to the replicas of a script when it is played. The sources are of its head.
pub(crate) fn events_of(alloc: Global, script: &Script, sources: &KeySources) -> Result<Vec<Event>>
    requires { sources.now ≡ keys_of script.now.head }
{
    let mut stage = Stage::with_keys(alloc, &script.head, sources)?;
    let mut recorder = Recorder {
        alloc,
        events: Vec::new(alloc),
    };
    let mut unread = String::new(alloc);
    let mut number: u32 = 0;
    for step in script.steps.as_slice() {
        number = number.saturating_add(1);
        play_step(alloc, &mut stage, &mut unread, number, step, &mut recorder)?;
    }
    Ok(recorder.into_events())
}

/// Runs a step. What it prints is passed over.
fn play_step(
    alloc: Global,
    stage: &mut Stage,
    unread: &mut String,
    number: u32,
    step: &NamedStep,
    recorder: &mut Recorder,
) -> Result<()> {
    let mut printed: Vec<u8> = Vec::new(alloc);
    let ended = run_step(
        stage,
        unread,
        number,
        step,
        &mut printed,
        &mut Unwatched,
        recorder,
    );
    match ended {
        Ok(_) => Ok(()),
        Err(_) => Err(anyhow!("a step can't be run")),
    }
}

/// The events that happen to replicas while a script is played.
#[derive(Drop)]
struct Recorder {
    alloc: Global,
    events: Vec<Event>,
}

impl Recorder {
    fn into_events(self) -> Vec<Event> {
        self.events
    }
}

impl Watcher for Recorder {
    ghost told = { λ _ _. Unit {0} };

    fn handed(&mut self, _stage: &Stage, delivery: &Delivery) -> Result<(), AllocError> {
        if let Node::Replica(to) = delivery.letter.to() {
            let bytes = Bytes::from_vec(Vec::from_slice(self.alloc, delivery.letter.bytes())?);
            self.events.push(Event::Deliver { to, bytes })?;
        }
        Ok(())
    }

    fn lost(&mut self, _letter: &Letter) -> Result<(), AllocError> {
        Ok(())
    }

    fn timed_out(&mut self, _stage: &Stage, expiry: &Expiry) -> Result<(), AllocError> {
        self.events.push(Event::Timeout { at: expiry.at })?;
        Ok(())
    }

    fn printed(&mut self, _stage: &Stage, _step: &Step, _text: &str) -> Result<(), AllocError> {
        Ok(())
    }
}
