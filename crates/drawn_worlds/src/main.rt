//! Draws worlds of four or seven replicas, some of them faulty, and compares where each has come to with what the laws of progress
//! say of worlds like it. A world is what its seed draws: who is faulty and lies or is silent, how many clients ask, in which order
//! messages come, which are lost, come late or twice, and when timers expire.
//!
//!     drawn_worlds 1 500
//!
//! The words are the first seed and how many. It prints each law that a world breaks, and at the end of each law: how many worlds
//! met its premises, how many of those broke it, and of the worlds in which a message is missing, of which the law doesn't speak,
//! how many met the other premises and did not what it says.
#![tactic(auto)]

mod customer;
mod draws;
mod end;
mod facts;
mod keys;
mod laws;
mod letter;
mod liar;
mod node;
mod notes;
mod plan;
mod tally;
mod world;

use crate::end::End;
use crate::keys::Keys;
use crate::tally::Tally;
use crate::world::World;
use anyhow::{Context, Result};
use std::env;

fn main(rt: HostRuntime) -> Result<()> {
    let first = word(&rt, 1)?;
    let count = word(&rt, 2)?;
    let keys = Keys::new(rt.alloc())?;
    let mut tally = Tally::new(rt.alloc())?;
    for seed in first..first.saturating_add(count) {
        count_world(&rt, &keys, seed, &mut tally)?;
    }
    tally.print(&rt)
}

/// The number that a word of the command line is.
fn word(rt: &HostRuntime, place: usize) -> Result<u64> {
    let word = env::args(rt)?.nth(place).context("a word is missing")?;
    word.parse::<u64>().context("a word is no number")
}

/// Plays the world of a seed, and counts it.
fn count_world(rt: &HostRuntime, keys: &Keys, seed: u64, tally: &mut Tally) -> Result<()> {
    let mut world = Box::new(rt.alloc(), World::new(rt.alloc(), keys, seed)?)?;
    world.play()?;
    let end = End::new(rt.alloc(), &world)?;
    tally.add(rt, seed, &end)
}
