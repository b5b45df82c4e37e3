//! What becomes of the deliveries of a step, as a seed draws it, or a list chooses.

ghost use Rattle.std.specs.Prelude.{◌≡◌, ◌+◌, ◌<◌};
ghost use Rattle.world_queue.specs.Draws.{IsWithin, draws, seed_of};
ghost use Rattle.world_queue.specs.Fates.{chosen, drawn, fate, fate_by, next_state, state_behind};

use host_types::ReplicaId;
use script_text::{Chances, DeliveryOrder};

/// What a state is multiplied by.
const FACTOR: u64 = 6_364_136_223_846_793_005;

/// What is added then.
const ADDEND: u64 = 1_442_695_040_888_963_407;

/// What becomes of a delivery. A letter is the one that is meant and has so many before it that are.
#[derive(Clone, Copy, Debug, PartialEq, Eq)]
pub enum Fate {
    /// A letter is handed to its addressee.
    Handed(usize),
    /// A letter is lost.
    Lost(usize),
    /// A letter is queued again, last, and a copy of it handed over.
    Repeated(usize),
    /// This replica times out, and no letter is taken.
    TimedOut(ReplicaId),
}

/// The seed of an order; 0 where none is drawn.
pub fn seed_of(order: &DeliveryOrder) -> u64
    ensures { result ≡ seed_of order.now }
{
    match order {
        DeliveryOrder::Drawn(seed) | DeliveryOrder::Unreliable { seed, .. } => *seed,
        DeliveryOrder::Oldest | DeliveryOrder::Chosen(_) => 0,
    }
}

/// What becomes of the delivery behind `done` others where so many letters are meant, of so many replicas; and the generator's state
/// behind it. `state` is the one before it, which is the seed at first.
pub fn draw(
    order: &DeliveryOrder,
    done: u32,
    state: u64,
    letters: usize,
    replicas: u8,
) -> (Fate, u64)
    requires letters { 0 < letters }
    requires replicas { 0 < replicas }
    requires state { state ≡ state_behind (seed_of order.now) (draws order.now done) }
    ensures fate { result.0 ≡ fate order.now done letters replicas }
    ensures within { IsWithin letters result.0 }
    ensures state { result.1 ≡ state_behind (seed_of order.now) (draws order.now (done + 1)) }
{
    let next = next_state(state);
    match order {
        DeliveryOrder::Oldest => (Fate::Handed(0), next),
        DeliveryOrder::Drawn(_) => (Fate::Handed(drawn(next, letters)), next),
        DeliveryOrder::Chosen(numbers) => {
            let passed = chosen(numbers.as_slice(), done as usize, letters);
            (Fate::Handed(passed), next)
        }
        DeliveryOrder::Unreliable { chances, .. } => {
            let last = next_state(next);
            let thousandth = drawn(next, 1_000) as u64;
            (fate_by(chances, thousandth, last, letters, replicas), last)
        }
    }
}

/// The generator's next state.
fn next_state(state: u64) -> u64
    ensures { result ≡ next_state state }
{
    state.wrapping_mul(FACTOR).wrapping_add(ADDEND)
}

/// What becomes of a delivery of which this thousandth was drawn. The next state draws of which letter it is, or of which replica.
fn fate_by(chances: &Chances, thousandth: u64, next: u64, letters: usize, replicas: u8) -> Fate
    requires letters { 0 < letters }
    requires replicas { 0 < replicas }
    ensures value { result ≡ fate_by chances.now thousandth next letters replicas }
    ensures within { IsWithin letters result }
{
    if thousandth < chances.lose {
        return Fate::Lost(drawn(next, letters));
    }
    if thousandth - chances.lose < chances.again {
        return Fate::Repeated(drawn(next, letters));
    }
    if thousandth - chances.lose - chances.again < chances.late {
        return Fate::TimedOut(ReplicaId(drawn(next, usize::from(replicas)) as u8));
    }
    Fate::Handed(drawn(next, letters))
}

/// Which of so many a state draws: of its first 31 bits the rest of a division.
fn drawn(state: u64, count: usize) -> usize
    requires { 0 < count }
    ensures value { result ≡ drawn state count }
    ensures below { result < count }
{
    (state / (1 << 33)) as usize % count
}

/// Which of so many letters these numbers choose behind `done` deliveries.
fn chosen(numbers: &[u64], done: usize, count: usize) -> usize
    requires { 0 < count }
    ensures value { result ≡ chosen numbers.now done count }
    ensures below { result < count }
{
    match numbers.get(done) {
        Some(number) => *number as usize % count,
        None => 0,
    }
}
