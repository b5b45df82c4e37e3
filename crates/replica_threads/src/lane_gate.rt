//! How a host's gate sees the lanes of its replicas.

use host_types::{Gate, ReplicaId};

/// In how many lanes a station executes requests at most.
pub(crate) const LANES: u8 = 2;

/// The number by which a gate sees the first lane of replica 0. Those below it are the replicas'.
const FIRST_LANE: u32 = 256;

/// How many numbers each replica's lanes have.
const LANE_NUMBERS: u32 = 16;

/// The gate of a replica's lanes: lane j of replica i is seen as 256 + 16 i + j.
#[derive(Drop)]
pub(crate) struct LaneGate<'a, G: Gate> {
    gate: &'a G,
    first: u32,
}

impl<'a, G: Gate> LaneGate<'a, G> {
    pub(crate) fn new(gate: &'a G, id: ReplicaId) -> LaneGate<'a, G> {
        LaneGate {
            gate,
            first: FIRST_LANE + LANE_NUMBERS * u32::from(id.0),
        }
    }
}

impl<G: Gate> Gate for LaneGate<'_, G> {
    fn step(&self, who: u32) {
        self.gate.step(self.first.wrapping_add(who));
    }
}
