//! A gate that watches nobody.

use host_types::Gate;

/// No one watches the threads.
#[derive(Drop)]
pub(crate) struct NoGate;

impl Gate for NoGate {
    fn step(&self, who: u32) {
        let _ = who;
    }
}
