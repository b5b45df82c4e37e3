//! The signatures of a run alone, made and verified again in as many threads as there are replicas.

use crate::calls::{REPLICAS, Run, Setup};
use anyhow::{Result, anyhow};
use bench_common::Measures;
use bench_common::case::Case;
use bench_common::members::signers;
use host_client::{Dest, Input, Row};
use host_types::Config;
use lms_tree::Signer;
use pbft_codec::{Role, signed_bytes};
use seal::Checked;
use std::alloc::Global;
use std::sync::Wait;
use std::thread;
use std::thread::Threads;
use std::time::Instant;

/// What a replica verified and signed, and what was verified and signed for it at a client.
#[derive(Drop)]
struct Load {
    cases: Vec<Case>,
    texts: Vec<Vec<u8>>,
    signer: Signer,
}

impl Load {
    /// That of a journal. One of the loads has the requests' signatures, which the clients made.
    fn of(
        alloc: Global,
        config: &Config,
        rows: &[Row],
        signer: Signer,
        has_requests: bool,
    ) -> Result<Load> {
        let mut load = Load {
            cases: Vec::new(alloc),
            texts: Vec::new(alloc),
            signer,
        };
        for row in rows {
            load.add(alloc, config, row, has_requests)?;
        }
        Ok(load)
    }

    /// What was verified and signed in a row.
    fn add(&mut self, alloc: Global, config: &Config, row: &Row, has_requests: bool) -> Result<()> {
        if let Input::Message(message) = row.input() {
            self.cases.push(Case::of(alloc, config, message)?)?;
            if has_requests && message.signer().0 == Role::Client {
                self.sign(alloc, message)?;
            }
        }
        self.add_outputs(alloc, config, row)
    }

    /// What was signed in a row, and the replies, which a client verified.
    fn add_outputs(&mut self, alloc: Global, config: &Config, row: &Row) -> Result<()> {
        for output in row.outputs() {
            if output.own {
                self.sign(alloc, &output.message)?;
            }
            if let Dest::Client(_) = output.to {
                self.cases.push(Case::of(alloc, config, &output.message)?)?;
            }
        }
        Ok(())
    }

    fn sign(&mut self, alloc: Global, message: &Checked) -> Result<()> {
        self.texts.push(signed_bytes(alloc, message.message())?)?;
        Ok(())
    }

    /// Makes and verifies all of them.
    fn run(&mut self) -> Result<()> {
        for case in &self.cases {
            case.verify()?;
        }
        for text in &self.texts {
            self.signer.sign(text)?;
        }
        Ok(())
    }
}

/// The loads of a run, one for each replica.
fn loads_of(alloc: Global, setup: Setup, run: &Run) -> Result<Vec<Load>> {
    let mut twins = signers(alloc, setup.height, 0, REPLICAS)?.into_iter();
    let mut loads = Vec::new(alloc);
    for (id, rows) in &run.journals {
        let Some(twin) = twins.next() else {
            return Err(anyhow!("there is no such replica"));
        };
        loads.push(Load::of(alloc, &run.config, rows, twin, id.0 == REPLICAS - 1)?)?;
    }
    Ok(loads)
}

/// The time in which all signatures of a run are made and verified alone, each replica's in a thread.
pub(crate) fn nanoseconds_alone<R: Measures + Threads + Wait + Copy + Send + Sync + Drop + 'static>(
    rt: &R,
    setup: Setup,
    run: &Run,
) -> Result<u128> {
    let loads = loads_of(rt.alloc(), setup, run)?;
    let mut crew = Vec::new(rt.alloc());
    let start = Instant::now(rt)?;
    for load in loads {
        let job = move || {
            let mut load = load;
            load.run().is_ok()
        };
        crew.push(thread::spawn(rt, job)?)?;
    }
    let mut are_valid = true;
    while let Some(thread) = crew.pop() {
        are_valid = thread.join(rt) && are_valid;
    }
    if are_valid {
        Ok(start.elapsed(rt)?.as_nanos())
    } else {
        Err(anyhow!("a signature is not valid, or could not be made"))
    }
}
