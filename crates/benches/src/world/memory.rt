//! The memory that a script takes.

use crate::world::floor::commit;
use crate::world::scripts::{DELIVERY, VAIN_DELIVERY, followed, output_of, queued};
use anyhow::Result;
use bench_common::Measures;
use bench_common::peak::{peak, print_within};
use std::fs::Files;

/// What a script with the most deliveries of a step may take, in KiB.
const QUEUE: u64 = 256 * 1024;

/// What a delivery that a replica takes may keep, in bytes.
const ROW: u64 = 16 * 1024;

/// Prints what a script takes whose last step has 1,000,000 deliveries, all to a faulty replica.
pub(crate) fn print_queue(rt: &(impl Measures + Files)) -> Result<()> {
    let alloc = rt.alloc();
    let queued = queued(alloc, 3, "01", 15_625, 6)?;
    let script = followed(alloc, &followed(alloc, &queued, VAIN_DELIVERY)?, DELIVERY)?;
    output_of(alloc, &script)?;
    print_within(
        rt,
        "1,000,000 messages on their way, at most",
        peak(rt)?,
        "KiB",
        QUEUE,
    )
}

/// Prints what a delivery that a replica takes keeps: 20,000 of one vote, against none.
pub(crate) fn print_rows(rt: &(impl Measures + Files)) -> Result<()> {
    let alloc = rt.alloc();
    let vote = hex::encode(alloc, commit(alloc)?.bytes.as_slice())?;
    let script = queued(alloc, 1, &vote, 1250, 4)?;
    output_of(alloc, &script)?;
    let before = peak(rt)?;
    output_of(alloc, &followed(alloc, &script, DELIVERY)?)?;
    let kept = peak(rt)?.saturating_sub(before).saturating_mul(1024) / 20_000;
    print_within(
        rt,
        "a delivery that a replica takes keeps",
        kept,
        "bytes",
        ROW,
    )
}
