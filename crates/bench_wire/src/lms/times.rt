//! Times against as many one-block hashes, in one run: the least of a few rounds of each. The hashes are bare ones, each of which
//! waits for the one before, and those of the processor's lanes.

use crate::lms::counts::{blocks_of, key_blocks, sign_blocks, verify_blocks};
use crate::lms::levels;
use anyhow::{Result, anyhow};
use bench_common::Measures;
use bench_common::ratio::{Limit, Ratio, require_within_limits};
use host_types::PublicKey;
use lms_tree::{Height, Signer, verify};
use sha_lanes::hash_block;
use sha2::{Digest, Sha256};
use std::simd::u32x8;
use std::time::{Clock, Instant};

pub(crate) const ID: [u8; 16] = [1; 16];

pub(crate) const SECRET: [u8; 32] = [2; 32];

pub(crate) const MESSAGE: [u8; 40] = [3; 40];

/// The bytes of a long message.
const LONG: usize = 1_000_000;

/// What a work may take of its hashes in the lanes.
const LANES_LIMIT: Limit = Limit::Thousandths(1250);

/// What the program was built for.
#[derive(Clone, Copy)]
pub(crate) enum Build {
    /// Every x86-64.
    Default,
    /// x86-64-v3, which has AVX2.
    V3,
}

impl Build {
    /// What a work may take of its bare hashes.
    fn limit(self) -> Limit {
        match self {
            Build::Default => Limit::Thousandths(650),
            Build::V3 => Limit::Thousandths(300),
        }
    }
}

/// How long a number of hashes takes.
#[derive(Clone, Copy)]
pub(crate) struct Floors {
    bare: u128,
    lanes: u128,
}

impl Floors {
    /// More than any time.
    pub(crate) const MOST: Floors = Floors {
        bare: u128::MAX,
        lanes: u128::MAX,
    };

    pub(crate) fn measure(rt: &impl Clock, count: u64) -> Result<Floors> {
        Ok(Floors {
            bare: nanoseconds_of_hashes(rt, count)?,
            lanes: nanoseconds_in_lanes(rt, count)?,
        })
    }

    /// The shorter of both.
    pub(crate) fn least(self, other: Floors) -> Floors {
        Floors {
            bare: self.bare.min(other.bare),
            lanes: self.lanes.min(other.lanes),
        }
    }

    /// A thousand times as much, shared by so many.
    pub(crate) fn shared(self, share: u128) -> Floors {
        let share = share.max(1);
        Floors {
            bare: self.bare.saturating_mul(1000) / share,
            lanes: self.lanes.saturating_mul(1000) / share,
        }
    }
}

/// Hashes blocks of 55 bytes, each of which holds the digest before.
fn hashes(count: u64) -> u8 {
    let mut input = [7u8; 55];
    for _ in 0..count {
        let digest = Sha256::digest(&input);
        input[23..].copy_from_slice(&digest);
    }
    input[23]
}

/// Hashes blocks in the lanes, each of which holds the hash value before.
fn lane_hashes(count: u64) -> u8 {
    let mut block = [u32x8::splat(7); 16];
    for _ in 0..count / 8 {
        let [a, b, c, d, e, f, g, h] = hash_block(block);
        block[0] = a;
        block[1] = b;
        block[2] = c;
        block[3] = d;
        block[4] = e;
        block[5] = f;
        block[6] = g;
        block[7] = h;
    }
    (block[0].to_array()[0] % 256) as u8
}

fn nanoseconds_of_hashes(rt: &impl Clock, count: u64) -> Result<u128> {
    let start = Instant::now(rt)?;
    let last = hashes(count);
    nanoseconds_since(rt, &start, last)
}

fn nanoseconds_in_lanes(rt: &impl Clock, count: u64) -> Result<u128> {
    let start = Instant::now(rt)?;
    let last = lane_hashes(count);
    nanoseconds_since(rt, &start, last)
}

/// The time since then. What came of the work is used, so that no compiler leaves it out.
fn nanoseconds_since(rt: &impl Clock, start: &Instant, last: u8) -> Result<u128> {
    let taken = start.elapsed(rt)?.as_nanos();
    Ok(taken.saturating_add(u128::from(last / 255)))
}

/// Prints both ratios, and returns whether they are within their limits.
pub(crate) fn print_ratio(
    rt: &impl Print,
    build: Build,
    work: &str,
    blocks: u64,
    taken: u128,
    floors: Floors,
) -> Result<bool> {
    let Floors { bare, lanes } = floors;
    let of_bare = Ratio::new(taken, bare, build.limit());
    let of_lanes = Ratio::new(taken, lanes, LANES_LIMIT);
    println!(rt;
        "{work}: {blocks} blocks, {taken} ns, as bare hashes {bare} ns, {of_bare}; in lanes {lanes} ns, {of_lanes}"
    )?;
    Ok(of_bare.is_within_limit() && of_lanes.is_within_limit())
}

/// The two floors: one hash of one block, and a block of a long message.
fn print_floors(rt: &impl Measures) -> Result<()> {
    let message = Vec::from_elem(rt.alloc(), 7u8, LONG)?;
    let mut one = u128::MAX;
    let mut long = u128::MAX;
    for _ in 0..20 {
        one = one.min(nanoseconds_of_hashes(rt, 10_000)?);
        let start = Instant::now(rt)?;
        let digest = Sha256::digest(&message);
        let taken = start.elapsed(rt)?.as_nanos();
        long = long.min(taken.saturating_add(u128::from(digest[0] / 255)));
    }
    println!(rt;
        "one hash of one block: {} ns, a block of a long message: {} ns",
        one / 10_000,
        long / u128::from(blocks_of(LONG as u64).max(1))
    )?;
    Ok(())
}

/// The time of making a key of height 10.
fn nanoseconds_of_key(rt: &impl Measures) -> Result<u128> {
    let start = Instant::now(rt)?;
    let _signer = Signer::from_seed(rt.alloc(), Height::H10, ID, SECRET)?;
    Ok(start.elapsed(rt)?.as_nanos())
}

fn print_key(rt: &impl Measures, build: Build) -> Result<bool> {
    let blocks = key_blocks();
    let mut made = u128::MAX;
    let mut floors = Floors::MOST;
    for _ in 0..5 {
        made = made.min(nanoseconds_of_key(rt)?);
        floors = floors.least(Floors::measure(rt, blocks)?);
    }
    print_ratio(rt, build, "key of height 10", blocks, made, floors)
}

/// A signature, and the time of making it.
pub(crate) fn timed_signature(rt: &impl Clock, signer: &mut Signer) -> Result<(Vec<u8>, u128)> {
    let start = Instant::now(rt)?;
    let sig = signer.sign(&MESSAGE)?;
    let taken = start.elapsed(rt)?.as_nanos();
    Ok((sig, taken))
}

/// The least time of a block's share of a signature, and of a bare hash, over rounds of 100 signatures:
/// each leaf signs but once, and each signature takes its own number of blocks.
fn print_signatures(rt: &impl Measures, build: Build, signer: &mut Signer) -> Result<bool> {
    let mut all = 0u64;
    let mut signed = u128::MAX;
    let mut floors = Floors::MOST;
    for _ in 0..10 {
        let mut blocks = 0u64;
        let mut taken = 0u128;
        for _ in 0..100 {
            let (sig, own) = timed_signature(rt, signer)?;
            taken = taken.saturating_add(own);
            blocks = blocks.saturating_add(sign_blocks(&ID, &MESSAGE, &sig));
        }
        let share = u128::from(blocks.max(1));
        signed = signed.min(taken.saturating_mul(1000) / share);
        floors = floors.least(Floors::measure(rt, blocks)?.shared(share));
        all = all.saturating_add(blocks);
    }
    print_ratio(
        rt,
        build,
        "1,000 signatures, by 1,000 blocks",
        all,
        signed,
        floors,
    )
}

/// Prints what one signature's verification takes, over and over, against its blocks.
pub(crate) fn print_verifying(
    rt: &impl Measures,
    build: Build,
    work: &str,
    key: &PublicKey,
    sig: &[u8],
    blocks: u64,
) -> Result<bool> {
    let mut verified = u128::MAX;
    let mut floors = Floors::MOST;
    for _ in 0..20 {
        let start = Instant::now(rt)?;
        for _ in 0..100 {
            if verify(key, &MESSAGE, sig).is_err() {
                return Err(anyhow!("the signature is not valid"));
            }
        }
        verified = verified.min(start.elapsed(rt)?.as_nanos());
        floors = floors.least(Floors::measure(rt, blocks.saturating_mul(100))?);
    }
    print_ratio(
        rt,
        build,
        work,
        blocks,
        verified.saturating_mul(10),
        floors.shared(100),
    )
}

fn print_verification(rt: &impl Measures, build: Build, signer: &mut Signer) -> Result<bool> {
    let key = signer.public_key();
    let sig = signer.sign(&MESSAGE)?;
    let blocks = verify_blocks(&ID, &MESSAGE, &sig, 10);
    print_verifying(rt, build, "verification, 1,000 times", &key, &sig, blocks)
}

/// Prints what two verifications and signatures of a key take, and returns whether all are within the limit.
fn print_of_key(rt: &impl Measures, build: Build, signer: &mut Signer) -> Result<bool> {
    let verified = print_verification(rt, build, signer)?;
    let verified_again = print_verification(rt, build, signer)?;
    let signed = print_signatures(rt, build, signer)?;
    Ok(verified && verified_again && signed)
}

/// Prints the floors and all ratios; an error where one passes the limit.
pub(crate) fn print_times(rt: &impl Measures, build: Build) -> Result<()> {
    print_floors(rt)?;
    let key = print_key(rt, build)?;
    let of_key = print_of_key(
        rt,
        build,
        &mut Signer::from_seed(rt.alloc(), Height::H10, ID, SECRET)?,
    )?;
    let levels = levels::print_times(rt, build)?;
    require_within_limits(key && of_key && levels)
}
