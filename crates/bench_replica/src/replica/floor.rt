//! The signatures of a run alone, made and verified again.

use crate::replica::group::REPLICAS;
use crate::replica::traffic::Traffic;
use anyhow::{Result, anyhow};
use bench_common::ProcessorTime;
use bench_common::case::Case;
use bench_common::members::signers;
use host_types::Config;
use lms_tree::{Height, Signer};
use pbft_codec::signed_bytes;
use seal::Checked;
use sha2::{Digest, Sha256};
use std::alloc::Global;
use std::time::CpuClock;

/// Twins of the replicas' signers: on the same texts they make the same signatures.
#[derive(Drop)]
pub(crate) struct Floor {
    alloc: Global,
    twins: Vec<Signer>,
}

impl Floor {
    pub(crate) fn new(alloc: Global, height: Height) -> Result<Floor> {
        Ok(Floor {
            alloc,
            twins: signers(alloc, height, 0, REPLICAS)?,
        })
    }

    /// The processor time of all signatures of this traffic: each is made once, and verified once for
    /// each replica that opened it.
    pub(crate) fn nanoseconds(
        &mut self,
        rt: &impl CpuClock,
        config: &Config,
        traffic: &Traffic,
    ) -> Result<u128> {
        if traffic.signed.len() as u64 != u64::from(traffic.leaves) {
            return Err(anyhow!("a leaf was taken for no message that was given"));
        }
        let signed = self.nanoseconds_of_signing(rt, &traffic.signed)?;
        let verified = self.nanoseconds_of_verifying(rt, config, &traffic.delivered)?;
        Ok(signed.saturating_add(verified))
    }

    fn nanoseconds_of_signing(&mut self, rt: &impl CpuClock, messages: &[Checked]) -> Result<u128> {
        let texts = texts_of(self.alloc, messages)?;
        let mut signatures = Vec::with_capacity(self.alloc, texts.len())?;
        let start = ProcessorTime::now(rt)?;
        self.sign_all(&texts, &mut signatures)?;
        let taken = start.nanoseconds(rt)?;
        if are_of(&signatures, messages) {
            Ok(taken)
        } else {
            Err(anyhow!("the signature is another"))
        }
    }

    /// Appends the signature of each text by its signer's twin.
    fn sign_all(&mut self, texts: &[(u32, Vec<u8>)], signatures: &mut Vec<Vec<u8>>) -> Result<()> {
        for (id, text) in texts {
            let Some(twin) = self.twins.get_mut(*id as usize) else {
                return Err(anyhow!("there is no such replica"));
            };
            signatures.push(twin.sign(text)?)?;
        }
        Ok(())
    }

    fn nanoseconds_of_verifying(
        &self,
        rt: &impl CpuClock,
        config: &Config,
        messages: &[Checked],
    ) -> Result<u128> {
        let cases = Case::all_of(self.alloc, config, messages)?;
        let start = ProcessorTime::now(rt)?;
        for case in &cases {
            case.verify()?;
        }
        Ok(start.nanoseconds(rt)?)
    }
}

/// The processor time of so many hashes of these bytes, of which each but the first has a byte of the one before.
pub(crate) fn nanoseconds_of_hashes(
    rt: &impl CpuClock,
    mut bytes: Vec<u8>,
    count: u32,
) -> Result<u128> {
    let start = ProcessorTime::now(rt)?;
    for _ in 0..count {
        let digest = Sha256::digest(&bytes);
        if let Some(first) = bytes.first_mut() {
            *first = digest[0];
        }
    }
    Ok(start.nanoseconds(rt)?)
}

/// Who signed each message, and what.
fn texts_of(alloc: Global, messages: &[Checked]) -> Result<Vec<(u32, Vec<u8>)>> {
    let mut texts = Vec::new(alloc);
    for message in messages {
        texts.push((message.signer().1, signed_bytes(alloc, message.message())?))?;
    }
    Ok(texts)
}

/// Whether these are the messages' signatures.
fn are_of(signatures: &[Vec<u8>], messages: &[Checked]) -> bool {
    signatures.iter().zip(messages).all(|(signature, message)| signature.as_slice()
        == message.message().sig.as_slice())
}
