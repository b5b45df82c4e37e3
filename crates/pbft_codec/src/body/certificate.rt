//! A proposal and the Prepares that agree with it, as a view change carries them.

use crate::body::pre_prepare::PrePrepare;
use crate::body::prepare::Prepare;
use crate::codec::Codec;
use crate::lists::{MAX_SIGNERS, put_list, read_ascending, read_signed};
use crate::sequence::Sequence;
use crate::signed::Signed;
use crate::try_clone::TryClone;
use codec_fields::ReadError;
use std::alloc::{AllocError, Global};

/// At most 10, ids strictly ascending.
pub type Prepares = Sequence<Signed<Prepare>>;

/// A proposal and the Prepares that agree with it.
#[derive(Debug, Drop)]
pub struct Certificate {
    pub pre_prepare: Signed<PrePrepare>,
    pub prepares: Prepares,
}

impl Codec for Certificate {
    ghost use Rattle.pbft_codec.specs.Layouts.{certificate};
    ghost use Rattle.pbft_codec.specs.Limits.{CertificateFieldsInRange};
    ghost use Rattle.pbft_codec.specs.Reading.{certificate_at};

    ghost reading = { certificate_at };

    ghost encoded = { certificate };

    ghost fields_in_range = { CertificateFieldsInRange };

    #[tactic(auto, unfolding(crate::specs::Reading::certificate_at))]
    fn read(alloc: Global, bytes: &[u8]) -> Result<(Certificate, &[u8]), ReadError> {
        let (pre_prepare, rest) = read_signed(alloc, 0, bytes)?;
        let (prepares, rest) = read_ascending(alloc, MAX_SIGNERS, rest)?;
        Ok((
            Certificate {
                pre_prepare,
                prepares,
            },
            rest,
        ))
    }

    #[tactic(auto, unfolding(crate::specs::Layouts::certificate))]
    fn put(&self, alloc: Global, out: &mut Vec<u8>) -> Result<(), AllocError> {
        self.pre_prepare.put(alloc, out)?;
        put_list(alloc, out, self.prepares.as_slice())
    }
}

impl TryClone for Certificate {
    fn try_clone(&self, alloc: Global) -> Result<Certificate, AllocError> {
        let pre_prepare = self.pre_prepare.try_clone(alloc)?;
        let prepares = self.prepares.try_clone(alloc)?;
        Ok(Certificate {
            pre_prepare,
            prepares,
        })
    }
}
