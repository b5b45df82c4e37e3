//! What a ViewChange reports, whether the message is nested or checked by itself.

ghost use Rattle.std.specs.Prelude.{◌≡◌, ℕ, List};
ghost use Rattle.pbft_codec.specs.declared.body.certificate.Certificate.{Certificate};

use host_types::SeqNo;
use pbft_codec::{Body, Certificate, Signed, ViewChange};
use seal::Checked;

/// A message that reports a low mark and certificates.
pub trait Report {
    ghost low: { Self → ℕ };

    ghost certificates: { Self → List Certificate };

    /// The low mark.
    fn low(&self) -> SeqNo
        ensures { result.0 ≡ low self.now };

    /// The certificates.
    fn certificates(&self) -> &[Certificate]
        ensures { result.now ≡ certificates self.now };
}

impl Report for Signed<ViewChange> {
    ghost low = { λ m. m.body.low.0 };

    ghost certificates = { λ m. m.body.certificates };

    fn low(&self) -> SeqNo {
        self.body.low
    }

    fn certificates(&self) -> &[Certificate] {
        self.body.certificates.as_slice()
    }
}

impl Report for Checked {
    ghost use Rattle.view_change.specs.Reports.{reported_low, reported_certificates};

    ghost low = { λ m. reported_low m.message.body };

    ghost certificates = { λ m. reported_certificates m.message.body };

    fn low(&self) -> SeqNo {
        match self.body() {
            Body::ViewChange(change) => change.low,
            _ => SeqNo(0),
        }
    }

    fn certificates(&self) -> &[Certificate] {
        match self.body() {
            Body::ViewChange(change) => change.certificates.as_slice(),
            _ => &[],
        }
    }
}
