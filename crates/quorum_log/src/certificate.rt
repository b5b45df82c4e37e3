//! What shows that a number was prepared in a view.

ghost use Rattle.std.specs.Prelude.{◌≡◌, IfOk};

use seal::{Checked, CheckedList};
use std::alloc::AllocError;

/// The proof that a number was prepared in a view (Castro and Liskov 1999, section 4.4): the PrePrepare of
/// the view's primary, and the matching Prepares of 2f backups, those of least signers.
#[derive(Drop)]
pub struct CheckedCertificate {
    pub pre_prepare: Checked,
    pub prepares: CheckedList,
}

impl CheckedCertificate {
    /// One more handle of each of its messages. No bytes are copied; it is refused only where memory ran out.
    pub fn copy(&self) -> Result<CheckedCertificate, AllocError>
        ensures { IfOk result (λ copy. copy ≡ self.now) }
    {
        Ok(CheckedCertificate {
            pre_prepare: self.pre_prepare.copy()?,
            prepares: self.prepares.copy()?,
        })
    }
}
