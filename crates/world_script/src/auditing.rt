//! The line of an audit.

ghost use Rattle.std.specs.Prelude.{IfOk, string_bytes};
ghost use Rattle.world_script.specs.Printing.{IsAuditLine};

use drained_records::{AuditFault, History};
use std::alloc::{AllocError, Global};

/// What an audit found: the greatest number that was executed, or a fault. The error is that memory ran out, here or at
/// the audit.
pub fn line_of_audit(
    alloc: Global,
    audited: &Result<History, AuditFault>,
) -> Result<String, AllocError>
    ensures { IfOk result (λ line. IsAuditLine audited.now (string_bytes line)) }
{
    match audited {
        Ok(history) => {
            let greatest = history.greatest().0;
            format!(in alloc; "audit agreed {greatest}\n")
        }
        Err(AuditFault::Memory) => Err(AllocError),
        Err(fault) => {
            let number = fault.number();
            format!(in alloc; "audit fault {number} {fault}\n")
        }
    }
}
