//! The exports that tell whom messages blame.

ghost use Rattle.std.specs.Prelude.{◌≡◌, ◌⊎◌, [], Some, None};
ghost use Rattle.member_calls.specs.Auditing.{AuditedIn};
ghost use Rattle.member_calls.specs.Inside.{audit_in, config_in};

use member_calls::{Handle, Heard, Status, audit, new_audit, no_audit};
use std::alloc::Global;

/// Makes an audit that has heard nothing yet. The handle's former content is freed.
#[unsafe(no_mangle)]
pub extern "C" fn bpfh_audit_new(alloc: Global, audit: &mut Handle) -> u32
    ensures { ((result ≡ 0) × (audit_in audit.new.slot.inside ≡ Some [])) ⊎ ((result ≡ 21) × (audit.new.slot.inside ≡ None)) }
{
    audit.clear(alloc);
    match new_audit(alloc) {
        Ok(boxed) => {
            audit.put(boxed);
            Status::Done.number()
        }
        Err(status) => status.number(),
    }
}

/// Opens the bytes of a message under a configuration, and has an audit hear it: `heard` is its place among those that were heard, and
/// the first one that its signer contradicts in it. Bytes that aren't opened change nothing.
#[unsafe(no_mangle)]
pub extern "C" fn bpfh_audit_hear(
    alloc: Global,
    config: &mut Handle,
    book: &mut Handle,
    bytes: &[u8],
    heard: &mut Heard,
) -> u32
    ensures heard { AuditedIn (config_in config.old.slot.inside) book.old.slot.inside bytes.now result heard.old heard.new book.new.slot.inside }
    ensures kept { config.new.slot.inside ≡ config.old.slot.inside }
{
    let Some(held) = config.take(alloc) else {
        return Status::NoConfig.number();
    };
    let Some(mut inside) = book.take(alloc) else {
        let status = no_audit(&held);
        config.put(held);
        return status.number();
    };
    let status = audit(alloc, &held, &mut inside, bytes, heard);
    config.put(held);
    book.put(inside);
    status.number()
}
