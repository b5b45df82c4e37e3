//! The export that tells who signed bytes.

ghost use Rattle.std.specs.Prelude.{◌≡◌};
ghost use Rattle.member_calls.specs.Inside.{config_in};
ghost use Rattle.member_calls.specs.Opened.{OpenedIn};

use member_calls::{Handle, SignedBy, Status, open_under};
use std::alloc::Global;

/// Opens the bytes of a message under a configuration, and tells who signed it. It is written where the status is 0 alone: the
/// bytes are a message then, all of whose parts have listed signers, who may say what they say, and valid signatures.
#[unsafe(no_mangle)]
pub extern "C" fn bpfh_open(
    alloc: Global,
    config: &mut Handle,
    bytes: &[u8],
    signed_by: &mut SignedBy,
) -> u32
    ensures signer { OpenedIn (config_in config.old.slot.inside) bytes.now result signed_by.old signed_by.new }
    ensures kept { config.new.slot.inside ≡ config.old.slot.inside }
{
    let Some(held) = config.take(alloc) else {
        return Status::NoConfig.number();
    };
    let status = open_under(alloc, &held, bytes, signed_by);
    config.put(held);
    status.number()
}
