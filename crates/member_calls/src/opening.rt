//! Who signed bytes.

ghost use Rattle.std.specs.Prelude.{◌≡◌};
ghost use Rattle.pbft_codec.specs.declared.signed.Role.{Role as RoleSaid};
ghost use Rattle.member_calls.specs.Inside.{config_of};
ghost use Rattle.member_calls.specs.Opened.{OpenedIn, role_number};
ghost use Rattle.member_calls.specs.Statuses.{number_of};

use crate::status::Status;
use handles::Held;
use pbft_codec::Role;
use seal::open;
use std::alloc::Global;

/// Who signed a message.
#[repr(C)]
pub struct SignedBy {
    /// 1 for a replica, 2 for a client.
    pub role: u32,
    /// The id of the replica or the client.
    pub id: u32,
}

/// Opens the bytes of a message under a configuration, and tells who signed it. `signed_by` is written where the status is
/// `Done` alone.
pub fn open_under(alloc: Global, held: &Held, bytes: &[u8], signed_by: &mut SignedBy) -> Status
    ensures { OpenedIn (config_of held.now) bytes.now (number_of result) signed_by.old signed_by.new }
{
    let Held::Config(config) = held else {
        return Status::NoConfig;
    };
    match open(alloc, config, bytes) {
        Ok(message) => {
            let (role, id) = message.signer();
            signed_by.role = role_number(role);
            signed_by.id = id;
            Status::Done
        }
        Err(fault) => Status::from(fault),
    }
}

fn role_number(role: Role) -> u32
    ensures { result ≡ role_number role }
{
    match role {
        Role::Replica => 1,
        Role::Client => 2,
    }
}
