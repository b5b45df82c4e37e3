//! The exports that make members of a configuration.

ghost use Rattle.std.specs.Prelude.{◌≡◌, ◌⊎◌, ◌<◌, ◌≤◌, ◌^◌, Some, None, Ok};
ghost use Rattle.member_calls.specs.Inside.{client_in, config_in, member_in};
ghost use Rattle.member_calls.specs.Joining.{JoinsIn, client_key_of, replica_key_of};
ghost use Rattle.member_calls.specs.Keys.{signer_in};
ghost use Rattle.member_calls.specs.Statuses.{number_of};
ghost use Rattle.member_calls.specs.Words.{Configuration, SigningState, first_member, session_behind};
ghost use Rattle.member_calls.specs.declared.status.Status.{Status as StatusSaid};
ghost use Rattle.member_calls.specs.declared.status.Status.TheVariants as statuses;

use member_calls::{ClientId, Handle, ReplicaId, Status, boxed_client, boxed_member};
use std::alloc::Global;

/// The greatest time behind which a session goes on.
const MAX_TIME: u64 = 1 << 63;

/// Makes a replica before its first message, with the signer of a seed that has used the leaves below `leaf`. **No leaf from
/// there on may have signed**: it is for a caller that keeps such a number on disk, and raises it before anything is sent; a new
/// seed begins at 0. One that takes a journal again begins by `bpfh_replica_replay`. The handle's former content is freed; the
/// replica is inside where the status is 0, else nothing.
#[unsafe(no_mangle)]
pub extern "C" fn bpfh_replica_new(
    alloc: Global,
    config: &mut Handle,
    id: u8,
    seed: &[u8],
    top: u8,
    bottom: u8,
    leaf: u32,
    replica: &mut Handle,
) -> u32
    ensures status { (result ≡ 21) ⊎ ((status : StatusSaid) × (result ≡ number_of status)
        × JoinsIn (replica_key_of id) (config_in config.old.slot.inside) (signer_in seed.now top bottom leaf) status) }
    ensures inside { (c : Configuration) → (signer : SigningState) → config_in config.old.slot.inside ≡ Some c
        → signer_in seed.now top bottom leaf ≡ Ok signer → result ≡ 0
        → member_in replica.new.slot.inside ≡ Some (first_member c id signer) }
    ensures none { 0 < result → replica.new.slot.inside ≡ None }
    ensures kept { config.new.slot.inside ≡ config.old.slot.inside }
{
    join_replica(
        alloc,
        config,
        ReplicaId(id),
        seed,
        top,
        bottom,
        leaf,
        replica,
    )
    .number()
}

/// Makes a replica before its first message, with the signer of a seed at its first leaf. **It takes again all that this seed's
/// replica took, in that order, before anything is sent**: it is for a caller that writes each message and each timeout down before
/// its replica takes it. The handle's former content is freed; the replica is inside where the status is 0, else nothing.
#[unsafe(no_mangle)]
pub extern "C" fn bpfh_replica_replay(
    alloc: Global,
    config: &mut Handle,
    id: u8,
    seed: &[u8],
    top: u8,
    bottom: u8,
    replica: &mut Handle,
) -> u32
    ensures status { (result ≡ 21) ⊎ ((status : StatusSaid) × (result ≡ number_of status)
        × JoinsIn (replica_key_of id) (config_in config.old.slot.inside) (signer_in seed.now top bottom 0) status) }
    ensures inside { (c : Configuration) → (signer : SigningState) → config_in config.old.slot.inside ≡ Some c
        → signer_in seed.now top bottom 0 ≡ Ok signer → result ≡ 0
        → member_in replica.new.slot.inside ≡ Some (first_member c id signer) }
    ensures none { 0 < result → replica.new.slot.inside ≡ None }
    ensures kept { config.new.slot.inside ≡ config.old.slot.inside }
{
    join_replica(alloc, config, ReplicaId(id), seed, top, bottom, 0, replica).number()
}

fn join_replica(
    alloc: Global,
    config: &mut Handle,
    id: ReplicaId,
    seed: &[u8],
    top: u8,
    bottom: u8,
    leaf: u32,
    replica: &mut Handle,
) -> Status
    ensures status { (result ≡ statuses.Memory) ⊎ JoinsIn (replica_key_of id.0) (config_in config.old.slot.inside)
        (signer_in seed.now top bottom leaf) result }
    ensures inside { (c : Configuration) → (signer : SigningState) → config_in config.old.slot.inside ≡ Some c
        → signer_in seed.now top bottom leaf ≡ Ok signer → result ≡ statuses.Done
        → member_in replica.new.slot.inside ≡ Some (first_member c id.0 signer) }
    ensures none { (result ≡ statuses.Done) ⊎ (replica.new.slot.inside ≡ None) }
    ensures kept { config.new.slot.inside ≡ config.old.slot.inside }
{
    replica.clear(alloc);
    let Some(held) = config.take(alloc) else {
        return Status::NoConfig;
    };
    let made = boxed_member(alloc, &held, id, seed, top, bottom, leaf);
    config.put(held);
    match made {
        Ok(boxed) => {
            replica.put(boxed);
            Status::Done
        }
        Err(status) => status,
    }
}

/// Makes a client's session whose first request has the time behind `time`, with the signer of a seed that has used the
/// leaves below `leaf`. **No leaf from there on may have signed**, the client may not have asked with a later time, and one
/// session at a time reads its replies. The handle's former content is freed; the session is inside where the status is 0,
/// else nothing.
#[unsafe(no_mangle)]
pub extern "C" fn bpfh_client_new(
    alloc: Global,
    config: &mut Handle,
    id: u32,
    seed: &[u8],
    top: u8,
    bottom: u8,
    leaf: u32,
    time: u64,
    client: &mut Handle,
) -> u32
    ensures status { (result ≡ 21) ⊎ ((result ≡ 64) × (2 ^ 63 < time)) ⊎ ((status : StatusSaid) × (result ≡ number_of status)
        × JoinsIn (client_key_of id) (config_in config.old.slot.inside) (signer_in seed.now top bottom leaf) status) }
    ensures inside { (c : Configuration) → (signer : SigningState) → config_in config.old.slot.inside ≡ Some c
        → signer_in seed.now top bottom leaf ≡ Ok signer → result ≡ 0
        → client_in client.new.slot.inside ≡ Some (session_behind c (record { 0 = id }) signer time) }
    ensures late { 2 ^ 63 < time → result ≡ 64 }
    ensures none { 0 < result → client.new.slot.inside ≡ None }
    ensures kept { config.new.slot.inside ≡ config.old.slot.inside }
{
    if time > MAX_TIME {
        client.clear(alloc);
        return Status::NoTime.number();
    }
    join_client(
        alloc,
        config,
        ClientId(id),
        seed,
        top,
        bottom,
        leaf,
        time,
        client,
    )
    .number()
}

fn join_client(
    alloc: Global,
    config: &mut Handle,
    id: ClientId,
    seed: &[u8],
    top: u8,
    bottom: u8,
    leaf: u32,
    time: u64,
    client: &mut Handle,
) -> Status
    requires { time ≤ 2 ^ 63 }
    ensures status { (result ≡ statuses.Memory) ⊎ JoinsIn (client_key_of id.0) (config_in config.old.slot.inside)
        (signer_in seed.now top bottom leaf) result }
    ensures inside { (c : Configuration) → (signer : SigningState) → config_in config.old.slot.inside ≡ Some c
        → signer_in seed.now top bottom leaf ≡ Ok signer → result ≡ statuses.Done
        → client_in client.new.slot.inside ≡ Some (session_behind c id signer time) }
    ensures none { (result ≡ statuses.Done) ⊎ (client.new.slot.inside ≡ None) }
    ensures kept { config.new.slot.inside ≡ config.old.slot.inside }
{
    client.clear(alloc);
    let Some(held) = config.take(alloc) else {
        return Status::NoConfig;
    };
    let made = boxed_client(alloc, &held, id, seed, top, bottom, leaf, time);
    config.put(held);
    match made {
        Ok(boxed) => {
            client.put(boxed);
            Status::Done
        }
        Err(status) => status,
    }
}
