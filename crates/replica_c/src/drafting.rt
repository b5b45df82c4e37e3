//! The exports that write down a configuration.

ghost use Rattle.std.specs.Prelude.{◌≡◌, ◌⊎◌, ◌<◌, [], Some, None};
ghost use Rattle.member_calls.specs.Inside.{config_in, draft_in};
ghost use Rattle.member_calls.specs.Joining.{client_status, finish_status, replica_status, with_client, with_replica};
ghost use Rattle.member_calls.specs.Keys.{key_in};
ghost use Rattle.member_calls.specs.Statuses.{number_of};

use member_calls::{Handle, Status, finished, list_client, list_replica, new_draft};
use std::alloc::Global;

/// Begins a configuration for `f` faulty replicas, with a checkpoint at every `k`-th number. The handle's former content is
/// freed.
#[unsafe(no_mangle)]
pub extern "C" fn bpfh_draft_new(alloc: Global, f: u8, k: u8, draft: &mut Handle) -> u32
    ensures { ((result ≡ 0) × (draft_in draft.new.slot.inside ≡ Some (record { f = f; k = k; keys = []; clients = [] })))
        ⊎ ((result ≡ 21) × (draft.new.slot.inside ≡ None)) }
{
    draft.clear(alloc);
    match new_draft(alloc, f, k) {
        Ok(boxed) => {
            draft.put(boxed);
            Status::Done.number()
        }
        Err(status) => status.number(),
    }
}

/// Lists the next replica's key, of 60 bytes. The draft stays as it was where the status is another than 0.
#[unsafe(no_mangle)]
pub extern "C" fn bpfh_draft_replica(alloc: Global, draft: &mut Handle, key: &[u8]) -> u32
    ensures status { (result ≡ 21) ⊎ (result ≡ number_of (replica_status (draft_in draft.old.slot.inside) key.now)) }
    ensures after { result ≡ 0 → draft_in draft.new.slot.inside ≡ with_replica (draft_in draft.old.slot.inside) (key_in key.now) }
    ensures kept { 0 < result → draft.new.slot.inside ≡ draft.old.slot.inside }
{
    let Some(mut held) = draft.take(alloc) else {
        return Status::NoDraft.number();
    };
    let status = list_replica(&mut held, key);
    draft.put(held);
    status.number()
}

/// Lists a client, the tenant whose procedures it calls, and its key, of 60 bytes. The draft stays as it was where the status
/// is another than 0.
#[unsafe(no_mangle)]
pub extern "C" fn bpfh_draft_client(
    alloc: Global,
    draft: &mut Handle,
    client: u32,
    tenant: u32,
    key: &[u8],
) -> u32
    ensures status { (result ≡ 21) ⊎ (result ≡ number_of (client_status (draft_in draft.old.slot.inside) key.now)) }
    ensures after { result ≡ 0 → draft_in draft.new.slot.inside ≡
        with_client (draft_in draft.old.slot.inside) client tenant (key_in key.now) }
    ensures kept { 0 < result → draft.new.slot.inside ≡ draft.old.slot.inside }
{
    let Some(mut held) = draft.take(alloc) else {
        return Status::NoDraft.number();
    };
    let status = list_client(&mut held, client, tenant, key);
    draft.put(held);
    status.number()
}

/// Makes the configuration that a draft is. The draft's handle is empty then. Where the configuration has a fault, or memory
/// runs out, both handles are empty. The former content of the configuration's handle is freed.
#[unsafe(no_mangle)]
pub extern "C" fn bpfh_config(alloc: Global, draft: &mut Handle, config: &mut Handle) -> u32
    ensures status { (result ≡ 21) ⊎ (result ≡ number_of (finish_status (draft_in draft.old.slot.inside))) }
    ensures config { result ≡ 0 → config_in config.new.slot.inside ≡ draft_in draft.old.slot.inside }
    ensures none { 0 < result → config.new.slot.inside ≡ None }
    ensures spent { draft.new.slot.inside ≡ None }
{
    config.clear(alloc);
    let Some(held) = draft.take(alloc) else {
        return Status::NoDraft.number();
    };
    match finished(alloc, Box::into_inner(held)) {
        Ok(boxed) => {
            config.put(boxed);
            Status::Done.number()
        }
        Err(status) => status.number(),
    }
}
