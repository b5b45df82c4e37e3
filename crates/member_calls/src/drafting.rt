//! A configuration that is written down entry by entry.

ghost use Rattle.std.specs.Prelude.{◌≡◌, ◌≢◌, ◌⊎◌, [], MatchResult};
ghost use Rattle.handles.specs.declared.held.Held.TheVariants as kinds;
ghost use Rattle.member_calls.specs.Inside.{config_of, draft_of};
ghost use Rattle.member_calls.specs.Joining.{client_status, finish_status, replica_status, with_client, with_replica};
ghost use Rattle.member_calls.specs.Keys.{key_in};
ghost use Rattle.member_calls.specs.Statuses.{number_of};
ghost use Rattle.member_calls.specs.declared.status.Status.TheVariants as statuses;

use crate::keys::key_in;
use crate::status::Status;
use handles::{Draft, Held};
use host_types::{ClientEntry, ClientId, TenantId};
use std::alloc::Global;
use std::sync::Arc;

/// A draft for `f` faulty replicas, with a checkpoint at every `k`-th number, in a box. The status is `Memory`.
pub fn new_draft(alloc: Global, f: u8, k: u8) -> Result<Box<Held>, Status>
    ensures { MatchResult result (λ boxed. boxed.value ≡ kinds.Draft (record { f = f; k = k; keys = []; clients = [] }))
        (λ status. status ≡ statuses.Memory) }
{
    match Box::new(alloc, Held::Draft(Draft::new(alloc, f, k))) {
        Ok(boxed) => Ok(boxed),
        Err(_) => Err(Status::Memory),
    }
}

/// Lists the next replica's key in a draft, which stays as it was where the status is another than `Done`.
pub fn list_replica(held: &mut Held, key: &[u8]) -> Status
    ensures status { (result ≡ statuses.Memory) ⊎ (result ≡ replica_status (draft_of held.old) key.now) }
    ensures after { result ≡ statuses.Done → draft_of held.new ≡ with_replica (draft_of held.old) (key_in key.now) }
    ensures kept { (result ≡ statuses.Done) ⊎ (held.new ≡ held.old) }
{
    let Held::Draft(draft) = held else {
        return Status::NoDraft;
    };
    let Some(key) = key_in(key) else {
        return Status::NoKey;
    };
    match draft.add_replica(key) {
        Ok(()) => Status::Done,
        Err(_) => Status::Memory,
    }
}

/// Lists a client, its tenant and its key in a draft, which stays as it was where the status is another than `Done`.
pub fn list_client(held: &mut Held, client: u32, tenant: u32, key: &[u8]) -> Status
    ensures status { (result ≡ statuses.Memory) ⊎ (result ≡ client_status (draft_of held.old) key.now) }
    ensures after { result ≡ statuses.Done → draft_of held.new ≡ with_client (draft_of held.old) client tenant (key_in key.now) }
    ensures kept { (result ≡ statuses.Done) ⊎ (held.new ≡ held.old) }
{
    let Held::Draft(draft) = held else {
        return Status::NoDraft;
    };
    let Some(key) = key_in(key) else {
        return Status::NoKey;
    };
    let entry = ClientEntry {
        id: ClientId(client),
        tenant: TenantId(tenant),
        key,
    };
    match draft.add_client(entry) {
        Ok(()) => Status::Done,
        Err(_) => Status::Memory,
    }
}

/// The configuration that a draft is, in a box. The draft is dropped where there is a status instead.
pub fn finished(alloc: Global, held: Held) -> Result<Box<Held>, Status>
    ensures { MatchResult result (λ boxed. (finish_status (draft_of held) ≡ statuses.Done) × (config_of boxed.value ≡ draft_of held))
        (λ status. (status ≡ statuses.Memory) ⊎ ((status ≡ finish_status (draft_of held)) × (status ≢ statuses.Done))) }
{
    let Held::Draft(draft) = held else {
        return Err(Status::NoDraft);
    };
    let config = match draft.finish() {
        Ok(config) => config,
        Err(fault) => return Err(Status::Config(fault)),
    };
    let Ok(config) = Arc::new(alloc, config) else {
        return Err(Status::Memory);
    };
    match Box::new(alloc, Held::Config(config)) {
        Ok(boxed) => Ok(boxed),
        Err(_) => Err(Status::Memory),
    }
}
