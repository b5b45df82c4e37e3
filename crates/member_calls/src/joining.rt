//! Members of a configuration that are made of a seed.

ghost use Rattle.std.specs.Prelude.{◌≡◌, ◌≢◌, ◌⊎◌, ◌≤◌, ◌^◌, Some, Ok, MatchResult};
ghost use Rattle.host_types.specs.Configuration.{Configuration};
ghost use Rattle.lms_tree.specs.SigningState.{SigningState};
ghost use Rattle.client_session.specs.Sessions.{session_behind};
ghost use Rattle.handles.specs.declared.held.Held.TheVariants as kinds;
ghost use Rattle.handles.specs.Members.{first_member};
ghost use Rattle.member_calls.specs.Inside.{config_of};
ghost use Rattle.member_calls.specs.Joining.{JoinsIn, client_key_of, replica_key_of};
ghost use Rattle.member_calls.specs.Keys.{signer_in};
ghost use Rattle.member_calls.specs.declared.status.Status.TheVariants as statuses;

use crate::keys::signer_of;
use crate::status::Status;
use handles::{Client, Held, Member};
use host_types::{ClientId, Config, ReplicaId};
use lms_tree::Signer;
use std::alloc::Global;
use std::sync::Arc;

/// A replica before its first message, with the signer of a seed that has used the leaves below `leaf`, in a box: no leaf
/// from there on may have signed. `NoConfig` comes where no configuration is held, then what is wrong with the seed, then
/// what is listed for the replica.
pub fn boxed_member(
    alloc: Global,
    held: &Held,
    id: ReplicaId,
    seed: &[u8],
    top: u8,
    bottom: u8,
    leaf: u32,
) -> Result<Box<Held>, Status>
    ensures { MatchResult result
        (λ boxed. JoinsIn (replica_key_of id.0) (config_of held.now) (signer_in seed.now top bottom leaf) statuses.Done
        × ((c : Configuration) → (signer : SigningState) → config_of held.now ≡ Some c → signer_in seed.now top bottom leaf ≡ Ok signer
        → boxed.value ≡ kinds.Member (first_member c id.0 signer)))
        (λ status. (status ≡ statuses.Memory) ⊎ ((status ≢ statuses.Done)
        × JoinsIn (replica_key_of id.0) (config_of held.now) (signer_in seed.now top bottom leaf) status)) }
{
    let Held::Config(config) = held else {
        return Err(Status::NoConfig);
    };
    let signer = signer_of(alloc, seed, top, bottom, leaf)?;
    let member = Member::new(alloc, config, id, signer)?;
    match Box::new(alloc, Held::Member(member)) {
        Ok(boxed) => Ok(boxed),
        Err(_) => Err(Status::Memory),
    }
}

/// A client's session whose first request has the time behind `time`, with the signer of a seed that has used the leaves below
/// `leaf`, in a box. It is refused as a replica is.
pub fn boxed_client(
    alloc: Global,
    held: &Held,
    id: ClientId,
    seed: &[u8],
    top: u8,
    bottom: u8,
    leaf: u32,
    time: u64,
) -> Result<Box<Held>, Status>
    requires { time ≤ 2 ^ 63 }
    ensures { MatchResult result
        (λ boxed. JoinsIn (client_key_of id.0) (config_of held.now) (signer_in seed.now top bottom leaf) statuses.Done
        × ((c : Configuration) → (signer : SigningState) → config_of held.now ≡ Some c → signer_in seed.now top bottom leaf ≡ Ok signer
        → boxed.value ≡ kinds.Client (session_behind c id signer time)))
        (λ status. (status ≡ statuses.Memory) ⊎ ((status ≢ statuses.Done)
        × JoinsIn (client_key_of id.0) (config_of held.now) (signer_in seed.now top bottom leaf) status)) }
{
    let Held::Config(config) = held else {
        return Err(Status::NoConfig);
    };
    let signer = signer_of(alloc, seed, top, bottom, leaf)?;
    let client = Client::new(alloc, config, id, signer, time)?;
    match Box::new(alloc, Held::Client(client)) {
        Ok(boxed) => Ok(boxed),
        Err(_) => Err(Status::Memory),
    }
}
