//! Reading the tenants' parts of a state: each gives its value and the bytes behind it.

ghost use Rattle.std.specs.Prelude.{◌≡◌, ◌≢◌, ◌≤◌, ◌++◌, ℕ, List, length, flat_map, map, All, IfOk, MatchBool};
ghost use Rattle.service_model.specs.declared.version.Version.TheVariants.{Second};
ghost use Rattle.std.specs.FinMap as finite;
ghost use Rattle.service_model.specs.VerifyFault.TheVariants as faults;
ghost use Rattle.service_core.specs.declared.state_fault.StateFault.TheVariants.{BadState, Memory};
ghost use Rattle.service_model.specs.Words.{u32_bytes};
ghost use Rattle.host_types.specs.Configuration.{tenants_of, entry_of};
ghost use Rattle.service_model.specs.TenantStates.{replies_of};
ghost use Rattle.service_model.specs.Encoding.{encoded_procedure, encoded_procedures, encoded_entries, encoded_tenant};
ghost use Rattle.service_model.specs.Versions.{encoded_profile, IsTold};
ghost use Rattle.service_model.specs.Bounded.{IsSizedMap};
ghost use Rattle.tenant_parts.specs.Procedures.{procedure_of};
ghost use Rattle.service_core.specs.Readings.{Reads, IsProcedureIn, AreProcedures, AreContents, encoded_contents, ArePartsOf, HaveReplies, AreSizedEntries, IsAbove, is_of, replies_to_tenant};

use crate::reader::{read_count, read_length_prefixed, read_u32};
use crate::state_fault::StateFault;
use bpf_decode::{MAX_SLOTS, SLOT_SIZE};
use host_types::{ClientId, Config, Reply, TenantId};
use service_model::{Profile, Version};
use std::alloc::{AllocError, Global};
use tenant_maps::{MAX_ENTRIES, MapPort, TenantMap};
use tenant_parts::{MAX_PROCEDURES, Procedure, TenantPart, VerifyFault, copy_of, verify_under};

/// The most bytes of a procedure.
const MAX_CODE: u32 = (SLOT_SIZE * MAX_SLOTS) as u32;

/// A profile, by its number.
fn read_profile_number(bytes: &[u8]) -> Result<(Profile, &[u8]), StateFault>
    ensures { Reads (λ x. (x.0, x.1.now)) (encoded_profile Second) (IsTold Second) bytes.now result }
{
    let Some((number, rest)) = bytes.split_first() else {
        return Err(StateFault::BadState);
    };
    match Profile::of(*number) {
        Some(profile) => Ok((profile, rest)),
        None => Err(StateFault::BadState),
    }
}

/// A procedure's profile: the first one in version 1, where none stands.
fn read_profile(version: Version, bytes: &[u8]) -> Result<(Profile, &[u8]), StateFault>
    ensures { Reads (λ x. (x.0, x.1.now)) (encoded_profile version) (IsTold version) bytes.now result }
{
    match version {
        Version::First => Ok((Profile::One, bytes)),
        Version::Second => read_profile_number(bytes),
    }
}

/// A procedure, which is verified anew under its profile.
fn read_procedure(
    alloc: Global,
    version: Version,
    bytes: &[u8],
) -> Result<(Procedure, &[u8]), StateFault>
    ensures { Reads (λ x. (procedure_of x.0, x.1.now)) (encoded_procedure version) (IsProcedureIn version) bytes.now result }
{
    let (profile, rest) = read_profile(version, bytes)?;
    let (code, rest) = read_length_prefixed(MAX_CODE, rest)?;
    match verify_under(alloc, profile, code) {
        Ok(procedure) => Ok((procedure, rest)),
        Err(refusal) => Err(fault_of_refusal(refusal.fault)),
    }
}

/// So many procedures.
fn read_procedures_of(
    alloc: Global,
    version: Version,
    count: u32,
    bytes: &[u8],
) -> Result<(Vec<Procedure>, &[u8]), StateFault>
    ensures { Reads (λ x. (map procedure_of x.0.items, x.1.now)) (flat_map (encoded_procedure version))
        (λ procedures. (length procedures ≡ count) × All (IsProcedureIn version) procedures) bytes.now result }
{
    let mut procedures = Vec::new(alloc);
    let mut rest = bytes;
    for _ in 0..count {
        let (procedure, after) = read_procedure(alloc, version, rest)?;
        procedures.push(procedure)?;
        rest = after;
    }
    Ok((procedures, rest))
}

/// A tenant's procedures.
fn read_procedures(
    alloc: Global,
    version: Version,
    bytes: &[u8],
) -> Result<(Vec<Procedure>, &[u8]), StateFault>
    ensures { Reads (λ x. (map procedure_of x.0.items, x.1.now)) (encoded_procedures version) (AreProcedures version) bytes.now result }
{
    let (count, rest) = read_count(MAX_PROCEDURES as u32, bytes)?;
    read_procedures_of(alloc, version, count, rest)
}

/// A key and a value.
fn read_entry(bytes: &[u8]) -> Result<([u8; 16], [u8; 32], &[u8]), StateFault>
    ensures { Reads {A = List ℕ × List ℕ} (λ x. ((x.0, x.1), x.2.now)) (λ entry. entry.0 ++ entry.1) (λ entry. (length entry.0 ≡ 16) × (length entry.1 ≡ 32)) bytes.now result }
{
    if bytes.len() < 48 {
        return Err(StateFault::BadState);
    }
    let (front, rest) = bytes.split_at(48);
    let mut key = [0; 16];
    key.copy_from_slice(&front[..16]);
    let mut value = [0; 32];
    value.copy_from_slice(&front[16..]);
    Ok((key, value, rest))
}

/// Whether the key is above all keys of the map.
fn is_above(entries: &TenantMap, key: &[u8; 16]) -> bool
    ensures { MatchBool result (IsAbove entries.now.entries key.now) (IsAbove entries.now.entries key.now → ⊥) }
{
    entries.get(key).is_none() && entries.next(key).is_none()
}

/// So many entries, by key ascending.
fn read_entries_of(
    alloc: Global,
    count: u32,
    bytes: &[u8],
) -> Result<(TenantMap, &[u8]), StateFault>
    requires { count ≤ 4096 }
    ensures { Reads (λ x. (x.0.entries, x.1.now)) (λ entries. flat_map (λ entry. entry.0 ++ entry.1) (finite.entries entries))
        (AreSizedEntries count) bytes.now result }
{
    let mut entries = TenantMap::new(alloc);
    let mut rest = bytes;
    for _ in 0..count {
        let (key, value, after) = read_entry(rest)?;
        if !is_above(&entries, &key) {
            return Err(StateFault::BadState);
        }
        entries.put(key, value)?;
        rest = after;
    }
    Ok((entries, rest))
}

/// A tenant's entries.
fn read_entries(alloc: Global, bytes: &[u8]) -> Result<(TenantMap, &[u8]), StateFault>
    ensures { Reads (λ x. (x.0.entries, x.1.now)) encoded_entries IsSizedMap bytes.now result }
{
    let (count, rest) = read_count(MAX_ENTRIES as u32, bytes)?;
    read_entries_of(alloc, count, rest)
}

/// What the bytes of the tenant with this id say of it besides the id.
fn read_contents(
    alloc: Global,
    version: Version,
    tenant: u32,
    bytes: &[u8],
) -> Result<(Vec<Procedure>, TenantMap, &[u8]), StateFault>
    ensures { Reads (λ x. ((map procedure_of x.0.items, x.1.entries), x.2.now)) (encoded_contents version tenant) (AreContents version) bytes.now result }
{
    let (id, rest) = read_u32(bytes)?;
    if id != tenant {
        return Err(StateFault::BadState);
    }
    let (procedures, rest) = read_procedures(alloc, version, rest)?;
    let (entries, rest) = read_entries(alloc, rest)?;
    Ok((procedures, entries, rest))
}

/// Whether a client is listed as one of this tenant.
fn is_client_of(config: &Config, tenant: TenantId, client: ClientId) -> bool
    ensures { result ≡ is_of tenant.0 (entry_of config.now.clients client.0) }
{
    match config.client(client) {
        Some(entry) => entry.tenant.0 == tenant.0,
        None => false,
    }
}

/// Copies of the replies to the clients of a tenant.
fn replies_of_tenant(
    alloc: Global,
    config: &Config,
    tenant: TenantId,
    replies: &[Reply],
) -> Result<Vec<Reply>, AllocError>
    ensures { IfOk result (λ last_replies. last_replies.items ≡ replies_to_tenant config.now.clients tenant.0 replies.now) }
{
    let mut last_replies = Vec::new(alloc);
    for reply in replies {
        if is_client_of(config, tenant, reply.client) {
            let copy = copy_of(alloc, reply)?;
            last_replies.push(copy)?;
        }
    }
    Ok(last_replies)
}

/// The part of this tenant, with the replies to its clients.
fn read_part<'a>(
    alloc: Global,
    version: Version,
    config: &Config,
    tenant: TenantId,
    replies: &[Reply],
    bytes: &'a [u8],
) -> Result<(TenantPart, &'a [u8]), StateFault>
    requires { All (λ reply. length reply.result ≤ 265) replies.now }
    ensures read { Reads (λ x. ((x.0.procedures, x.0.entries), x.1.now)) (encoded_contents version tenant.0) (AreContents version) bytes.now result }
    ensures tenant { IfOk result (λ x. x.0.tenant ≡ tenant.0) }
    ensures replies { IfOk result (λ x. x.0.last_replies ≡ replies_of (replies_to_tenant config.now.clients tenant.0 replies.now)) }
{
    let (procedures, entries, rest) = read_contents(alloc, version, tenant.0, bytes)?;
    let last_replies = replies_of_tenant(alloc, config, tenant, replies)?;
    let part = TenantPart::with(alloc, tenant, procedures, entries, last_replies);
    Ok((part, rest))
}

/// The parts of these tenants, each with the replies to its clients.
fn read_parts<'a>(
    alloc: Global,
    version: Version,
    config: &Config,
    tenants: &[TenantId],
    replies: &[Reply],
    bytes: &'a [u8],
) -> Result<(Vec<TenantPart>, &'a [u8]), StateFault>
    requires { All (λ reply. length reply.result ≤ 265) replies.now }
    ensures read { Reads (λ x. (x.0.items, x.1.now)) (flat_map (encoded_tenant version)) (ArePartsOf version tenants.now) bytes.now result }
    ensures replies { IfOk result (λ x. HaveReplies config.now.clients replies.now x.0.items) }
{
    let mut parts = Vec::new(alloc);
    let mut rest = bytes;
    for tenant in tenants {
        let (part, after) = read_part(alloc, version, config, *tenant, replies, rest)?;
        parts.push(part)?;
        rest = after;
    }
    Ok((parts, rest))
}

/// The parts of the configuration's tenants after their count, each with the replies to its clients.
pub(crate) fn read_tenants<'a>(
    alloc: Global,
    version: Version,
    config: &Config,
    replies: &[Reply],
    bytes: &'a [u8],
) -> Result<(Vec<TenantPart>, &'a [u8]), StateFault>
    requires { All (λ reply. length reply.result ≤ 265) replies.now }
    ensures read { Reads (λ x. (x.0.items, x.1.now)) (λ parts. u32_bytes (length parts) ++ flat_map (encoded_tenant version) parts)
        (ArePartsOf version (tenants_of config.now.clients)) bytes.now result }
    ensures replies { IfOk result (λ x. HaveReplies config.now.clients replies.now x.0.items) }
{
    let all = config.tenant_ids();
    let ids = all.as_slice();
    let (count, rest) = read_u32(bytes)?;
    if count as usize != ids.len() {
        return Err(StateFault::BadState);
    }
    read_parts(alloc, version, config, ids, replies, rest)
}

/// What a refusal of the verifier is to a state: memory that ran out stays that.
fn fault_of_refusal(fault: VerifyFault) -> StateFault
    ensures memory { fault ≡ faults.Memory → result ≡ Memory }
    ensures refused { fault ≢ faults.Memory → result ≡ BadState }
{
    match fault {
        VerifyFault::Memory => StateFault::Memory,
        _ => StateFault::BadState,
    }
}
