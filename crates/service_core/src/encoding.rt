//! The canonical encoding of a state, version 2, piece by piece into a sink.

ghost use Rattle.std.specs.Prelude.{◌≡◌, ◌≤◌, ◌<◌, ◌^◌, ◌++◌, ℕ, length, map, OnOk, flat_map, All};
ghost use Rattle.service_model.specs.Words.{u32_bytes, u64_bytes};
ghost use Rattle.service_model.specs.declared.version.Version.TheVariants.{Second};
ghost use Rattle.tenant_parts.specs.Procedures.{procedure_of};
ghost use Rattle.service_core.specs.Sinks.{Feeds};
ghost use Rattle.service_model.specs.Encoding.{length_prefixed, encoded_reply, encoded_procedure, encoded_procedures, encoded_entries, encoded_tenant};

use crate::sink::Sink;
use host_types::Reply;
use tenant_maps::{MapPort, TenantMap};
use tenant_parts::{Procedure, TenantPart};

/// How many entries go into a sink at once: a hash takes one piece faster than as many small ones.
const ENTRIES_IN_PIECE: usize = 16;

/// A number in four bytes.
#[tactic(auto, unfolding(service_model::specs::Words::u32_bytes))]
pub(crate) fn put_u32<S: Sink>(sink: &mut S, number: u32) -> Result<(), S::Fault>
    ensures { OnOk result (Feeds S.holds sink.old sink.new (u32_bytes number)) }
{
    sink.emit(&number.to_be_bytes())
}

/// A number in eight bytes.
#[tactic(auto, unfolding(service_model::specs::Words::u64_bytes))]
pub(crate) fn put_u64<S: Sink>(sink: &mut S, number: u64) -> Result<(), S::Fault>
    ensures { OnOk result (Feeds S.holds sink.old sink.new (u64_bytes number)) }
{
    sink.emit(&number.to_be_bytes())
}

/// Bytes after their length.
fn put_length_prefixed<S: Sink>(sink: &mut S, bytes: &[u8]) -> Result<(), S::Fault>
    requires { length bytes.now < 2 ^ 32 }
    ensures { OnOk result (Feeds S.holds sink.old sink.new (length_prefixed bytes.now)) }
{
    put_u32(sink, bytes.len() as u32)?;
    sink.emit(bytes)
}

/// A client's last reply.
pub(crate) fn put_reply<S: Sink>(sink: &mut S, reply: &Reply) -> Result<(), S::Fault>
    requires { length reply.now.result < 2 ^ 32 }
    ensures { OnOk result (Feeds S.holds sink.old sink.new (encoded_reply reply.now)) }
{
    put_u32(sink, reply.client.0)?;
    put_u64(sink, reply.time)?;
    put_u64(sink, reply.number.0)?;
    put_length_prefixed(sink, reply.result.as_slice())
}

/// A procedure: its profile and its code.
fn put_procedure<S: Sink>(sink: &mut S, procedure: &Procedure) -> Result<(), S::Fault>
    ensures { OnOk result (Feeds S.holds sink.old sink.new (encoded_procedure Second (procedure_of procedure.now))) }
{
    sink.emit(&[procedure.profile()])?;
    put_length_prefixed(sink, procedure.code())
}

/// A tenant's procedures.
fn put_procedures<S: Sink>(sink: &mut S, procedures: &[Procedure]) -> Result<(), S::Fault>
    requires { length procedures.now ≤ 64 }
    ensures { OnOk result (Feeds S.holds sink.old sink.new (encoded_procedures Second (map procedure_of procedures.now))) }
{
    put_u32(sink, procedures.len() as u32)?;
    for procedure in procedures {
        put_procedure(sink, procedure)?;
    }
    Ok(())
}

/// A tenant's entries.
fn put_entries<S: Sink>(sink: &mut S, entries: &TenantMap) -> Result<(), S::Fault>
    ensures { OnOk result (Feeds S.holds sink.old sink.new (encoded_entries entries.now.entries)) }
{
    put_u32(sink, entries.len() as u32)?;
    let mut piece = [[0; 48]; ENTRIES_IN_PIECE];
    let mut count = 0;
    for (key, value) in entries.entries() {
        piece[count] = entry_bytes(key, value);
        count += 1;
        if count == ENTRIES_IN_PIECE {
            sink.emit(piece.as_flattened())?;
            count = 0;
        }
    }
    sink.emit(piece[..count].as_flattened())
}

/// An entry: its key and its value.
fn entry_bytes(key: &[u8; 16], value: &[u8; 32]) -> [u8; 48]
    ensures { result ≡ key.now ++ value.now }
{
    let mut entry = [0; 48];
    entry[..16].copy_from_slice(key);
    entry[16..].copy_from_slice(value);
    entry
}

/// A tenant's part without its clients' replies.
pub(crate) fn put_tenant<S: Sink>(sink: &mut S, part: &TenantPart) -> Result<(), S::Fault>
    ensures { OnOk result (Feeds S.holds sink.old sink.new (encoded_tenant Second part.now)) }
{
    put_u32(sink, part.tenant().0)?;
    put_procedures(sink, part.procedures())?;
    put_entries(sink, part.entries())
}
