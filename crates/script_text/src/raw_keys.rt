//! The keys of raw bytes.

ghost use Rattle.std.specs.Prelude.{◌≡◌, ℕ, List, Option, Result, codes, map};
ghost use Rattle.toml.specs.View.{table_view};
ghost use Rattle.script_values.specs.declared.fault.TableFault.{TableFault};
ghost use Rattle.script_text.specs.declared.script.Damage.{Damage as DamageSaid};
ghost use Rattle.script_text.specs.declared.script.Damage.TheVariants as damages;
ghost use Rattle.script_values.specs.declared.said.Node.{Node as NodeSaid};
ghost use Rattle.script_text.specs.declared.script.Payload.{Payload as PayloadSaid};
ghost use Rattle.script_values.specs.Faults.{IsUnlessMemory};
ghost use Rattle.script_text.specs.Steps.{bytes_in, change_at, message_with, raw_from, raw_in, raw_with};

use crate::naming::GivenName;
use crate::script::{Damage, Payload, QueueEdit, Step};
use crate::step_keys::Names;
use pbft_codec::Sequence;
use script_values::{
    HexBytes, ListOf, MAX_INTEGER, Node, NodeName, TableFault, UpTo, needed, optional, pair,
    value_at, with_only,
};
use std::alloc::Global;
use toml::Table;

const BYTES_KEYS: [&str; 4] = ["do", "to", "bytes", "as"];

const CUT_KEYS: [&str; 5] = ["do", "to", "message", "cut", "as"];

const FLIP_KEYS: [&str; 5] = ["do", "to", "message", "flip", "as"];

/// Raw bytes: those of the step where it gives some, else those of a message that has a name.
pub(crate) fn read_raw(alloc: Global, names: &Names<'_>, table: &Table) -> Result<Step, TableFault>
    ensures { IsUnlessMemory result (raw_in names.now.count names.now.clients.now names.now.earlier.now (table_view table.now)) }
{
    if value_at(table, "bytes").is_some() {
        let bytes = read_bytes(alloc, table);
        read_raw_of(alloc, names, table, bytes, &BYTES_KEYS)
    } else if value_at(table, "cut").is_some() {
        let message = read_message(alloc, names, table, read_cut(alloc, table));
        read_raw_of(alloc, names, table, message, &CUT_KEYS)
    } else {
        let message = read_message(alloc, names, table, read_flip(alloc, table));
        read_raw_of(alloc, names, table, message, &FLIP_KEYS)
    }
}

/// Bytes for these addressees, in a table of these keys.
fn read_raw_of(
    alloc: Global,
    names: &Names<'_>,
    table: &Table,
    payload: Result<Payload, TableFault>,
    keys: &[&str],
) -> Result<Step, TableFault>
    ensures { (p : Result PayloadSaid TableFault) → IsUnlessMemory payload p → IsUnlessMemory result (raw_with p (map (λ k. k.now) keys.now) names.now.count names.now.clients.now (table_view table.now)) }
{
    let nodes = ListOf(NodeName {
        count: names.count,
        clients: names.clients,
    });
    let named = pair(payload, needed(alloc, table, "to", &nodes));
    as_raw(with_only(named, table, keys))
}

/// What was read of raw bytes, as a step.
fn as_raw(read: Result<(Payload, Sequence<Node>), TableFault>) -> Result<Step, TableFault>
    ensures { (r : Result (PayloadSaid × List NodeSaid) TableFault) → IsUnlessMemory read r → IsUnlessMemory result (raw_from r) }
{
    match read {
        Ok((payload, to)) => Ok(Step::Edit(QueueEdit::Raw { to, payload })),
        Err(fault) => Err(fault),
    }
}

/// Bytes that the step gives.
fn read_bytes(alloc: Global, table: &Table) -> Result<Payload, TableFault>
    ensures { IsUnlessMemory result (bytes_in (table_view table.now)) }
{
    Ok(Payload::Bytes(needed(alloc, table, "bytes", &HexBytes)?))
}

/// Those of a message that has a name, with this change.
fn read_message(
    alloc: Global,
    names: &Names<'_>,
    table: &Table,
    change: Result<Option<Damage>, TableFault>,
) -> Result<Payload, TableFault>
    ensures { (c : Result (Option DamageSaid) TableFault) → IsUnlessMemory change c → IsUnlessMemory result (message_with c names.now.earlier.now (table_view table.now)) }
{
    let given = GivenName {
        earlier: names.earlier,
    };
    let (name, change) = pair(needed(alloc, table, "message", &given), change)?;
    Ok(Payload::Message { name, change })
}

/// How many of the last bytes are cut off, if any are.
fn read_cut(alloc: Global, table: &Table) -> Result<Option<Damage>, TableFault>
    ensures { IsUnlessMemory result (change_at damages.Cut (codes "cut") (table_view table.now)) }
{
    match optional(alloc, table, "cut", &UpTo(MAX_INTEGER))? {
        Some(many) => Ok(Some(Damage::Cut(many))),
        None => Ok(None),
    }
}

/// The byte of which a bit is flipped, if one is.
fn read_flip(alloc: Global, table: &Table) -> Result<Option<Damage>, TableFault>
    ensures { IsUnlessMemory result (change_at damages.Flip (codes "flip") (table_view table.now)) }
{
    match optional(alloc, table, "flip", &UpTo(MAX_INTEGER))? {
        Some(places) => Ok(Some(Damage::Flip(places))),
        None => Ok(None),
    }
}
