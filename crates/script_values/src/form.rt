//! Forms: what the value of a key may be, and how a table's keys are read by them.

ghost use Rattle.std.specs.Prelude.{◌≡◌, bytes_eq, map, string_bytes, Result};
ghost use Rattle.std.specs.BTreeMap as tree;
ghost use Rattle.std.specs.List.{list_all, list_any};
ghost use Rattle.std.specs.Option.{option_map};
ghost use Rattle.toml.specs.Data.{Data, get_member};
ghost use Rattle.toml.specs.View.{table_view, view};
ghost use Rattle.script_values.specs.declared.fault.TableFault.{TableFault};
ghost use Rattle.script_values.specs.Faults.{IsUnlessMemory};
ghost use Rattle.script_values.specs.Forms.{pair_of, has_only, needed_key, only_keys, optional_key, unknown_where, wrong_where};

use crate::fault::TableFault;
use std::alloc::Global;
use toml::{Table, Value};

/// What a value may be.
pub trait Form: Drop {
    /// What a value of this form says.
    type Says: Drop;

    ghost reads: { Self → Data → Result Self.Says TableFault };

    /// What the value says. A value of another form is a fault, mostly `WrongValue`; `Memory` may come instead.
    fn read(&self, alloc: Global, value: &Value) -> Result<Self::Says, TableFault>
        ensures { IsUnlessMemory result (reads self.now (view value.now)) };
}

/// The value of a key, if it is there.
pub fn value_at<'a>(table: &'a Table, key: &str) -> Option<&'a Value>
    ensures { option_map (λ v. view v.now) result ≡ get_member key.now (table_view table.now) }
{
    table.get(key)
}

/// What the value of a key says that must be there: `MissingKey` where it isn't, else the value's fault.
pub fn needed<F: Form>(
    alloc: Global,
    table: &Table,
    key: &str,
    form: &F,
) -> Result<F::Says, TableFault>
    ensures { IsUnlessMemory result (needed_key (F.reads form.now) key.now (table_view table.now)) }
{
    match value_at(table, key) {
        Some(value) => form.read(alloc, value),
        None => Err(TableFault::MissingKey),
    }
}

/// What the value of a key says that may be left out. The error is the value's fault.
pub fn optional<F: Form>(
    alloc: Global,
    table: &Table,
    key: &str,
    form: &F,
) -> Result<Option<F::Says>, TableFault>
    ensures { IsUnlessMemory result (optional_key (F.reads form.now) key.now (table_view table.now)) }
{
    match value_at(table, key) {
        Some(value) => Ok(Some(form.read(alloc, value)?)),
        None => Ok(None),
    }
}

/// Two readings as one: of two faults the lesser.
pub fn pair<A: Drop, B: Drop>(
    first: Result<A, TableFault>,
    second: Result<B, TableFault>,
) -> Result<(A, B), TableFault>
    ensures { (a : Result A TableFault) (b : Result B TableFault) → IsUnlessMemory first a → IsUnlessMemory second b → IsUnlessMemory result (pair_of a b) }
{
    match (first, second) {
        (Ok(first), Ok(second)) => Ok((first, second)),
        (Err(first), Err(second)) => Err(first.least(second)),
        (Err(fault), Ok(_)) | (Ok(_), Err(fault)) => Err(fault),
    }
}

/// A reading of a table that has no other keys than these: with another one `UnknownKey`, or the reading's fault if that is
/// less.
pub fn with_only<A: Drop>(
    reading: Result<A, TableFault>,
    table: &Table,
    keys: &[&str],
) -> Result<A, TableFault>
    ensures { (a : Result A TableFault) → IsUnlessMemory reading a → IsUnlessMemory result (only_keys a (map (λ k. k.now) keys.now) (table_view table.now)) }
{
    match (reading, has_only(table, keys)) {
        (reading, true) => reading,
        (Ok(_), false) => Err(TableFault::UnknownKey),
        (Err(fault), false) => Err(fault.least(TableFault::UnknownKey)),
    }
}

/// A reading where this is wrong, besides what is wrong with it: then `WrongValue`, or the reading's fault if that is less.
pub fn wrong_where<A: Drop>(wrong: bool, reading: Result<A, TableFault>) -> Result<A, TableFault>
    ensures { (a : Result A TableFault) → IsUnlessMemory reading a → IsUnlessMemory result (wrong_where wrong a) }
{
    match (reading, wrong) {
        (reading, false) => reading,
        (Ok(_), true) => Err(TableFault::WrongValue),
        (Err(fault), true) => Err(fault.least(TableFault::WrongValue)),
    }
}

/// A reading where a key is unknown, besides what is wrong with it: then `UnknownKey`, or the reading's fault if that is less.
pub fn unknown_where<A: Drop>(
    unknown: bool,
    reading: Result<A, TableFault>,
) -> Result<A, TableFault>
    ensures { (a : Result A TableFault) → IsUnlessMemory reading a → IsUnlessMemory result (unknown_where unknown a) }
{
    match (reading, unknown) {
        (reading, false) => reading,
        (Ok(_), true) => Err(TableFault::UnknownKey),
        (Err(fault), true) => Err(fault.least(TableFault::UnknownKey)),
    }
}

/// Whether each key of a table is one of these.
fn has_only(table: &Table, keys: &[&str]) -> bool
    ensures { result ≡ has_only (map (λ k. k.now) keys.now) (table_view table.now) }
{
    all_among(table, keys)
}

/// The same, of the map that a table is.
fn all_among(table: &Table, keys: &[&str]) -> bool
    ensures { result ≡ list_all (λ key. list_any (λ k. bytes_eq (string_bytes key) k.now) keys.now) (tree.keys table.now) }
{
    table.keys().all(|key| is_among(keys, key.as_str()))
}

/// Whether a key is one of these.
pub fn is_among(keys: &[&str], key: &str) -> bool
    ensures { result ≡ list_any (λ k. bytes_eq key.now k.now) keys.now }
{
    keys.iter().any(|other| key == *other)
}
