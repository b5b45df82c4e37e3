//! The values of a script: what each key's value may be, what it says, and how a table's keys are read one by one. Of several
//! faults of a table the first of `TableFault` is reported.
//!
//!     let ids = pair(
//!         needed(alloc, table, "id", &Word),
//!         needed(alloc, table, "tenant", &Word),
//!     );
//!     let (id, tenant) = with_only(ids, table, &["id", "tenant"])?;
#![tactic(auto)]

mod assembly;
mod fault;
mod form;
mod kind;
mod lines;
mod numbers;
mod replica_keys;
mod said;
mod values;

pub use assembly::AssemblerText;
pub use fault::{ScriptFault, ScriptKind, TableFault};
pub use form::{
    Form, is_among, needed, optional, pair, unknown_where, value_at, with_only, wrong_where,
};
pub use kind::Kind;
pub use lines::Lines;
pub use numbers::{Choices, Numbers};
pub use replica_keys::{KEY_LIST_HINTS, KEY_LISTS, KeyShape, ReplicaKeys, read_keys};
pub use said::{
    Client, InstallProfile, MessageName, Node, Number, Operation, ScriptBytes, Secret, node_text,
};
pub use values::{
    AnyTable, BottomHeight, ClientName, DigestDigits, FaultyIndex, ForgedKind, ForgedKindName,
    HexBytes, Integer, KeyHeight, KindName, ListOf, MAX_INTEGER, NodeName, ProfileNumber,
    ReplicaIndex, SecretDigits, SequenceNumber, True, UpTo, Word, table_of,
};
