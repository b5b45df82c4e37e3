//! The forms of a script's values.

ghost use Rattle.std.specs.Prelude.{◌≡◌, ◌==◌, [], List, None, Some, Ok, Result, IfOk, MatchResult, filter, find, not};
ghost use Rattle.toml.specs.Data.{as_table};
ghost use Rattle.toml.specs.View.{items_view, table_view, view};
ghost use Rattle.script_values.specs.declared.fault.TableFault.{TableFault};
ghost use Rattle.script_values.specs.declared.fault.TableFault.TheVariants.{WrongValue};
ghost use Rattle.script_values.specs.Forms.{client_named, each_from, faulty_named, is_blank, forged_kind_named, items_in, with_last};
ghost use Rattle.script_values.specs.Faults.{IsUnlessMemory};

use crate::fault::TableFault;
use crate::form::Form;
use crate::kind::Kind;
use crate::said::{Client, InstallProfile, Node, Number, ScriptBytes, Secret};
use hex::{FromHex, FromHexError};
use host_types::limits::SEQUENCE_NUMBER_LIMIT;
use host_types::{Bytes, ClientId, Digest, ReplicaId, SeqNo};
use lms_tree::Height;
use pbft_codec::Sequence;
use seal::VoteKind;
use std::alloc::{AllocError, Global};
use toml::{Table, Value};

/// The most bytes that hex digits give: a script has no more than twice as many.
pub(crate) const MAX_HEX_BYTES: usize = 524_288;

/// The greatest integer of a document.
pub const MAX_INTEGER: u64 = 9_223_372_036_854_775_807;

/// The most leaves that a key may have used at the start.
const MAX_SPENT: u32 = 2_048;

/// Any integer.
#[derive(Clone, Copy)]
pub struct Integer;

impl Form for Integer {
    ghost use Rattle.script_values.specs.Forms.{integer};

    ghost reads = { λ _ d. integer d };

    type Says = i64;

    fn read(&self, _: Global, value: &Value) -> Result<i64, TableFault> {
        value.as_integer().ok_or(TableFault::WrongValue)
    }
}

/// An integer from 0 to a greatest one.
#[derive(Clone, Copy)]
pub struct UpTo(pub u64);

impl Form for UpTo {
    ghost use Rattle.script_values.specs.Forms.{up_to};

    ghost reads = { λ f d. up_to f.0 d };

    type Says = u64;

    fn read(&self, alloc: Global, value: &Value) -> Result<u64, TableFault> {
        let integer = Integer.read(alloc, value)?;
        match u64::try_from(integer) {
            Ok(number) if number <= self.0 => Ok(number),
            _ => Err(TableFault::WrongValue),
        }
    }
}

/// A sequence number.
#[derive(Clone, Copy)]
pub struct SequenceNumber;

impl Form for SequenceNumber {
    ghost use Rattle.script_values.specs.Forms.{sequence_number};

    ghost reads = { λ _ d. sequence_number d };

    type Says = Number;

    fn read(&self, alloc: Global, value: &Value) -> Result<Number, TableFault> {
        let integer = Integer.read(alloc, value)?;
        match u64::try_from(integer) {
            Ok(number) if number < SEQUENCE_NUMBER_LIMIT => Ok(Number::new(SeqNo(number))),
            _ => Err(TableFault::WrongValue),
        }
    }
}

/// An integer of 32 bits.
#[derive(Clone, Copy)]
pub struct Word;

impl Form for Word {
    ghost use Rattle.script_values.specs.Forms.{up_to};

    ghost reads = { λ _ d. up_to 4294967295 d };

    type Says = u32;

    fn read(&self, alloc: Global, value: &Value) -> Result<u32, TableFault> {
        let integer = Integer.read(alloc, value)?;
        u32::try_from(integer).map_err(|_| TableFault::WrongValue)
    }
}

/// The boolean `true`.
#[derive(Clone, Copy)]
pub struct True;

impl Form for True {
    ghost use Rattle.script_values.specs.Forms.{yes};

    ghost reads = { λ _ d. yes d };

    type Says = ();

    fn read(&self, _: Global, value: &Value) -> Result<(), TableFault> {
        match value.as_bool() {
            Some(true) => Ok(()),
            _ => Err(TableFault::WrongValue),
        }
    }
}

/// The height of a key: 5 or 10.
#[derive(Clone, Copy)]
pub struct KeyHeight;

impl Form for KeyHeight {
    ghost use Rattle.script_values.specs.Forms.{height};

    ghost reads = { λ _ d. height d };

    type Says = Height;

    fn read(&self, _: Global, value: &Value) -> Result<Height, TableFault> {
        match value.as_integer() {
            Some(5) => Ok(Height::H5),
            Some(10) => Ok(Height::H10),
            _ => Err(TableFault::WrongValue),
        }
    }
}

/// The height of bottom trees, 5 or 10; none for 0.
#[derive(Clone, Copy)]
pub struct BottomHeight;

impl Form for BottomHeight {
    ghost use Rattle.script_values.specs.Forms.{bottom};

    ghost reads = { λ _ d. bottom d };

    type Says = Option<Height>;

    fn read(&self, _: Global, value: &Value) -> Result<Option<Height>, TableFault> {
        match value.as_integer() {
            Some(0) => Ok(None),
            Some(5) => Ok(Some(Height::H5)),
            Some(10) => Ok(Some(Height::H10)),
            _ => Err(TableFault::WrongValue),
        }
    }
}

/// The number of a profile of the verifier, 1 or 2.
#[derive(Clone, Copy)]
pub struct ProfileNumber;

impl Form for ProfileNumber {
    ghost use Rattle.script_values.specs.Forms.{profile};

    ghost reads = { λ _ d. profile d };

    type Says = InstallProfile;

    fn read(&self, _: Global, value: &Value) -> Result<InstallProfile, TableFault> {
        match value.as_integer() {
            Some(1) => Ok(InstallProfile::One),
            Some(2) => Ok(InstallProfile::Two),
            _ => Err(TableFault::WrongValue),
        }
    }
}

/// A number of leaves that are used at the start.
#[derive(Clone, Copy)]
pub(crate) struct SpentLeaves;

impl Form for SpentLeaves {
    ghost use Rattle.script_values.specs.Forms.{up_to};

    ghost reads = { λ _ d. up_to 2048 d };

    type Says = u32;

    fn read(&self, alloc: Global, value: &Value) -> Result<u32, TableFault> {
        let integer = Integer.read(alloc, value)?;
        match u32::try_from(integer) {
            Ok(number) if number <= MAX_SPENT => Ok(number),
            _ => Err(TableFault::WrongValue),
        }
    }
}

/// 64 hex digits.
#[derive(Clone, Copy)]
pub struct SecretDigits;

impl Form for SecretDigits {
    ghost use Rattle.script_values.specs.Forms.{secret};

    ghost reads = { λ _ d. secret d };

    type Says = Secret;

    fn read(&self, _: Global, value: &Value) -> Result<Secret, TableFault> {
        let Some(text) = value.as_str() else {
            return Err(TableFault::WrongValue);
        };
        match <[u8; 32] as FromHex>::from_hex(text) {
            Ok(bytes) => Ok(Secret(bytes)),
            Err(_) => Err(TableFault::WrongValue),
        }
    }
}

/// A digest of 64 hex digits.
#[derive(Clone, Copy)]
pub struct DigestDigits;

impl Form for DigestDigits {
    ghost use Rattle.script_values.specs.Forms.{digest};

    ghost reads = { λ _ d. digest d };

    type Says = Digest;

    fn read(&self, _: Global, value: &Value) -> Result<Digest, TableFault> {
        let Some(text) = value.as_str() else {
            return Err(TableFault::WrongValue);
        };
        match <[u8; 32] as FromHex>::from_hex(text) {
            Ok(bytes) => Ok(Digest(bytes)),
            Err(_) => Err(TableFault::WrongValue),
        }
    }
}

/// Bytes as hex digits, with blanks and line ends between them.
#[derive(Clone, Copy)]
pub struct HexBytes;

impl Form for HexBytes {
    ghost use Rattle.script_values.specs.Forms.{hex_bytes};

    ghost reads = { λ _ d. hex_bytes d };

    type Says = ScriptBytes;

    fn read(&self, alloc: Global, value: &Value) -> Result<ScriptBytes, TableFault> {
        match value.as_str() {
            Some(text) => HexBytes::decode(alloc, text.as_bytes()),
            None => Err(TableFault::WrongValue),
        }
    }
}

impl HexBytes {
    ghost use Rattle.script_values.specs.Forms.{hex_text};

    /// The bytes of a text of hex digits: `WrongValue` where it is none, or gives more than 524,288 bytes. `Memory` may come
    /// instead.
    pub fn decode(alloc: Global, text: &[u8]) -> Result<ScriptBytes, TableFault>
        ensures { IsUnlessMemory result (hex_text text.now) }
    {
        let digits = without_blanks(alloc, text)?;
        match hex::decode(alloc, digits.as_slice()) {
            Ok(bytes) if bytes.len() <= MAX_HEX_BYTES => {
                Ok(ScriptBytes::new(Bytes::from_vec(bytes)))
            }
            Err(FromHexError::OutOfMemory) => Err(TableFault::Memory),
            _ => Err(TableFault::WrongValue),
        }
    }
}

/// The bytes that are no spaces, tabs or line ends.
fn without_blanks(alloc: Global, text: &[u8]) -> Result<Vec<u8>, AllocError>
    ensures { IfOk result (λ v. v.items ≡ filter (λ b. not (is_blank b)) text.now) }
{
    text.iter()
        .copied()
        .filter(|byte| !is_blank(*byte))
        .collect(alloc)
}

/// Whether a byte is a space, a tab or part of a line end.
fn is_blank(byte: u8) -> bool
    ensures { result ≡ is_blank byte }
{
    byte == b' ' || byte == b'\t' || byte == b'\r' || byte == b'\n'
}

/// The name of a kind of message.
#[derive(Clone, Copy)]
pub struct KindName;

impl Form for KindName {
    ghost use Rattle.script_values.specs.Forms.{kind_name};

    ghost reads = { λ _ d. kind_name d };

    type Says = Kind;

    fn read(&self, _: Global, value: &Value) -> Result<Kind, TableFault> {
        match value.as_str() {
            Some(name) => Kind::named(name).ok_or(TableFault::WrongValue),
            None => Err(TableFault::WrongValue),
        }
    }
}

/// The kind of a message that can be forged.
#[derive(Clone, Copy, Debug, PartialEq, Eq)]
pub enum ForgedKind {
    /// A PrePrepare, Prepare or Commit.
    Vote(VoteKind),
    Checkpoint,
    ViewChange,
}

/// The name of the kind of a forged message.
#[derive(Clone, Copy)]
pub struct ForgedKindName;

impl Form for ForgedKindName {
    ghost use Rattle.script_values.specs.Forms.{forged_kind};

    ghost reads = { λ _ d. forged_kind d };

    type Says = ForgedKind;

    fn read(&self, _: Global, value: &Value) -> Result<ForgedKind, TableFault> {
        match value.as_str() {
            Some(name) => forged_kind_named(name).ok_or(TableFault::WrongValue),
            None => Err(TableFault::WrongValue),
        }
    }
}

/// The kind of forged message of this name.
fn forged_kind_named(name: &str) -> Option<ForgedKind>
    ensures { result ≡ forged_kind_named name.now }
{
    match name {
        "pre-prepare" => Some(ForgedKind::Vote(VoteKind::PrePrepare)),
        "prepare" => Some(ForgedKind::Vote(VoteKind::Prepare)),
        "commit" => Some(ForgedKind::Vote(VoteKind::Commit)),
        "checkpoint" => Some(ForgedKind::Checkpoint),
        "view-change" => Some(ForgedKind::ViewChange),
        _ => None,
    }
}

/// A replica, by its index.
#[derive(Clone, Copy)]
pub struct ReplicaIndex {
    /// How many replicas there are.
    pub count: u8,
}

impl Form for ReplicaIndex {
    ghost use Rattle.script_values.specs.Forms.{replica};

    ghost reads = { λ f d. replica f.count d };

    type Says = ReplicaId;

    fn read(&self, alloc: Global, value: &Value) -> Result<ReplicaId, TableFault> {
        let count = self.count;
        let integer = Integer.read(alloc, value)?;
        let Ok(id) = u8::try_from(integer) else {
            return Err(TableFault::WrongValue);
        };
        if id < count {
            Ok(ReplicaId(id))
        } else {
            Err(TableFault::WrongValue)
        }
    }
}

/// A faulty replica, by its index.
#[derive(Clone, Copy)]
pub struct FaultyIndex<'a> {
    /// The faulty ones.
    pub faulty: &'a [ReplicaId],
}

impl<'a> Form for FaultyIndex<'a> {
    ghost use Rattle.script_values.specs.Forms.{faulty_index};

    ghost reads = { λ f d. faulty_index f.faulty.now d };

    type Says = ReplicaId;

    fn read(&self, alloc: Global, value: &Value) -> Result<ReplicaId, TableFault> {
        let number = Word.read(alloc, value)?;
        faulty_named(self.faulty, number).ok_or(TableFault::WrongValue)
    }
}

/// The faulty replica of this index.
fn faulty_named(faulty: &[ReplicaId], number: u32) -> Option<ReplicaId>
    ensures { result ≡ faulty_named faulty.now number }
{
    faulty
        .iter()
        .copied()
        .find(|replica| u32::from(replica.0) == number)
}

/// The client of this id.
fn client_named(clients: &[Client], number: u32) -> Option<ClientId>
    ensures { result ≡ client_named clients.now number }
{
    match client_with(clients, number) {
        Some(client) => Some(client.id),
        None => None,
    }
}

fn client_with(clients: &[Client], number: u32) -> Option<Client>
    ensures { result ≡ find (λ client. client.id.0 == number) clients.now }
{
    clients.iter().copied().find(|client| client.id.0 == number)
}

/// A client of the script, by its id.
#[derive(Clone, Copy)]
pub struct ClientName<'a> {
    /// The clients that a script lists.
    pub clients: &'a [Client],
}

impl<'a> Form for ClientName<'a> {
    ghost use Rattle.script_values.specs.Forms.{client_name};

    ghost reads = { λ f d. client_name f.clients.now d };

    type Says = ClientId;

    fn read(&self, alloc: Global, value: &Value) -> Result<ClientId, TableFault> {
        let number = Word.read(alloc, value)?;
        client_named(self.clients, number).ok_or(TableFault::WrongValue)
    }
}

/// A replica or a client of the script.
#[derive(Clone, Copy)]
pub struct NodeName<'a> {
    /// How many replicas there are.
    pub count: u8,
    /// The clients that a script lists.
    pub clients: &'a [Client],
}

impl<'a> Form for NodeName<'a> {
    ghost use Rattle.script_values.specs.Forms.{node};

    ghost reads = { λ f d. node f.count f.clients.now d };

    type Says = Node;

    fn read(&self, alloc: Global, value: &Value) -> Result<Node, TableFault> {
        let replica = ReplicaIndex { count: self.count };
        match replica.read(alloc, value) {
            Ok(id) => Ok(Node::Replica(id)),
            Err(TableFault::Memory) => Err(TableFault::Memory),
            Err(_) => {
                let client = ClientName {
                    clients: self.clients,
                };
                Ok(Node::Client(client.read(alloc, value)?))
            }
        }
    }
}

/// A list of values of one form.
#[derive(Clone, Copy)]
pub struct ListOf<F>(pub F);

impl<F: Form + Copy> Form for ListOf<F> {
    ghost use Rattle.script_values.specs.Forms.{list_of};

    ghost reads = { λ f d. list_of (F.reads f.0) d };

    type Says = Sequence<F::Says>;

    fn read(&self, alloc: Global, value: &Value) -> Result<Sequence<F::Says>, TableFault> {
        let Some(values) = value.as_array() else {
            return Err(TableFault::WrongValue);
        };
        Ok(Sequence::from_vec(read_each(alloc, values, &self.0)?))
    }
}

/// What each value says; of several faults the least.
fn read_each<F: Form>(alloc: Global, values: &[Value], form: &F) -> Result<Vec<F::Says>, TableFault>
    ensures { IsUnlessMemory (items_in result) (each_from (F.reads form.now) (Ok []) (items_view values.now)) }
{
    let mut read = Ok(Vec::new(alloc));
    for value in values {
        read = with_one(read, form.read(alloc, value));
    }
    read
}

/// A list with one entry more: of two faults the lesser.
fn with_one<T: Drop>(
    list: Result<Vec<T>, TableFault>,
    one: Result<T, TableFault>,
) -> Result<Vec<T>, TableFault>
    ensures { (l : Result (List T) TableFault) (o : Result T TableFault) → IsUnlessMemory (items_in list) l → IsUnlessMemory one o → IsUnlessMemory (items_in result) (with_last l o) }
{
    match (list, one) {
        (Ok(mut list), Ok(one)) => {
            list.push(one)?;
            Ok(list)
        }
        (Err(first), Err(second)) => Err(first.least(second)),
        (Err(fault), Ok(_)) | (Ok(_), Err(fault)) => Err(fault),
    }
}

/// A list with one entry for each replica; of any length where their number is not known.
#[derive(Clone, Copy)]
pub(crate) struct PerReplica<F> {
    pub count: Option<u8>,
    pub form: F,
}

impl<F: Form + Copy> Form for PerReplica<F> {
    ghost use Rattle.script_values.specs.Forms.{per_replica};

    ghost reads = { λ f d. per_replica f.count (F.reads f.form) d };

    type Says = Sequence<F::Says>;

    fn read(&self, alloc: Global, value: &Value) -> Result<Sequence<F::Says>, TableFault> {
        let read = ListOf(self.form).read(alloc, value)?;
        match self.count {
            Some(count) if read.as_slice().len() != usize::from(count) => {
                Err(TableFault::WrongValue)
            }
            _ => Ok(read),
        }
    }
}

/// Any table.
#[derive(Clone, Copy)]
pub struct AnyTable;

impl Form for AnyTable {
    ghost use Rattle.script_values.specs.Forms.{any_table};

    ghost reads = { λ _ d. any_table d };

    type Says = ();

    fn read(&self, _: Global, value: &Value) -> Result<(), TableFault> {
        match value.as_table() {
            Some(_) => Ok(()),
            None => Err(TableFault::WrongValue),
        }
    }
}

/// The table that a value is: `WrongValue` where it is none.
pub fn table_of(value: &Value) -> Result<&Table, TableFault>
    ensures { MatchResult result (λ t. as_table (view value.now) ≡ Some (table_view t.now)) (λ fault. (fault ≡ WrongValue) × (as_table (view value.now) ≡ None)) }
{
    value.as_table().ok_or(TableFault::WrongValue)
}
