//! How the keys of a script's replicas and clients are made.

ghost use Rattle.std.specs.Prelude.{◌≡◌};
ghost use Rattle.toml.specs.View.{table_view};
ghost use Rattle.script_values.specs.Faults.{IsUnlessMemory};
ghost use Rattle.script_values.specs.KeyShapes.{entry_at, keys_in, optional_list};

use crate::fault::TableFault;
use crate::form::{Form, optional, pair};
use crate::values::{BottomHeight, KeyHeight, PerReplica, SpentLeaves};
use host_types::ReplicaId;
use lms_tree::Height;
use pbft_codec::Sequence;
use std::alloc::Global;
use std::marker::Model;
use toml::Table;

/// The keys of a head that are lists with an entry for each replica.
pub const KEY_LISTS: [&str; 3] = ["heights", "bottom", "spent"];

/// What the keys of `KEY_LISTS` take. A line for each key: where it stands, the key, a value that it takes, as TOML or as a word
/// for one of the script's own, and what it takes in words.
pub const KEY_LIST_HINTS: &str =
    r#"head | heights | FIVES | a list with 5 or 10 for each of the 3f + 1 replicas
head | bottom | ZEROS | a list with 0, 5 or 10 for each of the 3f + 1 replicas
head | spent | ZEROS | a list with a number for each of the 3f + 1 replicas, at most 2,048 and no more than its key has leaves
"#;

/// How a key is made: of one tree, or of two levels, and how many of its leaves are used before the first step.
#[derive(Clone, Copy, Debug, PartialEq, Eq)]
pub struct KeyShape {
    /// The height of the one tree, or of the top tree.
    pub height: Height,
    /// The height of the bottom trees, if there are two levels.
    pub bottom: Option<Height>,
    pub spent: u32,
}

impl KeyShape {
    ghost use Rattle.std.specs.Prelude.{◌≡◌};
    ghost use Rattle.script_values.specs.KeyShapes.{has_leaves, leaves_of, unspent};

    /// A key with no leaf used.
    pub fn unspent(height: Height, bottom: Option<Height>) -> KeyShape
        ensures { result ≡ unspent height bottom }
    {
        KeyShape {
            height,
            bottom,
            spent: 0,
        }
    }

    /// How many signatures the key gives in all.
    pub fn leaves(&self) -> u32
        ensures { result ≡ leaves_of self.now }
    {
        match (self.height, self.bottom) {
            (Height::H5, None) => 32,
            (Height::H10, None) => 1_024,
            (Height::H5, Some(Height::H5)) => 1_024,
            (Height::H5, Some(Height::H10)) => 32_768,
            (Height::H10, Some(Height::H5)) => 32_768,
            (Height::H10, Some(Height::H10)) => 1_048_576,
        }
    }

    // Whether it has the leaves that are used.
    fn has_leaves(&self) -> bool
        ensures { result ≡ has_leaves self.now }
    {
        self.spent <= self.leaves()
    }
}

/// What a head says of the replicas' keys, an entry for each replica where it is given.
#[derive(Drop)]
struct KeyLists {
    heights: Option<Sequence<Height>>,
    bottoms: Option<Sequence<Option<Height>>>,
    spent: Option<Sequence<u32>>,
}

impl KeyLists {
    ghost use Rattle.std.specs.Prelude.{◌≡◌};
    ghost use Rattle.script_values.specs.KeyShapes.{can_be_spent, shape_at};

    /// A replica's key: of one tree of height 5 where nothing is given, with no leaf used.
    fn shape(&self, id: usize) -> KeyShape
        ensures { result ≡ shape_at self.now id }
    {
        KeyShape {
            height: entry_at(&self.heights, id, Height::H5),
            bottom: entry_at(&self.bottoms, id, None),
            spent: entry_at(&self.spent, id, 0),
        }
    }

    /// Whether no key has more leaves used than it has.
    fn can_be_spent(&self) -> bool
        ensures { result ≡ can_be_spent self.now }
    {
        let Some(entries) = &self.spent else {
            return true;
        };
        for id in 0..entries.as_slice().len() {
            if !self.shape(id).has_leaves() {
                return false;
            }
        }
        true
    }
}

/// What a head says of the replicas' keys, of which none has more leaves used than it has.
#[derive(Drop)]
pub struct ReplicaKeys {
    lists: KeyLists,
}

impl Model for ReplicaKeys {
    ghost use Rattle.std.specs.Prelude.{◌≡◌, true};
    ghost use Rattle.script_values.specs.declared.replica_keys.KeyLists.{KeyLists};
    ghost use Rattle.script_values.specs.KeyShapes.{can_be_spent};

    ghost Value = { KeyLists };

    ghost view = { λ k. k.lists };

    ghost invariant = { λ k. can_be_spent k.lists ≡ true };
}

impl ReplicaKeys {
    ghost use Rattle.std.specs.Prelude.{◌≡◌, ◌≤◌, MatchOption, false};
    ghost use Rattle.script_values.specs.KeyShapes.{can_be_spent, leaves_of, shape_at};

    /// The keys of these lists; none where more leaves are used than a key has.
    fn new(lists: KeyLists) -> Option<ReplicaKeys>
        ensures { MatchOption result (can_be_spent lists ≡ false) (λ keys. keys ≡ lists) }
    {
        if lists.can_be_spent() {
            Some(ReplicaKeys { lists })
        } else {
            None
        }
    }

    /// How a replica's key is made. It has the leaves that are used.
    pub fn shape(&self, id: ReplicaId) -> KeyShape
        ensures value { result ≡ shape_at self.now id.0 }
        ensures spendable { result.spent ≤ leaves_of result }
    {
        self.lists.shape(usize::from(id.0))
    }
}

/// How the replicas' keys are made. Each list has an entry for each of so many replicas, where their number is known.
/// `WrongValue` where one has not, where an entry is out of its range, or where more leaves are used than a key has.
pub fn read_keys(alloc: Global, count: Option<u8>, table: &Table) -> Result<ReplicaKeys, TableFault>
    ensures { IsUnlessMemory result (keys_in count (table_view table.now)) }
{
    let (heights, (bottoms, spent)) = pair(
        read_list(alloc, table, "heights", count, KeyHeight),
        pair(
            read_list(alloc, table, "bottom", count, BottomHeight),
            read_list(alloc, table, "spent", count, SpentLeaves),
        ),
    )?;
    let lists = KeyLists {
        heights,
        bottoms,
        spent,
    };
    ReplicaKeys::new(lists).ok_or(TableFault::WrongValue)
}

/// A list with an entry for each replica.
fn read_list<F: Form + Copy>(
    alloc: Global,
    table: &Table,
    key: &str,
    count: Option<u8>,
    form: F,
) -> Result<Option<Sequence<F::Says>>, TableFault>
    ensures { IsUnlessMemory result (optional_list (F.reads form) key.now count (table_view table.now)) }
{
    let form = PerReplica { count, form };
    optional(alloc, table, key, &form)
}

/// A replica's entry, or else another.
fn entry_at<T: Copy>(list: &Option<Sequence<T>>, id: usize, other: T) -> T
    ensures { result ≡ entry_at list.now id other }
{
    match list {
        Some(list) => match list.as_slice().get(id) {
            Some(entry) => *entry,
            None => other,
        },
        None => other,
    }
}
