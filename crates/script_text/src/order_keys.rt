//! The keys that say in which order messages are delivered, and what goes wrong.

ghost use Rattle.std.specs.Prelude.{◌≡◌, nat_le};
ghost use Rattle.toml.specs.View.{table_view};
ghost use Rattle.script_values.specs.Faults.{IsUnlessMemory};
ghost use Rattle.script_text.specs.Orders.{chance_in, chances_in, chosen_in, drawn_by, drawn_in, total};

use crate::script::{Chances, DeliveryOrder};
use script_values::{Choices, MAX_INTEGER, TableFault, UpTo, needed, optional, pair};
use std::alloc::Global;
use toml::Table;

/// Of how many deliveries chances are counted.
const MAX_CHANCE: u64 = 1_000;

/// The order of a list of choices.
pub(crate) fn read_chosen(alloc: Global, table: &Table) -> Result<DeliveryOrder, TableFault>
    ensures { IsUnlessMemory result (chosen_in (table_view table.now)) }
{
    Ok(DeliveryOrder::Chosen(needed(alloc, table, "choose", &Choices)?))
}

/// The order that a seed draws, with chances; that of the queue where there is neither.
pub(crate) fn read_drawn(alloc: Global, table: &Table) -> Result<DeliveryOrder, TableFault>
    ensures { IsUnlessMemory result (drawn_in (table_view table.now)) }
{
    let (seed, chances) = pair(
        optional(alloc, table, "order", &UpTo(MAX_INTEGER)),
        read_chances(alloc, table),
    )?;
    Ok(drawn_by(seed, chances))
}

/// The order of a seed, if there is one, with these chances.
fn drawn_by(seed: Option<u64>, chances: Chances) -> DeliveryOrder
    ensures { result ≡ drawn_by seed chances }
{
    if chances.lose > 0 || chances.again > 0 || chances.late > 0 {
        let seed = seed.unwrap_or(0);
        return DeliveryOrder::Unreliable { seed, chances };
    }
    match seed {
        Some(seed) => DeliveryOrder::Drawn(seed),
        None => DeliveryOrder::Oldest,
    }
}

/// The chances, each 0 where it is left out.
fn read_chances(alloc: Global, table: &Table) -> Result<Chances, TableFault>
    ensures { IsUnlessMemory result (chances_in (table_view table.now)) }
{
    let (lose, (again, late)) = pair(
        read_chance(alloc, table, "lose"),
        pair(
            read_chance(alloc, table, "again"),
            read_chance(alloc, table, "late"),
        ),
    )?;
    let chances = Chances {
        lose: lose.unwrap_or(0),
        again: again.unwrap_or(0),
        late: late.unwrap_or(0),
    };
    if are_few(chances) {
        Ok(chances)
    } else {
        Err(TableFault::WrongValue)
    }
}

/// The chance of a key, if it is there.
fn read_chance(alloc: Global, table: &Table, key: &str) -> Result<Option<u64>, TableFault>
    ensures { IsUnlessMemory result (chance_in key.now (table_view table.now)) }
{
    optional(alloc, table, key, &UpTo(MAX_CHANCE))
}

/// Whether at most 1,000 of 1,000 deliveries go wrong.
fn are_few(chances: Chances) -> bool
    ensures { result ≡ nat_le (total chances) 1000 }
{
    let Chances { lose, again, late } = chances;
    lose.saturating_add(again).saturating_add(late) <= MAX_CHANCE
}
