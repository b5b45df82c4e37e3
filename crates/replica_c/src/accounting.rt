//! The exports that compare what replicas say they did.

ghost use Rattle.std.specs.Prelude.{◌≡◌, ◌⊎◌, Some, None};
ghost use Rattle.member_calls.specs.Accounting.{BegunIn, ComparedIn};
ghost use Rattle.member_calls.specs.Inside.{ledger_in};
ghost use Rattle.member_calls.specs.Words.{none_noted};

use member_calls::{Compared, DoneItem, Handle, SeqNo, Status, begin_ledger, compare, new_ledger};
use std::alloc::Global;

/// Makes a ledger in which nothing was noted yet, and in which what a replica did before its first number comes next. The handle's former
/// content is freed.
#[unsafe(no_mangle)]
pub extern "C" fn bpfh_ledger_new(alloc: Global, ledger: &mut Handle) -> u32
    ensures { ((result ≡ 0) × (ledger_in ledger.new.slot.inside ≡ Some none_noted)) ⊎ ((result ≡ 21) × (ledger.new.slot.inside ≡ None)) }
{
    ledger.clear(alloc);
    match new_ledger(alloc) {
        Ok(boxed) => {
            ledger.put(boxed);
            Status::Done.number()
        }
        Err(status) => status.number(),
    }
}

/// Says that what another replica did comes now, whose last number was this one: 0 where all of it comes.
#[unsafe(no_mangle)]
pub extern "C" fn bpfh_ledger_begin(alloc: Global, ledger: &mut Handle, last: u64) -> u32
    ensures { BegunIn ledger.old.slot.inside last result ledger.new.slot.inside }
{
    let Some(mut held) = ledger.take(alloc) else {
        return Status::NoLedger.number();
    };
    let status = begin_ledger(&mut held, SeqNo(last));
    ledger.put(held);
    status.number()
}

/// Notes what the replica did next, as `bpfh_replica_done` tells it: `compared` is its place among all that was noted, the first of its
/// kind and its number that differs from it, and whether it follows on the last number. Where the status isn't 0, nothing is changed.
#[unsafe(no_mangle)]
pub extern "C" fn bpfh_ledger_note(
    alloc: Global,
    ledger: &mut Handle,
    answer: &[u8],
    item: &DoneItem,
    compared: &mut Compared,
) -> u32
    ensures { ComparedIn ledger.old.slot.inside answer.now item.now result compared.old compared.new ledger.new.slot.inside }
{
    let Some(mut held) = ledger.take(alloc) else {
        return Status::NoLedger.number();
    };
    let status = compare(alloc, &mut held, answer, item, compared);
    ledger.put(held);
    status.number()
}
