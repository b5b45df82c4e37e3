//! What replicas say that they did, one thing after another, and where their words differ.

ghost use Rattle.std.specs.Prelude.{◌≡◌, ◌⊎◌, Ok, Err, Some, MatchResult};
ghost use Rattle.handles.specs.Accounts.{none_noted};
ghost use Rattle.handles.specs.declared.held.Held.TheVariants as kinds;
ghost use Rattle.member_calls.specs.Accounting.{BegunIn, ComparedIn, MayCompare, compared_as, deed_in, deed_with, execution_in};
ghost use Rattle.member_calls.specs.Statuses.{number_of};
ghost use Rattle.member_calls.specs.declared.status.Status.TheVariants as statuses;

use crate::doing::DoneItem;
use crate::status::Status;
use handles::{Deed, Held, Ledger, Remark};
use host_types::{Bytes, Digest, SeqNo};
use std::alloc::Global;

/// How what a replica did compares with what was noted before.
#[repr(C)]
pub struct Compared {
    /// Its place among all that was noted, from 0 on.
    pub place: u64,
    /// The place of the first of its kind and its number that differs from it; 0 where there is none.
    pub first: u64,
    /// 1 where there is one, else 0.
    pub differs: u32,
    /// 0 for a request that was executed at another number than the replica's last one plus 1, else 1.
    pub follows: u32,
}

/// A ledger in which nothing was noted yet, in a box. The status is `Memory`.
pub fn new_ledger(alloc: Global) -> Result<Box<Held>, Status>
    ensures { MatchResult result (λ boxed. boxed.value ≡ kinds.Ledger none_noted) (λ status. status ≡ statuses.Memory) }
{
    match Box::new(alloc, Held::Ledger(Ledger::new(alloc))) {
        Ok(boxed) => Ok(boxed),
        Err(_) => Err(Status::Memory),
    }
}

/// Says that what another replica did comes now, whose last number was this one.
pub fn begin_ledger(held: &mut Held, last: SeqNo) -> Status
    ensures { BegunIn (Some held.old) last.0 (number_of result) (Some held.new) }
{
    let Held::Ledger(ledger) = held else {
        return Status::NoLedger;
    };
    ledger.begin(last);
    Status::Done
}

/// Notes what the replica did next: an item as `done` tells it, with its result at the front of `answer`. `compared` is written where the
/// status is `Done` alone; else nothing is changed.
pub fn compare(
    alloc: Global,
    held: &mut Held,
    answer: &[u8],
    item: &DoneItem,
    compared: &mut Compared,
) -> Status
    ensures { ComparedIn (Some held.old) answer.now item.now (number_of result) compared.old compared.new (Some held.new) }
{
    let Held::Ledger(ledger) = held else {
        return Status::NoLedger;
    };
    match deed_in(alloc, item, answer) {
        Ok(deed) => note_deed(ledger, deed, compared),
        Err(status) => status,
    }
}

fn note_deed(ledger: &mut Ledger, deed: Deed, compared: &mut Compared) -> Status
    ensures { MayCompare ledger.old (Ok deed) (number_of result) compared.old compared.new ledger.new }
{
    let place = ledger.len();
    match ledger.note(deed) {
        Ok(remark) => {
            tell_remark(place, remark, compared);
            Status::Done
        }
        Err(_) => Status::Memory,
    }
}

fn tell_remark(place: usize, remark: Remark, compared: &mut Compared)
    ensures { compared.new ≡ compared_as place remark }
{
    compared.place = place as u64;
    compared.first = remark.first.unwrap_or(0) as u64;
    compared.differs = u32::from(remark.first.is_some());
    compared.follows = u32::from(remark.follows);
}

/// What an item says, with the bytes beside it. The status is `Memory`, or why it says nothing.
fn deed_in(alloc: Global, item: &DoneItem, answer: &[u8]) -> Result<Deed, Status>
    ensures { MatchResult result (λ deed. deed_in item.now answer.now ≡ Ok deed)
        (λ status. (status ≡ statuses.Memory) ⊎ (deed_in item.now answer.now ≡ Err status)) }
{
    match item.kind {
        0 => execution_in(alloc, item, answer),
        1 => Ok(deed_with(item, None)),
        _ => Err(Status::NoItem),
    }
}

fn execution_in(alloc: Global, item: &DoneItem, answer: &[u8]) -> Result<Deed, Status>
    ensures { MatchResult result (λ deed. execution_in item.now answer.now ≡ Ok deed)
        (λ status. (status ≡ statuses.Memory) ⊎ (execution_in item.now answer.now ≡ Err status)) }
{
    if item.length > answer.len() as u64 {
        return Err(Status::BufferTooShort);
    }
    match Vec::from_slice(alloc, &answer[..item.length as usize]) {
        Ok(said) => Ok(deed_with(item, Some(Bytes::from_vec(said)))),
        Err(_) => Err(Status::Memory),
    }
}

fn deed_with(item: &DoneItem, said: Option<Bytes>) -> Deed
    ensures { result ≡ deed_with item.now said }
{
    Deed {
        number: SeqNo(item.number),
        digest: Digest(item.digest),
        result: said,
    }
}
