//! What a replica did to its state, as C reads it.

ghost use Rattle.std.specs.Prelude.{◌≡◌, Some, None};
ghost use Rattle.member_calls.specs.Doing.{DoneIn, DoneOf, DoneTold};
ghost use Rattle.member_calls.specs.Inside.{member_of};

use crate::status::Status;
use handles::{Done, Held, Row, tell};
use std::alloc::Global;

/// What a replica did to its state.
#[repr(C)]
pub struct DoneItem {
    /// 0 where a request was executed, 1 where a state was installed.
    pub kind: u32,
    /// The number at which the request was executed, or whose state was installed.
    pub number: u64,
    /// The digest of the request, or of the state's bytes.
    pub digest: [u8; 32],
    /// How many bytes the request's result has; none where there is no reply.
    pub length: u64,
}

/// Tells what the last step did to the replica's state, by its place from 0 on. Where the buffer is too short only `item` is
/// written.
pub fn done(held: &Held, index: u32, answer: &mut [u8], item: &mut DoneItem) -> u32
    ensures { DoneIn (member_of held.now) index result item.new answer.old answer.new }
{
    let Held::Member(member) = held else {
        return Status::NoReplica.number();
    };
    match member.row() {
        Some(row) => done_of(row, index, answer, item),
        None => Status::NoRow.number(),
    }
}

fn done_of(row: &Row, index: u32, answer: &mut [u8], item: &mut DoneItem) -> u32
    ensures { DoneOf (Some row.now) index result item.new answer.old answer.new }
{
    match row.done().get(index as usize) {
        Some(done) => tell_done(done, answer, item),
        None => Status::NoEntry.number(),
    }
}

fn tell_done(done: &Done, answer: &mut [u8], item: &mut DoneItem) -> u32
    ensures { DoneTold (Some done.now) result item.new answer.old answer.new }
{
    match done {
        Done::Executed {
            number,
            digest,
            result,
        } => {
            item.kind = 0;
            item.number = number.0;
            item.digest = digest.0;
            tell(result.as_slice(), answer, &mut item.length)
        }
        Done::Installed { number, digest } => {
            item.kind = 1;
            item.number = number.0;
            item.digest = digest.0;
            tell(&[], answer, &mut item.length)
        }
    }
}
