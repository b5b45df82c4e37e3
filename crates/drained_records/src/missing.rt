//! The first message that has not come.

ghost use Rattle.std.specs.Prelude.{◌≡◌, ◌<◌, ◌==◌, IsTrue, find, length, option_copied};
ghost use Rattle.drained_records.specs.Coming.{Came, IsFirstMissing, Misses, SomeAt, output_in, output_named};
ghost use Rattle.drained_records.specs.Finding.{IsFirstOne, IsFirstPair, IsFirstTriple, OutputCame, OutputMisses, RecordCame, RecordMisses, RowCame, RowMisses};

use crate::receipt::is_missing;
use byz_world::{Output, Row};
use host_types::ReplicaId;

/// A message that has not come: an output of a replica, which no row of another one's record received that it is for.
#[derive(Clone, Copy, Debug, PartialEq, Eq)]
pub struct Missing {
    /// Whose record has the output.
    pub from: ReplicaId,
    /// The place of the row in that record, from 0 on.
    pub row: usize,
    /// The place of the output in that row, from 0 on.
    pub output: usize,
    /// In whose record it is missing.
    pub to: ReplicaId,
}

impl Missing {
    /// The output that it names, in the first record of its sender's id; none where no such record, row or output is there.
    pub fn output<'a>(&self, records: &'a [(ReplicaId, Vec<Row>)]) -> Option<&'a Output>
        ensures { option_copied result ≡ output_named records.now self.now }
    {
        match record_of(records, self.from) {
            Some(record) => output_at(&record.1, self.row, self.output),
            None => None,
        }
    }
}

/// The first record of this id.
fn record_of(records: &[(ReplicaId, Vec<Row>)], id: ReplicaId) -> Option<&(ReplicaId, Vec<Row>)>
    ensures { option_copied result ≡ find (λ f. f.0.0 == id.0) records.now }
{
    records.iter().find(|record| record.0 == id)
}

/// The output at this place of the row at that one.
fn output_at(rows: &[Row], row: usize, output: usize) -> Option<&Output>
    ensures { option_copied result ≡ output_in rows.now row output }
{
    rows.get(row)?.outputs().get(output)
}

/// The first message that is missing, over the records in order, their rows, the outputs of these, and the records that each is for;
/// none where each came. Records with the same id are of one replica: none of them wants what another gave. It takes no memory, and
/// compares each output with the rows of all other records up to the one that received it.
pub fn first_missing(records: &[(ReplicaId, Vec<Row>)]) -> Option<Missing>
    ensures { IsFirstMissing records.now result }
{
    for from in 0..records.len() {
        if let Some((row, output, to)) = first_from(records, from) {
            return Some(Missing {
                from: id_at(records, from),
                row,
                output,
                to: id_at(records, to),
            });
        }
    }
    None
}

fn id_at(records: &[(ReplicaId, Vec<Row>)], place: usize) -> ReplicaId
    requires { place < length records.now }
    ensures { SomeAt records.now place (λ r. r.0 ≡ result) }
{
    records[place].0
}

fn first_from(records: &[(ReplicaId, Vec<Row>)], place: usize) -> Option<(usize, usize, usize)>
    requires { place < length records.now }
    ensures { IsFirstTriple (Came records.now place) (Misses records.now place) result }
{
    first_in_record(records, &records[place])
}

/// The row, the output and the record that wants it.
fn first_in_record(
    records: &[(ReplicaId, Vec<Row>)],
    from: &(ReplicaId, Vec<Row>),
) -> Option<(usize, usize, usize)>
    ensures { IsFirstTriple (RecordCame records.now from.now) (RecordMisses records.now from.now) result }
{
    for row in 0..from.1.len() {
        if let Some((output, to)) = first_of_row(records, from, row) {
            return Some((row, output, to));
        }
    }
    None
}

fn first_of_row(
    records: &[(ReplicaId, Vec<Row>)],
    from: &(ReplicaId, Vec<Row>),
    place: usize,
) -> Option<(usize, usize)>
    requires { place < length from.now.1.items }
    ensures { IsFirstPair (RecordCame records.now from.now place) (RecordMisses records.now from.now place) result }
{
    first_in_row(records, from.0, &from.1[place])
}

/// The output, and the record that wants it.
fn first_in_row(
    records: &[(ReplicaId, Vec<Row>)],
    from: ReplicaId,
    row: &Row,
) -> Option<(usize, usize)>
    ensures { IsFirstPair (RowCame records.now from row.now) (RowMisses records.now from row.now) result }
{
    for output in 0..row.outputs().len() {
        if let Some(to) = first_of_output(records, from, row, output) {
            return Some((output, to));
        }
    }
    None
}

fn first_of_output(
    records: &[(ReplicaId, Vec<Row>)],
    from: ReplicaId,
    row: &Row,
    place: usize,
) -> Option<usize>
    requires { place < length row.now.outputs }
    ensures { IsFirstOne (RowCame records.now from row.now place) (RowMisses records.now from row.now place) result }
{
    first_that_misses(records, from, &row.outputs()[place])
}

fn first_that_misses(
    records: &[(ReplicaId, Vec<Row>)],
    from: ReplicaId,
    output: &Output,
) -> Option<usize>
    ensures { IsFirstOne (OutputCame records.now from output.now) (OutputMisses records.now from output.now) result }
{
    for to in 0..records.len() {
        if is_missing_at(records, from, output, to) {
            return Some(to);
        }
    }
    None
}

fn is_missing_at(
    records: &[(ReplicaId, Vec<Row>)],
    from: ReplicaId,
    output: &Output,
    place: usize,
) -> bool
    requires { place < length records.now }
    ensures missing { IsTrue result → OutputMisses records.now from output.now place }
    ensures came { (IsTrue result → ⊥) → OutputCame records.now from output.now place }
{
    is_missing(from, output, &records[place])
}
