//! Whether a message came to a replica that it is for.

ghost use Rattle.std.specs.Prelude.{◌≡◌, ◌↔◌, IsTrue, map};
ghost use Rattle.byz_world.specs.Journals.{HasReceived};
ghost use Rattle.byz_world.specs.Rows.{Received};
ghost use Rattle.pbft_progress.specs.Progress.{IsFor};
ghost use Rattle.byz_world.specs.Facts.{destination_of, input_of, row_of};
ghost use Rattle.drained_records.specs.Coming.{HasCome, IsMissing};

use byz_world::{Checked, Dest, Input, Output, Row};
use host_types::ReplicaId;

/// Whether what a replica gave is missing in this record.
pub fn is_missing(from: ReplicaId, output: &Output, to: &(ReplicaId, Vec<Row>)) -> bool
    ensures missing { IsTrue result → IsMissing from output.now to.now }
    ensures came { (IsTrue result → ⊥) → HasCome from output.now to.now }
{
    from != to.0 && is_for(output.to, to.0) && !has_received(&to.1, &output.message)
}

fn is_for(dest: Dest, id: ReplicaId) -> bool
    ensures { IsTrue result ↔ IsFor id.0 (destination_of dest) }
{
    match dest {
        Dest::All => true,
        Dest::Replica(to) => to == id,
        Dest::Client(_) => false,
    }
}

fn has_received(rows: &[Row], message: &Checked) -> bool
    ensures { IsTrue result ↔ HasReceived message.now.message (map row_of rows.now) }
{
    for row in rows {
        if is_input(row.input(), message) {
            return true;
        }
    }
    false
}

fn is_input(input: &Input, message: &Checked) -> bool
    ensures { IsTrue result ↔ (input_of input.now ≡ Received message.now.message) }
{
    match input {
        Input::Message(taken) => is_same(taken, message),
        Input::Timeout => false,
    }
}

/// Bytes encode one message.
fn is_same(one: &Checked, other: &Checked) -> bool
    ensures { IsTrue result ↔ (one.now.message ≡ other.now.message) }
{
    one.bytes() == other.bytes()
}
