//! What records of replicas agree on.

use crate::group::{CLIENT, Group, set_of};
use crate::runs::{FIRST, SECOND, report_of};
use host_types::{Bytes, ClientId, Digest, ReplicaId, Request, SeqNo, View};
use pbft_codec::{Body, Checkpoint, Commit, PrePrepare, Prepare, Snapshot};
use std::alloc::Global;
use std::sync::Arc;
use std::test::Fail;
use world_script::{Event, History, Row, State, World, audit};

/// The digest of the null request: SHA-256 of no bytes (FIPS 180-4).
const NULL_DIGEST: Digest = Digest([
    0xe3, 0xb0, 0xc4, 0x42, 0x98, 0xfc, 0x1c, 0x14, 0x9a, 0xfb, 0xf4, 0xc8, 0x99, 0x6f, 0xb9, 0x24,
    0x27, 0xae, 0x41, 0xe4, 0x64, 0x9b, 0x93, 0x4c, 0xa4, 0x95, 0x99, 0x1b, 0x78, 0x52, 0xb8, 0x55,
]);

/// Replica 1 alone is correct: the others have it do what a test asks for.
#[derive(Drop)]
struct Life<'a> {
    group: &'a mut Group,
    world: World,
}

impl<'a> Life<'a> {
    /// Replica 1 before its first event.
    fn new(group: &'a mut Group) -> Result<Life<'a>, Fail> {
        let world = group.world(&set_of(&[0, 2, 3]))?;
        Ok(Life { group, world })
    }

    fn deliver(&mut self, bytes: Bytes) -> Result<(), Fail> {
        let to = ReplicaId(1);
        self.world.event(&Event::Deliver { to, bytes })?;
        Ok(())
    }

    fn hear(&mut self, from: u8, body: Body) -> Result<(), Fail> {
        let bytes = self.group.say(from, body)?;
        self.deliver(bytes)
    }

    /// It executes the request of this digest at this number.
    fn execute(&mut self, number: u64, digest: Digest) -> Result<(), Fail> {
        let (view, number) = (View(0), SeqNo(number));
        let proposal = PrePrepare {
            view,
            number,
            digest,
        };
        self.hear(0, Body::PrePrepare(proposal))?;
        let vote = Prepare {
            view,
            number,
            digest,
        };
        self.hear(2, Body::Prepare(vote))?;
        for from in [2, 3] {
            let vote = Commit {
                view,
                number,
                digest,
            };
            self.hear(from, Body::Commit(vote))?;
        }
        Ok(())
    }

    /// The others prove this state.
    fn prove(&mut self, state: &State) -> Result<(), Fail> {
        let (number, digest) = (state.number(), state.digest());
        for from in [0, 2, 3] {
            self.hear(from, Body::Checkpoint(Checkpoint { number, digest }))?;
        }
        Ok(())
    }

    /// It installs this state.
    fn install(&mut self, state: &State) -> Result<(), Fail> {
        self.prove(state)?;
        let number = state.number();
        let state = Bytes::from_vec(state.to_bytes()?);
        self.hear(0, Body::Snapshot(Snapshot { number, state }))
    }

    /// Adds its rows to a record.
    fn put_rows(self, record: &mut Vec<Row>) -> Result<(), Fail> {
        for outcome in self.world.report()?.outcomes() {
            put_copies(&outcome.rows, record)?;
        }
        Ok(())
    }
}

// The state after four null requests.
fn fourth(group: &Group) -> Result<State, Fail> {
    let mut state = State::genesis(group.alloc, Arc::try_clone(&group.config)?)?;
    for _ in 0..4 {
        if state.number().0 < 4 {
            state.apply(None)?;
        }
    }
    Ok(state)
}

// Another state of that number: the first request was the client's.
fn other_fourth(group: &Group) -> Result<State, Fail> {
    let mut state = State::genesis(group.alloc, Arc::try_clone(&group.config)?)?;
    let request = Request {
        client: ClientId(CLIENT),
        time: 1,
        op: Bytes::from_vec(Vec::new(group.alloc)),
    };
    if state.number().0 < 4 && state.is_listed(request.client) {
        state.apply(Some(&request))?;
    }
    for _ in 0..3 {
        if state.number().0 < 4 {
            state.apply(None)?;
        }
    }
    Ok(state)
}

// It executes the null request at 1 to 8.
fn put_eight(group: &mut Group, record: &mut Vec<Row>) -> Result<(), Fail> {
    let state = fourth(group)?;
    let mut life = Life::new(group)?;
    for number in 1..5 {
        life.execute(number, NULL_DIGEST)?;
    }
    life.prove(&state)?;
    for number in 5..9 {
        life.execute(number, NULL_DIGEST)?;
    }
    life.put_rows(record)
}

// It installs the state after 4, and executes this at 5.
fn put_fifth(group: &mut Group, digest: Digest, record: &mut Vec<Row>) -> Result<(), Fail> {
    let state = fourth(group)?;
    let request = group.request("a")?;
    let mut life = Life::new(group)?;
    life.deliver(request)?;
    life.install(&state)?;
    life.execute(5, digest)?;
    life.put_rows(record)
}

// It installs a state, and executes nothing.
fn put_installed(group: &mut Group, state: &State, record: &mut Vec<Row>) -> Result<(), Fail> {
    let mut life = Life::new(group)?;
    life.install(state)?;
    life.put_rows(record)
}

fn put_fourth(group: &mut Group, record: &mut Vec<Row>) -> Result<(), Fail> {
    let state = fourth(group)?;
    put_installed(group, &state, record)
}

fn put_other(group: &mut Group, record: &mut Vec<Row>) -> Result<(), Fail> {
    let state = other_fourth(group)?;
    put_installed(group, &state, record)
}

// Adds rows to a record once more.
fn put_copies(rows: &[Row], record: &mut Vec<Row>) -> Result<(), Fail> {
    for row in rows {
        record.push(row.copy()?)?;
    }
    Ok(())
}

// Adds all that a record has to it once more.
fn put_again(alloc: Global, record: &mut Vec<Row>) -> Result<(), Fail> {
    let mut rows = Vec::new(alloc);
    put_copies(record, &mut rows)?;
    put_copies(&rows, record)
}

/// What is added to records of replicas, and what an audit of them then finds: the greatest number, or its fault.
/// `anew` begins with fresh keys and no record, `none` with no record. A replica's id begins its record. `eight`: it
/// executes the null request at 1 to 8. `fifth`, `fifth-a`: it installs the state after four null requests, and executes
/// the null request, or the client's, at 5. `fourth`, `other`: it installs that state, or another of its number.
/// `again`: all that the record has, once more.
const RECORDS: &str = "\
1 => 0\n\
fifth => Unrecorded\n\
none 1 eight => 8\n\
fifth => 8\n\
fifth-a => Differ\n\
anew\n\
2 fifth 1 eight => 8\n\
again => Gap\n\
3 fifth-a => Differ\n\
anew\n\
1 fourth 2 => Unrecorded\n\
eight fourth => 8\n\
other => Differ\n\
";

/// Records, each with its replica; what is added goes to the last one.
type Records = Vec<(ReplicaId, Vec<Row>)>;

// Adds the rows that a word names.
fn put(group: &mut Group, word: &str, record: &mut Vec<Row>) -> Result<(), Fail> {
    match word {
        "eight" => put_eight(group, record),
        "fifth" => put_fifth(group, NULL_DIGEST, record),
        "fifth-a" => {
            let digest = group.digest("a")?;
            put_fifth(group, digest, record)
        }
        "fourth" => put_fourth(group, record),
        "other" => put_other(group, record),
        "again" => put_again(group.alloc, record),
        _ => Err(Fail::new("no such rows")),
    }
}

// Begins a record, or adds what a word names to the last one.
fn add(group: &mut Group, word: &str, records: &mut Records) -> Result<(), Fail> {
    if word == "none" {
        records.clear();
        return Ok(());
    }
    if let Ok(id) = word.parse::<u8>() {
        records.push((ReplicaId(id), Vec::new(group.alloc)))?;
        return Ok(());
    }
    match records.last_mut() {
        Some((_, record)) => put(group, word, record),
        None => Err(Fail::new("no record")),
    }
}

// Adds what these words say.
fn add_all(group: &mut Group, words: &str, records: &mut Records) -> Result<(), Fail> {
    for word in words.split(' ') {
        add(group, word, records)?;
    }
    Ok(())
}

// The fault of an audit, or the greatest number.
fn found(alloc: Global, records: &[(ReplicaId, Vec<Row>)]) -> Result<String, Fail> {
    match audit(alloc, records) {
        Ok(history) => Ok(format!(in alloc; "{}", history.greatest().0)?),
        Err(fault) => Ok(format!(in alloc; "{fault}")?),
    }
}

/// A group, and records of its replicas.
#[derive(Drop)]
struct Recorded {
    group: Group,
    records: Records,
}

impl Recorded {
    fn new(alloc: Global) -> Result<Recorded, Fail> {
        Ok(Recorded {
            group: Group::new(alloc)?,
            records: Vec::new(alloc),
        })
    }

    // Does what a line says. Whether an audit then finds what it says.
    fn line(&mut self, line: &str) -> Result<bool, Fail> {
        let alloc = self.group.alloc;
        let Some((words, wanted)) = line.split_once(" => ") else {
            *self = Recorded::new(alloc)?;
            return Ok(true);
        };
        add_all(&mut self.group, words, &mut self.records)?;
        Ok(found(alloc, &self.records)?.as_str() == wanted)
    }
}

#[test]
fn records_are_audited(rt: HostRuntime) -> Result<(), Fail> {
    let mut recorded = Recorded::new(rt.alloc())?;
    for line in RECORDS.lines() {
        assert!(rt; recorded.line(line)?, "{line}");
    }
    Ok(())
}

// Whether a history has the numbers 1 to 8, and the null request, to which nobody has a reply, at 5.
fn has_eight(history: &History) -> bool {
    let is_fifth = match history.at(SeqNo(5)) {
        Some((digest, results)) => *digest == NULL_DIGEST && results.is_empty(),
        None => false,
    };
    is_fifth
        && history.greatest().0 == 8
        && history.at(SeqNo(0)).is_none()
        && history.at(SeqNo(9)).is_none()
}

#[test]
fn a_history_has_what_was_executed(rt: HostRuntime) -> Result<(), Fail> {
    let mut recorded = Recorded::new(rt.alloc())?;
    assert!(rt; recorded.line("1 eight fifth => 8")?);
    let history = audit(rt.alloc(), &recorded.records)?;
    assert!(rt; has_eight(&history));
    Ok(())
}

// The records of a run whose replica 3 is faulty.
fn honest_records(group: &Group) -> Result<Records, Fail> {
    let mut records = Vec::new(group.alloc);
    for outcome in report_of(group, &[FIRST, SECOND])?.outcomes() {
        let mut record = Vec::new(group.alloc);
        put_copies(&outcome.rows, &mut record)?;
        records.push((outcome.id, record))?;
    }
    Ok(records)
}

// Whether a history has the request of this name at a number, answered by the one byte 1.
fn has(group: &Group, history: &History, number: u64, name: &str) -> Result<bool, Fail> {
    let request = group.digest(name)?;
    let one: &[u8] = &[1];
    Ok(match history.at(SeqNo(number)) {
        Some((digest, result)) => *digest == request && result == one,
        None => false,
    })
}

#[test]
fn records_of_an_honest_family_have_a_history(rt: HostRuntime) -> Result<(), Fail> {
    let group = Group::new(rt.alloc())?;
    let records = honest_records(&group)?;
    let history = audit(rt.alloc(), &records)?;
    assert!(rt; history.greatest().0 == 2);
    assert!(rt; has(&group, &history, 1, "a")? && has(&group, &history, 2, "b")?);
    Ok(())
}
