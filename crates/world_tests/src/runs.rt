//! Worlds under events.

use crate::group::{Group, set_of};
use crate::rows::are_same;
use host_types::ReplicaId;
use std::process::Abort;
use std::test::Fail;
use world_script::{Event, Halt, Report, World, WorldFault};

/// Replica 3 is faulty. The primary has the first request alone with replica 1, which passes it on.
pub const FIRST: &str = "
    stands 0        => view 0 active low 0 executed 0
    request a to 0  => pre-prepare
    request a to 1  => nothing
    give 0.0 to 1   => prepare
    give 0.0 to 2   => fetch
    give 2.0 to 1   => request
    give 1.1 to 2   => prepare
    give 1.0 to 0   => nothing
    give 1.0 to 2   => commit
    give 2.1 to 0   => commit
    give 2.1 to 1   => commit
    give 0.1 to 1   => nothing
    give 2.2 to 1   => reply, executed 1
    give 0.1 to 2   => nothing
    give 1.2 to 2   => reply, executed 1
    give 1.2 to 0   => nothing
    give 2.2 to 0   => reply, executed 1
    stands 0        => view 0 active low 0 executed 1
";

/// The other backup has the next request too.
pub const SECOND: &str = "
    request b to 0  => pre-prepare
    request b to 1  => nothing
    request b to 2  => nothing
    give 0.3 to 1   => prepare
    give 0.3 to 2   => prepare
    give 1.4 to 0   => nothing
    give 2.4 to 0   => commit
    give 2.4 to 1   => commit
    give 1.4 to 2   => commit
    give 0.4 to 1   => nothing
    give 2.5 to 1   => reply, checkpoint, executed 2
    give 0.4 to 2   => nothing
    give 1.5 to 2   => reply, checkpoint, executed 2
    give 1.5 to 0   => nothing
    give 2.5 to 0   => reply, checkpoint, executed 2
    give 1.7 to 0   => nothing
    give 2.7 to 0   => nothing
    timeout 1       => view-change
    stands 0        => view 0 active low 2 executed 2
    stands 1        => view 1 changing low 0 executed 2
    stands 2        => view 0 active low 0 executed 2
    stands 3        => no replica
";

// Events that are refused, and those that give no row.
const REFUSED: &str = "
    timeout 4       => NoSuchReplica
    request b to 4  => NoSuchReplica
    give 0.0 to 4   => NoSuchReplica
    give 4.0 to 0   => NoSuchReplica
    give 3.0 to 0   => NoSuchOutput
    give 1.9 to 0   => NoSuchOutput
    give 1.9 to 3   => NoSuchOutput
    timeout 3       => no row
    request b to 3  => no row
    give 0.0 to 3   => no row
    bytes to 0      => no row
    stands 0        => view 0 active low 0 executed 1
    stands 1        => view 0 active low 0 executed 1
    stands 2        => view 0 active low 0 executed 1
    stands 3        => no replica
";

// Whether the correct replicas have one state after so many requests, and the faulty one none.
fn has_one_state(world: &World, number: u64) -> bool {
    let Some(first) = world.state(ReplicaId(0)) else {
        return false;
    };
    let is_alike = |id: u8| match world.state(ReplicaId(id)) {
        Some(state) => state.digest() == first.digest() && state.number().0 == number,
        None => false,
    };
    is_alike(0) && is_alike(1) && is_alike(2) && world.state(ReplicaId(3)).is_none()
}

// The ids of the correct replicas, and how many rows each gave.
fn counts(report: &Report) -> [(u8, usize); 3] {
    let mut counts = [(255, 0); 3];
    for (count, outcome) in counts.iter_mut().zip(report.outcomes()) {
        *count = (outcome.id.0, outcome.rows.len());
    }
    counts
}

/// What the correct replicas did under these scripts, where replica 3 is faulty.
pub fn report_of(group: &Group, scripts: &[&str]) -> Result<Report, Fail> {
    let mut world = group.world(&set_of(&[3]))?;
    for script in scripts {
        group.play(&mut world, script)?;
    }
    Ok(world.report()?)
}

#[test]
fn events_of_a_world(rt: HostRuntime) -> Result<(), Fail> {
    let group = Group::new(rt.alloc())?;
    let mut world = group.world(&set_of(&[3]))?;
    assert!(rt; has_one_state(&world, 0));
    for (script, number) in [(FIRST, 1), (REFUSED, 1), (SECOND, 2)] {
        group.play(&mut world, script)?;
        assert!(rt; has_one_state(&world, number), "{number}");
    }
    assert!(rt; counts(&world.report()?) == [(0, 12), (1, 12), (2, 10)]);
    Ok(())
}

// The events of these scripts.
fn events_of(group: &Group, scripts: &[&str]) -> Result<Vec<Event>, Fail> {
    let mut events = Vec::new(group.alloc);
    for script in scripts {
        for event in group.events(script)? {
            events.push(event)?;
        }
    }
    Ok(events)
}

// Whether the events of these scripts give this report.
fn gives(group: &Group, scripts: &[&str], report: &Report) -> Result<bool, Fail> {
    let events = events_of(group, scripts)?;
    Ok(match group.run(&set_of(&[3]), &events)? {
        Ok(given) => are_same(&given, report),
        Err(_) => false,
    })
}

// Whether the refused events are refused, by the first one's fault.
fn are_refused(group: &Group) -> Result<bool, Fail> {
    let events = group.events(REFUSED)?;
    let given = group.run(&set_of(&[3]), &events)?;
    Ok(matches!(given, Err(WorldFault::NoSuchReplica)))
}

// Refused events and those without a row leave a world as it was: its report is that of the others.
#[test]
fn a_run_is_its_events(rt: HostRuntime) -> Result<(), Fail> {
    let group = Group::new(rt.alloc())?;
    let played = report_of(&group, &[FIRST, REFUSED, SECOND])?;
    assert!(rt; gives(&group, &[FIRST, SECOND], &played)?);
    assert!(rt; are_refused(&group)?);
    Ok(())
}

// Whether replica 1 alone is reported, with 32 rows, and stopped for want of a leaf.
fn is_stopped(report: &Report) -> bool {
    let [outcome] = report.outcomes() else {
        return false;
    };
    outcome.id.0 == 1 && outcome.rows.len() == 32 && outcome.halted == Some(Halt::Exhausted)
}

// Replica 1 has 32 leaves, and the 33rd timeout stops it.
#[test]
fn a_stopped_replica_is_reported(rt: HostRuntime) -> Result<(), Fail> {
    let group = Group::new(rt.alloc())?;
    let mut world = group.world(&set_of(&[0, 2, 3]))?;
    for _ in 0..32 {
        group.play(&mut world, "timeout 1 => view-change")?;
    }
    group.play(&mut world, "timeout 1 => no row")?;
    assert!(rt; world.state(ReplicaId(1)).is_none());
    assert!(rt; is_stopped(&world.report()?));
    Ok(())
}
