//! Lists of requests in lanes: worked ones, those of a generator, and which lanes begin.

use crate::gates::Watch;
use crate::numbers::Numbers;
use crate::pair::Pair;
use std::alloc::{AllocError, Global};
use std::test::Fail;

/// Two tenants: an installation by each, a null request between them, and a call.
const ROW: &str = "\
100 1 install b7000000070000009500000000000000\n\
null\n\
101 1 install b7000000050000009500000000000000\n\
100 2 call 0\n\
";

const PAIRS: &str = "100:1 101:2";

/// Three tenants, of which one asks nothing, each with two clients; and replies that are kept.
const REPEATS: &str = "\
300 1 install b7000000070000009500000000000000\n\
100 1 install b7000000050000009500000000000000\n\
301 1 call 0\n\
300 1 raw 09\n\
101 5 call 0\n\
null\n\
101 5 call 9\n\
101 4 call 0\n\
";

#[test]
fn a_row_is_four_steps(rt: HostRuntime) -> Result<(), Fail> {
    for workers in [1u8, 2, 8] {
        let gate = Watch::new(rt, false);
        let pair = Pair::new(rt.alloc(), PAIRS)?;
        let (pair, outcomes) = pair.take(&rt, ROW, workers.max(1), &gate)?;
        for (place, outcome) in outcomes.iter().enumerate() {
            assert!(rt; outcome.number.0 == place as u64 + 1);
        }
        assert!(rt; outcomes.len() == 4);
        let (_, outcomes) = pair.take(&rt, REPEATED, workers.max(1), &gate)?;
        assert!(rt; outcomes.len() == 2 && outcomes[0].kept && outcomes[0].number.0 == 5);
    }
    Ok(())
}

/// Behind the row: a call again, whose reply is kept, and an older one, which has none.
const REPEATED: &str = "\
100 2 call 0\n\
100 1 call 0\n\
";

#[test]
fn replies_are_kept_in_lanes(rt: HostRuntime) -> Result<(), Fail> {
    for workers in 1..=8u8 {
        let gate = Watch::new(rt, false);
        let pair = Pair::new(rt.alloc(), "300:3 100:1 301:3 101:1 200:2")?;
        pair.take(&rt, REPEATS, workers.max(1), &gate)?;
    }
    Ok(())
}

/// Lane 0 is held until lane 1 has begun: they run at the same time.
#[test]
fn lanes_run_side_by_side(rt: HostRuntime) -> Result<(), Fail> {
    let gate = Watch::new(rt, true);
    let pair = Pair::new(rt.alloc(), PAIRS)?;
    pair.take(&rt, ROW, 2, &gate)?;
    assert!(rt; !gate.gave_up(), "lane 0 was held too long");
    assert!(rt; gate.steps(0) == 1 && gate.steps(1) == 1 && gate.steps(2) == 0);
    Ok(())
}

/// How often each lane begins: once where it has requests, and else never.
#[test]
fn lanes_with_requests_begin_once(rt: HostRuntime) -> Result<(), Fail> {
    for workers in 1..=8u8 {
        let gate = Watch::new(rt, false);
        let pair = Pair::new(rt.alloc(), "300:3 100:1 301:3 101:1 200:2")?;
        let (pair, _) = pair.take(&rt, REPEATS, workers.max(1), &gate)?;
        for lane in 0..8usize {
            let wanted = u64::from(lane < usize::from(workers.min(2)));
            assert!(rt; gate.steps(lane) == wanted, "{workers} {lane}");
        }
        let quiet = Watch::new(rt, false);
        let (pair, outcomes) = pair.take(&rt, "null\nnull\n", workers.max(1), &quiet)?;
        assert!(rt; quiet.steps(0) == 0 && outcomes.len() == 2);
        let (_, none) = pair.take(&rt, "", workers.max(1), &quiet)?;
        assert!(rt; quiet.steps(0) == 0 && none.is_empty());
    }
    Ok(())
}

/// Clients of eight tenants, and each with its tenant.
const MANY_CLIENTS: [u32; 12] = [300, 100, 200, 150, 400, 16, 500, 600, 700, 101, 301, 701];

const MANY_PAIRS: &str =
    "300:2 100:1 200:11 150:12 400:7 16:3 500:5 600:6 700:11 101:1 301:2 701:12";

/// A list of up to twenty requests.
fn list_of(numbers: &mut Numbers, alloc: Global, number: u64) -> Result<String, AllocError> {
    let mut text = String::new(alloc);
    for _ in 0..numbers.below(20) {
        let line = numbers.line(alloc, &MANY_CLIENTS, number)?;
        text.push_str(&line)?;
        text.push('\n')?;
    }
    Ok(text)
}

/// A thousand lists: 125 times eight, each behind the one before, with 1 to 8 workers.
#[test]
fn lists_in_lanes_are_lists_in_turn(rt: HostRuntime) -> Result<(), Fail> {
    let alloc = rt.alloc();
    let mut numbers = Numbers { last: 20_261_127 };
    let mut replies = 0u64;
    for _ in 0..125 {
        let mut pair = Pair::new(alloc, MANY_PAIRS)?;
        for round in 0..8u64 {
            let text = list_of(&mut numbers, alloc, round * 4 + 4)?;
            let workers = 1 + numbers.below(8) as u8;
            let gate = Watch::new(rt, false);
            let (next, outcomes) = pair.take(&rt, &text, workers, &gate)?;
            pair = next;
            for outcome in &outcomes {
                replies = replies.wrapping_add(u64::from(outcome.reply.is_some()));
            }
        }
    }
    assert!(rt; replies > 3000, "{replies}");
    Ok(())
}
