//! What the laws of progress say of where a world has come to.

use crate::end::End;
use crate::facts::{has_replied, result_of};
use anyhow::Result;
use host_types::View;

/// A statement of the laws. The names are those of their functions, and of the clauses.
#[derive(Clone, Copy)]
pub(crate) enum Law {
    MissNothing,
    Spreads,
    Opens,
    Unmoved,
    WindowEnough,
    WindowAll,
    WindowHonest,
    WindowAsked,
    TimelyEnough,
    TimelyAll,
    TimelyHonest,
    TimelyAsked,
    Replies,
    Answer,
    Newest,
}

pub(crate) const LAWS: [Law; 15] = [
    Law::MissNothing,
    Law::Spreads,
    Law::Opens,
    Law::Unmoved,
    Law::WindowEnough,
    Law::WindowAll,
    Law::WindowHonest,
    Law::WindowAsked,
    Law::TimelyEnough,
    Law::TimelyAll,
    Law::TimelyHonest,
    Law::TimelyAsked,
    Law::Replies,
    Law::Answer,
    Law::Newest,
];

/// What a world says of a law.
#[derive(Clone, Copy, PartialEq, Eq)]
pub(crate) enum Verdict {
    /// A premise doesn't hold, that each message has come left aside.
    Unmet,
    Holds,
    Broken,
}

impl Verdict {
    fn of(holds: bool) -> Verdict {
        if holds {
            Verdict::Holds
        } else {
            Verdict::Broken
        }
    }
}

impl Law {
    pub(crate) fn name(self) -> &'static str {
        match self {
            Law::MissNothing => "drained_families_miss_nothing",
            Law::Spreads => "a_view_spreads",
            Law::Opens => "a_view_with_a_correct_primary_opens",
            Law::Unmoved => "until_a_mark_rises_all_execute_all",
            Law::WindowEnough => "the_first_window_is_answered enough",
            Law::WindowAll => "the_first_window_is_answered all",
            Law::WindowHonest => "the_first_window_is_answered honest",
            Law::WindowAsked => "the_first_window_is_answered asked",
            Law::TimelyEnough => "a_timely_view_is_answered enough",
            Law::TimelyAll => "a_timely_view_is_answered all",
            Law::TimelyHonest => "a_timely_view_is_answered honest",
            Law::TimelyAsked => "a_timely_view_is_answered asked",
            Law::Replies => "a_timely_view_answers_its_clients replies",
            Law::Answer => "a_timely_view_answers_its_clients answer",
            Law::Newest => "a_timely_view_answers_its_clients newest",
        }
    }

    /// Whether the law is for worlds alone in which each message has come.
    pub(crate) fn wants_drained(self) -> bool {
        !matches!(self, Law::MissNothing | Law::Replies | Law::Newest)
    }

    /// What the world says of it, which has the first view's premises or not.
    pub(crate) fn verdict(self, end: &End<'_>, is_first_view: bool) -> Result<Verdict> {
        match self {
            Law::MissNothing => Ok(Verdict::of(end.is_drained == end.all_came())),
            Law::Spreads => Ok(spreads(end)),
            Law::Opens => Ok(opens(end)),
            _ if !is_first_view => Ok(Verdict::Unmet),
            Law::Unmoved => Ok(unmoved(end)),
            Law::WindowEnough | Law::WindowAll | Law::WindowHonest | Law::WindowAsked => {
                self.verdict_in_window(end)
            }
            _ => self.verdict_if_timely(end),
        }
    }

    /// That of a law of the first window.
    fn verdict_in_window(self, end: &End<'_>) -> Result<Verdict> {
        if !end.is_within_first_window() {
            return Ok(Verdict::Unmet);
        }
        self.verdict_on_answers(end)
    }

    /// That of a law of timely views. Those that say what the laws of the first window do are for numbers beyond it.
    fn verdict_if_timely(self, end: &End<'_>) -> Result<Verdict> {
        if end.world.notes().is_early {
            return Ok(Verdict::Unmet);
        }
        match self {
            Law::Replies => Ok(Verdict::of(replies(end))),
            Law::Answer => Ok(answers(end)),
            Law::Newest => newest(end),
            _ if end.is_within_first_window() => Ok(Verdict::Unmet),
            _ => self.verdict_on_answers(end),
        }
    }

    fn verdict_on_answers(self, end: &End<'_>) -> Result<Verdict> {
        match self {
            Law::WindowEnough | Law::TimelyEnough => Ok(Verdict::of(end.enough_executed())),
            Law::WindowAll if end.installs_nothing() => Ok(Verdict::of(end.all_reached())),
            Law::TimelyAll if end.installs_nothing() => Ok(Verdict::of(end.all_executed())),
            Law::WindowHonest | Law::TimelyHonest if end.nobody_is_faulty() => {
                Ok(Verdict::of(end.all_reached()))
            }
            Law::WindowAsked | Law::TimelyAsked if end.leader_has_room() => {
                Ok(Verdict::of(end.all_asked_is_given_out()?))
            }
            _ => Ok(Verdict::Unmet),
        }
    }
}

/// How many correct replicas have come to a view.
fn count_in(end: &End<'_>, view: View) -> usize {
    end.statuses
        .iter()
        .filter(|status| view <= status.view)
        .count()
}

/// For each view above 0 to which more correct replicas have come than may be faulty: all have.
fn spreads(end: &End<'_>) -> Verdict {
    let f = usize::from(end.world.plan().f);
    let mut verdict = Verdict::Unmet;
    for status in &end.statuses {
        let count = count_in(end, status.view);
        if status.view.0 == 0 || count <= f {
            continue;
        }
        if count < end.statuses.len() {
            return Verdict::Broken;
        }
        verdict = Verdict::Holds;
    }
    verdict
}

/// Where all stand in one view above 0 whose primary is correct: all are active.
fn opens(end: &End<'_>) -> Verdict {
    let Some(first) = end.statuses.first() else {
        return Verdict::Unmet;
    };
    let view = first.view;
    let primary = end.world.config().primary(view);
    let stands = end.statuses.iter().all(|status| status.view == view);
    let is_correct = end.records.iter().any(|record| record.0 == primary);
    if view.0 == 0 || !stands || !is_correct {
        return Verdict::Unmet;
    }
    Verdict::of(end.statuses.iter().all(|status| status.active))
}

fn unmoved(end: &End<'_>) -> Verdict {
    if end.no_mark_rose() {
        Verdict::of(end.all_executed())
    } else {
        Verdict::Unmet
    }
}

/// Whether each correct replica that executed what was given out replied to it.
fn replies(end: &End<'_>) -> bool {
    end.world.notes().requests.iter().all(|request| {
        let Some(proposal) = end.proposal_of(request) else {
            return true;
        };
        end.records.iter().all(|record| {
            match result_of(&record.1, proposal) {
                Some(result) => has_replied(&record.1, request, proposal.number, result),
                None => true,
            }
        })
    })
}

/// Whether each client whose last request was given out, and which heard all, accepts the number and the result at which enough
/// executed it.
fn answers(end: &End<'_>) -> Verdict {
    let mut verdict = Verdict::Unmet;
    for (index, customer) in end.world.customers().iter().enumerate() {
        let Some(request) = customer.last_request() else {
            continue;
        };
        let Some(proposal) = end.proposal_of(request) else {
            continue;
        };
        if end.world.notes().deaf.contains(&index) {
            continue;
        }
        let is_accepted = match (customer.accepted(), end.first_result(proposal)) {
            (Some(reply), Some(result)) => {
                reply.number == proposal.number && reply.result.as_slice() == result
            }
            _ => false,
        };
        if !is_accepted {
            return Verdict::Broken;
        }
        verdict = Verdict::Holds;
    }
    verdict
}

/// Where the primary has room: it gave out the newest request that it received of each client.
fn newest(end: &End<'_>) -> Result<Verdict> {
    if !end.leader_has_room() {
        return Ok(Verdict::Unmet);
    }
    for client in end.world.config().clients() {
        if let Some(request) = end.newest_of(client.id.0)? {
            if end.proposal_of(request).is_none() {
                return Ok(Verdict::Broken);
            }
        }
    }
    Ok(Verdict::Holds)
}
