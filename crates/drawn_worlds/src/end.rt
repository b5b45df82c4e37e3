//! Where a world has come to, and which premises of the laws it meets.

use crate::facts::{
    Proposal, has_executed, has_received, installs, proposals_in, requests_in, result_of, time_of,
};
use crate::world::World;
use anyhow::Result;
use drained_records::{Row, Status, first_missing};
use host_types::{ReplicaId, SeqNo};
use seal::{Checked, request_digest};
use std::alloc::Global;

/// The primary of view 0.
const LEADER: ReplicaId = ReplicaId(0);

/// What the correct replicas of a world did, and where they stand.
#[derive(Drop)]
pub(crate) struct End<'a> {
    alloc: Global,
    pub world: &'a World,
    /// The rows of each correct replica.
    pub records: Vec<(ReplicaId, Vec<Row>)>,
    pub statuses: Vec<Status>,
    /// What the primary of view 0 gave out, if it is correct.
    pub proposals: Vec<Proposal>,
    /// Each message of a correct replica has come to each correct one that it is for.
    pub is_drained: bool,
}

/// The rows of the replica with this id; none if it is not correct.
fn rows_of(records: &[(ReplicaId, Vec<Row>)], id: ReplicaId) -> &[Row] {
    match records.iter().find(|record| record.0 == id) {
        Some(record) => &record.1,
        None => &[],
    }
}

impl<'a> End<'a> {
    pub(crate) fn new(alloc: Global, world: &'a World) -> Result<End<'a>> {
        let records = world.records()?;
        let statuses = world.statuses()?;
        let proposals = proposals_in(alloc, rows_of(&records, LEADER))?;
        let is_drained = first_missing(&records).is_none();
        Ok(End {
            alloc,
            world,
            records,
            statuses,
            proposals,
            is_drained,
        })
    }

    /// Whether it is drained, by what was lost on the way.
    pub(crate) fn all_came(&self) -> bool {
        self.world.notes().all_came(&self.records)
    }

    pub(crate) fn leader_rows(&self) -> &[Row] {
        rows_of(&self.records, LEADER)
    }

    // ---- premises

    /// All stand in view 0, whose primary is correct and gave something out, clients asked it with rising times, and all.
    pub(crate) fn is_first_view(&self) -> Result<bool> {
        Ok(
            self.has_correct_leader()
                && !self.proposals.is_empty()
                && self.statuses.iter().all(|status| status.view.0 == 0)
                && self.spreads_requests()?
                && self.asks_in_order()?,
        )
    }

    fn has_correct_leader(&self) -> bool {
        self.records.iter().any(|record| record.0 == LEADER)
    }

    /// Whether each correct replica received what one of them did of requests.
    fn spreads_requests(&self) -> Result<bool> {
        for record in &self.records {
            for request in requests_in(self.alloc, &record.1)? {
                if !self.all_received(request) {
                    return Ok(false);
                }
            }
        }
        Ok(true)
    }

    fn all_received(&self, request: &Checked) -> bool {
        self.records
            .iter()
            .all(|record| has_received(&record.1, request))
    }

    /// Whether, of each client, what came later to the primary has a greater time, or is the same.
    fn asks_in_order(&self) -> Result<bool> {
        let requests = requests_in(self.alloc, self.leader_rows())?;
        for (place, later) in requests.iter().enumerate() {
            for earlier in requests.iter().take(place) {
                if !may_follow(earlier, later) {
                    return Ok(false);
                }
            }
        }
        Ok(true)
    }

    /// Whether the primary gave out no number above the first high water mark.
    pub(crate) fn is_within_first_window(&self) -> bool {
        self.greatest_number() <= self.world.plan().span()
    }

    fn greatest_number(&self) -> u64 {
        let mut greatest = 0;
        for proposal in &self.proposals {
            greatest = proposal.number.0.max(greatest);
        }
        greatest
    }

    pub(crate) fn no_mark_rose(&self) -> bool {
        self.statuses.iter().all(|status| status.low.0 == 0)
    }

    pub(crate) fn installs_nothing(&self) -> bool {
        !self.records.iter().any(|record| installs(&record.1))
    }

    pub(crate) fn nobody_is_faulty(&self) -> bool {
        self.records.len() == usize::from(self.world.config().replica_count())
    }

    /// Whether the primary has room for a further number.
    pub(crate) fn leader_has_room(&self) -> bool {
        match (self.records.first(), self.statuses.first()) {
            (Some(record), Some(status)) if record.0 == LEADER => {
                let next = self.greatest_number().max(status.low.0).saturating_add(1);
                next <= status.low.0.saturating_add(self.world.plan().span())
            }
            _ => false,
        }
    }

    // ---- what the laws say

    /// The result of a proposal, of the first that executed it.
    pub(crate) fn first_result(&self, proposal: &Proposal) -> Option<&[u8]> {
        for record in &self.records {
            if let Some(result) = result_of(&record.1, proposal) {
                return Some(result);
            }
        }
        None
    }

    /// How many correct replicas executed a proposal, with the result of the first.
    pub(crate) fn count_executed(&self, proposal: &Proposal) -> usize {
        let Some(first) = self.first_result(proposal) else {
            return 0;
        };
        let mut count: usize = 0;
        for record in &self.records {
            if result_of(&record.1, proposal) == Some(first) {
                count = count.saturating_add(1);
            }
        }
        count
    }

    /// Whether more correct replicas than may be faulty executed each proposal, with one result.
    pub(crate) fn enough_executed(&self) -> bool {
        let f = usize::from(self.world.plan().f);
        self.proposals
            .iter()
            .all(|proposal| self.count_executed(proposal) > f)
    }

    /// Whether all correct ones did.
    pub(crate) fn all_executed(&self) -> bool {
        let all = self.records.len();
        self.proposals
            .iter()
            .all(|proposal| self.count_executed(proposal) == all)
    }

    /// Whether each correct replica has come to the number of each proposal.
    pub(crate) fn all_reached(&self) -> bool {
        let greatest = self.greatest_number();
        self.statuses
            .iter()
            .all(|status| greatest <= status.executed.0)
    }

    /// The proposal of a request, if it was given out.
    pub(crate) fn proposal_of(&self, request: &Checked) -> Option<&Proposal> {
        let digest = request_digest(request);
        self.proposals
            .iter()
            .find(|proposal| proposal.digest == digest)
    }

    /// Whether the primary gave out each request that it received, or the request is new to its service no more.
    pub(crate) fn all_asked_is_given_out(&self) -> Result<bool> {
        for request in requests_in(self.alloc, self.leader_rows())? {
            if self.proposal_of(request).is_none() && self.is_new_to_leader(request) {
                return Ok(false);
            }
        }
        Ok(true)
    }

    /// Whether the primary's service executed no request of the client with the same time or a later one.
    fn is_new_to_leader(&self, request: &Checked) -> bool {
        !self.world.notes().requests.iter().any(|other| {
            other.signer() == request.signer()
                && time_of(request) <= time_of(other)
                && self.leader_has_executed(other)
        })
    }

    /// Whether the request is in the state of the primary's service, which may come of a snapshot.
    fn leader_has_executed(&self, request: &Checked) -> bool {
        let last = match self.statuses.first() {
            Some(status) => status.executed,
            None => SeqNo(0),
        };
        let digest = request_digest(request);
        self.records
            .iter()
            .any(|record| has_executed(&record.1, last, &digest))
    }

    /// The last request of the client with an index that the primary received, if it gave that out.
    pub(crate) fn newest_of(&self, client: u32) -> Result<Option<&Checked>> {
        let mut newest: Option<&Checked> = None;
        for request in requests_in(self.alloc, self.leader_rows())? {
            if request.signer().1 == client {
                newest = Some(request);
            }
        }
        Ok(newest)
    }
}

/// Whether a request may come to a primary behind another one.
fn may_follow(earlier: &Checked, later: &Checked) -> bool {
    earlier.signer() != later.signer()
        || earlier.bytes() == later.bytes()
        || time_of(earlier) < time_of(later)
}
