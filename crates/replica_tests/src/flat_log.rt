//! A replica's recorded votes as a plain list, to compare with.

use quorum_log::LogFault;
use seal::{Vote, VoteKind};
use std::alloc::{AllocError, Global};

/// The votes that were accepted, in order, each with the position of its message in a pool. There are four
/// replicas, of which one may be faulty, and two numbers lie between the marks.
#[derive(Drop)]
pub struct FlatLog {
    pub view: u32,
    floor: Option<u64>,
    low: u64,
    votes: Vec<(Vote, usize)>,
}

impl FlatLog {
    pub fn new(alloc: Global) -> FlatLog {
        FlatLog {
            view: 0,
            floor: Some(0),
            low: 0,
            votes: Vec::new(alloc),
        }
    }

    pub fn accept(&mut self, vote: &Vote, position: usize) -> Result<(), LogFault> {
        if vote.view.0 < self.view {
            return Err(LogFault::WrongView);
        }
        if !self.is_within(vote) {
            return Err(LogFault::OutsideMarks);
        }
        match self.votes.iter().find(|(first, _)| is_alike(first, vote)) {
            Some((first, _)) if first.digest == vote.digest => Ok(()),
            Some(_) => Err(LogFault::OtherDigest),
            None => Ok(self.record(vote, position)?),
        }
    }

    fn record(&mut self, vote: &Vote, position: usize) -> Result<(), AllocError> {
        self.votes.push((*vote, position))?;
        Ok(())
    }

    fn is_within(&self, vote: &Vote) -> bool {
        let number = vote.number.0;
        let above_floor = match self.floor {
            Some(floor) => vote.view.0 != self.view || number > floor,
            None => true,
        };
        above_floor && number > self.low && number - self.low <= 2
    }

    /// The vote of this kind and signer, with its position.
    fn find(&self, kind: VoteKind, view: u32, number: u64, signer: u8) -> Option<&(Vote, usize)> {
        self.votes.iter().find(|(vote, _)| {
            vote.kind == kind
                && vote.view.0 == view
                && vote.number.0 == number
                && vote.signer.0 == signer
        })
    }

    /// The positions of the PrePrepare and of the Prepares that match it, signers ascending.
    pub fn matching(
        &self,
        alloc: Global,
        kind: VoteKind,
        view: u32,
        number: u64,
    ) -> Result<Vec<usize>, AllocError> {
        let mut positions = Vec::new(alloc);
        let leader = (view % 4) as u8;
        let Some((proposal, position)) = self.find(VoteKind::PrePrepare, view, number, leader)
        else {
            return Ok(positions);
        };
        positions.push(*position)?;
        for signer in 0..4u8 {
            if let Some((vote, position)) = self.find(kind, view, number, signer) {
                if vote.digest == proposal.digest {
                    positions.push(*position)?;
                }
            }
        }
        Ok(positions)
    }

    pub fn leave(&mut self, view: u32) {
        self.view = view;
        self.floor = None;
    }

    /// Enters a view by these PrePrepares, which are for the numbers above the floor up to the top.
    pub fn enter(
        &mut self,
        view: u32,
        floor: u64,
        top: u64,
        given: &[(Vote, usize)],
    ) -> Result<(), AllocError> {
        self.votes.retain(|(vote, _)| {
            vote.view.0 > view
                || vote.view.0 == view
                    && vote.number.0 > floor
                    && (vote.kind != VoteKind::PrePrepare || vote.number.0 > top)
        });
        self.view = view;
        self.floor = Some(floor);
        for (vote, position) in given {
            if self.is_within(vote) {
                self.votes.push((*vote, *position))?;
            }
        }
        Ok(())
    }

    pub fn discard_to(&mut self, number: u64) {
        if number > self.low {
            self.low = number;
            self.votes.retain(|(vote, _)| vote.number.0 > number);
        }
    }
}

// Whether both are of one kind, view, number and signer.
fn is_alike(one: &Vote, other: &Vote) -> bool {
    one.kind == other.kind
        && one.view == other.view
        && one.number == other.number
        && one.signer == other.signer
}
