//! Replicas' messages as a scenario writes them.
//!
//!     pre-prepare 0/1 a                                prepare and commit alike
//!     checkpoint 2 s2                                  snapshot alike
//!     fetch state 2                                    or fetch request a
//!     view-change 1 low 0
//!     view-change 1 low 2 s2 by 0 2 3, 0/3 a by 1 2    with who signs the proof, and a certificate
//!     new-view 1 of 0 low 0; 1 low 0, 0/1 a by 1 2; 2 low 0 with 1/1 a

use crate::scene::Scene;
use crate::signing::{signed, signed_list};
use host_types::{SeqNo, View};
use pbft_codec::{
    Body, Certificate, Checkpoint, Commit, Fetch, NewView, PrePrepare, Prepare, Sequence, Signed,
    Snapshot, ViewChange,
};
use std::test::Fail;

/// The texts before and after the first of this one.
pub fn halves<'a>(text: &'a str, between: &str) -> Result<(&'a str, &'a str), Fail> {
    match text.split_once(between) {
        Some(halves) => Ok(halves),
        None => Err(Fail::new("half a text")),
    }
}

// The primary of a view.
fn primary(view: View) -> u8 {
    (view.0 % 4) as u8
}

impl Scene {
    /// The body of the message that this text names.
    pub fn body(&mut self, text: &str) -> Result<Body, Fail> {
        let (kind, said) = halves(text, " ")?;
        match kind {
            "pre-prepare" => Ok(Body::PrePrepare(self.pre_prepare(said)?)),
            "prepare" => Ok(Body::Prepare(self.prepare(said)?)),
            "commit" => Ok(Body::Commit(self.commit(said)?)),
            "checkpoint" => Ok(Body::Checkpoint(self.checkpoint(said)?)),
            _ => self.long_body(kind, said),
        }
    }

    fn long_body(&mut self, kind: &str, said: &str) -> Result<Body, Fail> {
        match kind {
            "fetch" => Ok(Body::Fetch(self.fetch(said)?)),
            "snapshot" => Ok(Body::Snapshot(self.snapshot(said)?)),
            "view-change" => {
                let (view, rest) = halves(said, " ")?;
                Ok(Body::ViewChange(self.change(View(view.parse()?), rest)?))
            }
            "new-view" => Ok(Body::NewView(self.new_view(said)?)),
            _ => Err(Fail::new("no such message")),
        }
    }

    // ---- votes

    fn pre_prepare(&self, said: &str) -> Result<PrePrepare, Fail> {
        let (position, name) = halves(said, " ")?;
        let (view, number) = halves(position, "/")?;
        Ok(PrePrepare {
            view: View(view.parse()?),
            number: SeqNo(number.parse()?),
            digest: self.words.named(name)?.digest,
        })
    }

    fn prepare(&self, said: &str) -> Result<Prepare, Fail> {
        let vote = self.pre_prepare(said)?;
        Ok(Prepare {
            view: vote.view,
            number: vote.number,
            digest: vote.digest,
        })
    }

    fn commit(&self, said: &str) -> Result<Commit, Fail> {
        let vote = self.pre_prepare(said)?;
        Ok(Commit {
            view: vote.view,
            number: vote.number,
            digest: vote.digest,
        })
    }

    // ---- states

    fn checkpoint(&self, said: &str) -> Result<Checkpoint, Fail> {
        let (number, name) = halves(said, " ")?;
        Ok(Checkpoint {
            number: SeqNo(number.parse()?),
            digest: self.words.named(name)?.digest,
        })
    }

    fn fetch(&self, said: &str) -> Result<Fetch, Fail> {
        let (kind, of) = halves(said, " ")?;
        if kind == "request" {
            return Ok(Fetch::Request(self.words.named(of)?.digest));
        }
        Ok(Fetch::State(SeqNo(of.parse()?)))
    }

    fn snapshot(&self, said: &str) -> Result<Snapshot, Fail> {
        let (number, name) = halves(said, " ")?;
        Ok(Snapshot {
            number: SeqNo(number.parse()?),
            state: self.words.state(name)?,
        })
    }

    // ---- changes of view

    // `0/1 a by 1 2`: the proposal, which the primary of its view has signed, and the signers of Prepares.
    fn certificate(&mut self, said: &str) -> Result<Certificate, Fail> {
        let (proposal, ids) = halves(said, " by ")?;
        let prepares = self.prepares(proposal, ids)?;
        let body = self.pre_prepare(proposal)?;
        let id = primary(body.view);
        Ok(Certificate {
            pre_prepare: signed(self.alloc, &mut self.signers, id, body)?,
            prepares,
        })
    }

    // The Prepares for a proposal by replicas of these ids.
    fn prepares(&mut self, said: &str, ids: &str) -> Result<Sequence<Signed<Prepare>>, Fail> {
        let mut prepares = Vec::new(self.alloc);
        for id in ids.split_whitespace() {
            prepares.push((id.parse()?, self.prepare(said)?))?;
        }
        signed_list(self.alloc, &mut self.signers, prepares)
    }

    // `0`, or `2 s2 by 0 2 3`: the low mark, and its proof, which says what state it has.
    fn low_mark(&self, said: &str) -> Result<(SeqNo, Vec<(u8, Checkpoint)>), Fail> {
        let mut proof = Vec::new(self.alloc);
        let Some((mark, ids)) = said.split_once(" by ") else {
            return Ok((SeqNo(said.parse()?), proof));
        };
        for id in ids.split_whitespace() {
            proof.push((id.parse()?, self.checkpoint(mark)?))?;
        }
        Ok((self.checkpoint(mark)?.number, proof))
    }

    // A ViewChange for this view.
    fn change(&mut self, view: View, said: &str) -> Result<ViewChange, Fail> {
        let (mark, certificate) = match said.split_once(", ") {
            Some((mark, certificate)) => (mark, Some(certificate)),
            None => (said, None),
        };
        let (_, mark) = halves(mark, "low ")?;
        let (low, proof) = self.low_mark(mark)?;
        let mut certificates = Vec::new(self.alloc);
        if let Some(said) = certificate {
            certificates.push(self.certificate(said)?)?;
        }
        Ok(ViewChange {
            view,
            low,
            checkpoints: signed_list(self.alloc, &mut self.signers, proof)?,
            certificates: Sequence::from_vec(certificates),
        })
    }

    // ViewChanges for this view, each behind its signer.
    fn changes(&mut self, view: View, said: &str) -> Result<Vec<(u8, ViewChange)>, Fail> {
        let mut changes = Vec::new(self.alloc);
        for one in said.split("; ") {
            let (id, change) = halves(one, " ")?;
            changes.push((id.parse()?, self.change(view, change)?))?;
        }
        Ok(changes)
    }

    // Proposals of the primary of this view.
    fn proposals(&self, view: View, said: Option<&str>) -> Result<Vec<(u8, PrePrepare)>, Fail> {
        let mut proposals = Vec::new(self.alloc);
        if let Some(said) = said {
            for one in said.split(", ") {
                proposals.push((primary(view), self.pre_prepare(one)?))?;
            }
        }
        Ok(proposals)
    }

    fn new_view(&mut self, said: &str) -> Result<NewView, Fail> {
        let (view, rest) = halves(said, " of ")?;
        let view = View(view.parse()?);
        let (changes, proposals) = match rest.split_once(" with ") {
            Some((changes, proposals)) => (changes, Some(proposals)),
            None => (rest, None),
        };
        let changes = self.changes(view, changes)?;
        let proposals = self.proposals(view, proposals)?;
        Ok(NewView {
            view,
            changes: signed_list(self.alloc, &mut self.signers, changes)?,
            pre_prepares: signed_list(self.alloc, &mut self.signers, proposals)?,
        })
    }
}
