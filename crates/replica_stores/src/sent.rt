//! What a replica has sent in its view, and what it has asked for.

ghost use Rattle.std.specs.Prelude.{◌≡◌, ◌==◌, ◌∷◌, map, filter, nat_lt, bytes_eq, fold, max, IfOk, OnOk, OnErr};
ghost use Rattle.std.specs.List.{list_any};
ghost use Rattle.pbft_model.specs.Certificates.{of_pre_prepare};
ghost use Rattle.pbft_model.specs.Validity.{greatest_of};
ghost use Rattle.replica_stores.specs.Sent.{fields_of, proposal_of};

use host_types::{Digest, SeqNo, View};
use pbft_codec::PrePrepare;
use std::alloc::{AllocError, Global};
use std::marker::Model;

/// An own proposal.
#[derive(Clone, Copy, Debug, PartialEq, Eq)]
pub struct Proposal {
    pub view: View,
    pub number: SeqNo,
    pub digest: Digest,
}

/// What a replica has sent in its view, and what it has asked for, newest first. Contracts see it as the
/// protocol's core keeps it.
#[derive(Drop)]
pub struct Sent {
    alloc: Global,
    proposed: Vec<Proposal>,
    prepared: Vec<SeqNo>,
    committed: Vec<SeqNo>,
    asked_states: Vec<SeqNo>,
    asked_requests: Vec<Digest>,
}

impl Model for Sent {
    ghost use Rattle.std.specs.Prelude.{map};
    ghost use Rattle.replica_stores.specs.Sent.{fields_of, numbers_of, digests_of};
    ghost use Rattle.replica_stores.specs.Stores.{KeptSent};

    ghost Value = { KeptSent };

    ghost view = { λ s. record {
      proposed = map fields_of s.proposed.items;
      prepared = numbers_of s.prepared.items;
      committed = numbers_of s.committed.items;
      asked_states = numbers_of s.asked_states.items;
      asked_requests = digests_of s.asked_requests.items;
    } };
}

impl Sent {
    ghost use Rattle.replica_stores.specs.Stores.{KeptSent, nothing_sent, only_states_asked, sent_above};

    /// Nothing sent and nothing asked for.
    pub fn new(alloc: Global) -> Sent
        ensures { result ≡ nothing_sent }
    {
        Sent {
            alloc,
            proposed: Vec::new(alloc),
            prepared: Vec::new(alloc),
            committed: Vec::new(alloc),
            asked_states: Vec::new(alloc),
            asked_requests: Vec::new(alloc),
        }
    }

    /// Notes an own proposal.
    pub fn propose(&mut self, proposal: Proposal) -> Result<(), AllocError>
        ensures proposed { OnOk result (self.new ≡ record self.old { proposed = fields_of proposal ∷ self.old.proposed }) }
        ensures unchanged { OnErr result (self.new ≡ self.old) }
    {
        self.proposed.insert(0, proposal)?;
        Ok(())
    }

    /// Notes the PrePrepares of an own NewView in place of the proposals.
    pub fn propose_all(&mut self, list: &[PrePrepare]) -> Result<(), AllocError>
        ensures proposed { OnOk result (self.new ≡ record self.old { proposed = map of_pre_prepare list.now }) }
        ensures unchanged { OnErr result (self.new ≡ self.old) }
    {
        self.proposed = proposals_of(self.alloc, list)?;
        Ok(())
    }

    /// Notes that a Prepare for this number was sent.
    pub fn prepare(&mut self, number: SeqNo) -> Result<(), AllocError>
        ensures prepared { OnOk result (self.new ≡ record self.old { prepared = number.0 ∷ self.old.prepared }) }
        ensures unchanged { OnErr result (self.new ≡ self.old) }
    {
        self.prepared.insert(0, number)?;
        Ok(())
    }

    /// Notes that a Commit for this number was sent.
    pub fn commit(&mut self, number: SeqNo) -> Result<(), AllocError>
        ensures committed { OnOk result (self.new ≡ record self.old { committed = number.0 ∷ self.old.committed }) }
        ensures unchanged { OnErr result (self.new ≡ self.old) }
    {
        self.committed.insert(0, number)?;
        Ok(())
    }

    /// Notes that the snapshot at this number was asked for.
    pub fn ask_state(&mut self, number: SeqNo) -> Result<(), AllocError>
        ensures asked { OnOk result (self.new ≡ record self.old { asked_states = number.0 ∷ self.old.asked_states }) }
        ensures unchanged { OnErr result (self.new ≡ self.old) }
    {
        self.asked_states.insert(0, number)?;
        Ok(())
    }

    /// Notes that the request of this digest was asked for.
    pub fn ask_request(&mut self, digest: Digest) -> Result<(), AllocError>
        ensures asked { OnOk result (self.new ≡ record self.old { asked_requests = digest.0 ∷ self.old.asked_requests }) }
        ensures unchanged { OnErr result (self.new ≡ self.old) }
    {
        self.asked_requests.insert(0, digest)?;
        Ok(())
    }

    /// Forgets what counts only in the view that is left. It takes no memory.
    pub fn clear_view(&mut self)
        ensures { self.new ≡ only_states_asked self.old }
    {
        self.proposed.clear();
        self.prepared.clear();
        self.committed.clear();
        self.asked_requests.clear();
    }

    /// Forgets what is at or below a number. It takes no memory.
    pub fn discard_to(&mut self, number: SeqNo)
        ensures { self.new ≡ sent_above number.0 self.old }
    {
        discard_proposals(&mut self.proposed, number);
        discard(&mut self.prepared, number);
        discard(&mut self.committed, number);
        discard(&mut self.asked_states, number);
    }

    /// Whether a Prepare for this number was sent.
    pub fn has_prepared(&self, number: SeqNo) -> bool
        ensures { result ≡ list_any (λ n. n == number.0) self.now.prepared }
    {
        is_among(&self.prepared, number)
    }

    /// Whether a Commit for this number was sent.
    pub fn has_committed(&self, number: SeqNo) -> bool
        ensures { result ≡ list_any (λ n. n == number.0) self.now.committed }
    {
        is_among(&self.committed, number)
    }

    /// Whether the snapshot at this number was asked for.
    pub fn has_asked_state(&self, number: SeqNo) -> bool
        ensures { result ≡ list_any (λ n. n == number.0) self.now.asked_states }
    {
        is_among(&self.asked_states, number)
    }

    /// Whether the request of this digest was asked for.
    pub fn has_asked_request(&self, digest: &Digest) -> bool
        ensures { result ≡ list_any (λ d. bytes_eq d digest.now.0) self.now.asked_requests }
    {
        is_asked(&self.asked_requests, digest)
    }

    /// Whether an own proposal names this digest.
    pub fn has_proposed(&self, digest: &Digest) -> bool
        ensures { result ≡ list_any (λ x. bytes_eq x.digest digest.now.0) self.now.proposed }
    {
        is_named(&self.proposed, digest)
    }

    /// The greatest number of an own proposal, or 0.
    pub fn greatest(&self) -> SeqNo
        ensures { result.0 ≡ greatest_of (map (λ x. x.number) self.now.proposed) }
    {
        SeqNo(greatest_number(&self.proposed))
    }
}

impl Proposal {
    fn of(said: &PrePrepare) -> Proposal
        ensures { result ≡ proposal_of said.now }
    {
        Proposal {
            view: said.view,
            number: said.number,
            digest: said.digest,
        }
    }
}

// Drops the numbers at or below this one.
fn discard(numbers: &mut Vec<SeqNo>, number: SeqNo)
    ensures { numbers.new.items ≡ filter (λ n. nat_lt number.0 n.0) numbers.old.items }
{
    numbers.retain(|at| *at > number);
}

fn is_among(numbers: &[SeqNo], number: SeqNo) -> bool
    ensures { result ≡ list_any (λ n. n.0 == number.0) numbers.now }
{
    numbers.iter().any(|at| *at == number)
}

fn is_asked(digests: &[Digest], digest: &Digest) -> bool
    ensures { result ≡ list_any (λ d. bytes_eq d.0 digest.now.0) digests.now }
{
    digests.iter().any(|asked| asked == digest)
}

fn is_named(proposals: &[Proposal], digest: &Digest) -> bool
    ensures { result ≡ list_any (λ p. bytes_eq p.digest.0 digest.now.0) proposals.now }
{
    proposals.iter().any(|own| own.digest == *digest)
}

fn discard_proposals(proposals: &mut Vec<Proposal>, number: SeqNo)
    ensures { proposals.new.items ≡ filter (λ p. nat_lt number.0 p.number.0) proposals.old.items }
{
    proposals.retain(|own| own.number > number);
}

fn proposals_of(alloc: Global, list: &[PrePrepare]) -> Result<Vec<Proposal>, AllocError>
    ensures { IfOk result (λ proposals. proposals.items ≡ map proposal_of list.now) }
{
    list.iter().map(Proposal::of).collect(alloc)
}

fn greatest_number(proposals: &[Proposal]) -> u64
    ensures { result ≡ fold (λ greatest p. max greatest p.number.0) 0 proposals.now }
{
    proposals
        .iter()
        .fold(0, |greatest, own| own.number.0.max(greatest))
}
