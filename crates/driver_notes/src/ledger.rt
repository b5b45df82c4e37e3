//! What replicas say that they did, one thing after another, and where their words differ.

ghost use Rattle.std.specs.Prelude.{◌≡◌, ◌<◌, ◌↔◌, IfOk, IsTrue, OnErr, OnOk, length};
ghost use Rattle.driver_notes.specs.Accounts.{Differ, DiffersAt, IsFirst, Remarks, begun, follows, none_noted, recorded};

use host_types::{Bytes, Digest, SeqNo};
use std::alloc::{AllocError, Global};
use std::marker::Model;

/// What a replica says that it did: it executed a request, or, where there is no result, it installed a state.
#[derive(Debug, Drop)]
pub struct Deed {
    /// At which the request was executed, or whose state was installed.
    pub number: SeqNo,
    /// Of the request, or of the state's bytes.
    pub digest: Digest,
    /// The request's result, empty where there is no reply.
    pub result: Option<Bytes>,
}

/// What is remarked of a deed that was noted.
#[derive(Clone, Copy, Debug, PartialEq, Eq)]
pub struct Remark {
    /// The place, from 0 on, of the first deed before it that differs: it too was executed, or it too was installed, at the same number,
    /// with another digest or another result.
    pub first: Option<usize>,
    /// False for an execution whose number isn't the replica's last one plus 1.
    pub follows: bool,
}

/// The deeds of replicas that were noted, in order. It is their word, and no proof: nobody has signed it.
#[derive(Drop)]
pub struct Ledger {
    deeds: Vec<Deed>,
    /// The last number of the replica whose deeds come now.
    last: SeqNo,
}

impl Model for Ledger {
    ghost use Rattle.driver_notes.specs.Accounts.{LedgerFacts};

    ghost Value = { LedgerFacts };

    ghost view = { λ l. record { deeds = l.deeds.items; last = l.last.0 } };
}

impl Ledger {
    /// Nothing was noted yet. The deeds that come are those of a replica before its first number.
    pub fn new(alloc: Global) -> Ledger
        ensures { result ≡ none_noted }
    {
        Ledger {
            deeds: Vec::new(alloc),
            last: SeqNo(0),
        }
    }

    /// How many deeds were noted.
    pub fn len(&self) -> usize
        ensures { result ≡ length self.now.deeds }
    {
        self.deeds.len()
    }

    /// The deeds of another replica come, whose last number was this one: 0 where they are all that it did. What was noted stays.
    pub fn begin(&mut self, last: SeqNo)
        ensures { self.new ≡ begun self.old last.0 }
    {
        self.last = last;
    }

    /// Notes what the replica did next, and tells whether that differs from a deed noted before, its own ones too, and whether it
    /// follows on the replica's last number. The error is that memory ran out, and changes nothing. It goes over all that was noted.
    pub fn note(&mut self, deed: Deed) -> Result<Remark, AllocError>
        ensures remarked { IfOk result (λ remark. Remarks self.old deed remark) }
        ensures recorded { OnOk result (self.new ≡ recorded self.old deed) }
        ensures unchanged { OnErr result (self.new ≡ self.old) }
    {
        let remark = Remark {
            first: first_of(&self.deeds, &deed),
            follows: follows(self.last, &deed),
        };
        let number = deed.number;
        self.deeds.push(deed)?;
        self.last = number;
        Ok(remark)
    }
}

/// The first place of a deed that differs from this one.
fn first_of(deeds: &[Deed], deed: &Deed) -> Option<usize>
    ensures { IsFirst deeds.now deed.now result }
{
    for place in 0..deeds.len() {
        if differs_at(deeds, deed, place) {
            return Some(place);
        }
    }
    None
}

fn differs_at(deeds: &[Deed], deed: &Deed, place: usize) -> bool
    requires { place < length deeds.now }
    ensures { IsTrue result ↔ DiffersAt deeds.now deed.now place }
{
    differ(&deeds[place], deed)
}

fn differ(one: &Deed, other: &Deed) -> bool
    ensures { IsTrue result ↔ Differ one.now other.now }
{
    one.number == other.number
        && one.result.is_some() == other.result.is_some()
        && !is_same(one, other)
}

fn is_same(one: &Deed, other: &Deed) -> bool
    ensures { IsTrue result ↔ (one.now ≡ other.now) }
{
    one.number == other.number
        && one.digest == other.digest
        && is_same_result(&one.result, &other.result)
}

fn is_same_result(one: &Option<Bytes>, other: &Option<Bytes>) -> bool
    ensures { IsTrue result ↔ (one.now ≡ other.now) }
{
    match (one, other) {
        (Some(one), Some(other)) => one.as_slice() == other.as_slice(),
        (None, None) => true,
        _ => false,
    }
}

/// Whether a deed may come behind this number.
fn follows(last: SeqNo, deed: &Deed) -> bool
    ensures { result ≡ follows last.0 deed.now }
{
    deed.result.is_none() || deed.number.0.checked_sub(1) == Some(last.0)
}
