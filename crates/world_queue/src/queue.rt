//! Messages on their way.

ghost use Rattle.std.specs.Prelude.{◌≡◌, ◌<◌, ◌++◌, ◌∷◌, [], Some, None, IfNone, IsSomeAnd, IfOk, OnOk, MatchOption, length, option_copied, slice_get};
ghost use Rattle.std.specs.List.{list_any};
ghost use Rattle.script_text.specs.Kind.{Kind};
ghost use Rattle.script_text.specs.Node.{Node};
ghost use Rattle.world_queue.specs.Letters.{IsTaken, LetterFacts, addressed, all_but, copies, first_meant, is_among, is_meant, letter_of, meant_count, meant_one, same_kind, same_node, without_first};
ghost use Rattle.world_queue.specs.Effects.{IsPlace};

use host_types::Bytes;
use pbft_codec::Sequence;
use script_text::{Filter, Kind, Node};
use seal::Checked;
use std::alloc::{AllocError, Global};
use std::collections::VecDeque;
use std::marker::Model;
use std::sync::Arc;

/// A message on its way: bytes, with what the script knows of them. Raw bytes have no sender or kind.
#[derive(Drop)]
pub struct Letter {
    pub(crate) to: Node,
    pub(crate) from: Option<Node>,
    pub(crate) kind: Option<Kind>,
    pub(crate) bytes: Arc<Bytes>,
}

impl Model for Letter {
    ghost use Rattle.world_queue.specs.Letters.{LetterFacts};

    ghost Value = { LetterFacts };

    ghost view = { λ l. record { to = l.to; from = l.from; kind = l.kind; bytes = l.bytes.value } };
}

impl Letter {
    /// A letter that is addressed to nobody but this node yet.
    pub fn new(
        alloc: Global,
        to: Node,
        from: Option<Node>,
        kind: Option<Kind>,
        bytes: &[u8],
    ) -> Result<Letter, AllocError>
        ensures { IfOk result (λ l. l ≡ record { to = to; from = from; kind = kind; bytes = bytes.now }) }
    {
        let bytes = Bytes::from_vec(Vec::from_slice(alloc, bytes)?);
        Ok(Letter {
            to,
            from,
            kind,
            bytes: Arc::new(alloc, bytes)?,
        })
    }

    /// Whom it is for.
    pub fn to(&self) -> Node
        ensures { result ≡ self.now.to }
    {
        self.to
    }

    /// Who queued it. Raw bytes have no sender.
    pub fn from(&self) -> Option<Node>
        ensures { result ≡ self.now.from }
    {
        self.from
    }

    /// Its kind. Raw bytes have none.
    pub fn kind(&self) -> Option<Kind>
        ensures { result ≡ self.now.kind }
    {
        self.kind
    }

    /// Its bytes.
    pub fn bytes(&self) -> &[u8]
        ensures { result.now ≡ self.now.bytes }
    {
        let bytes: &Bytes = &self.bytes;
        bytes.as_slice()
    }

    /// The same letter for this addressee; its bytes are not copied.
    pub(crate) fn copy_to(&self, to: Node) -> Result<Letter, AllocError>
        ensures { IfOk result (λ l. l ≡ addressed self.now to) }
    {
        Ok(Letter {
            to,
            from: self.from,
            kind: self.kind,
            bytes: Arc::try_clone(&self.bytes)?,
        })
    }

    /// Whether a filter means it.
    pub(crate) fn is_meant_by(&self, filter: &Filter) -> bool
        ensures { result ≡ is_meant filter.now self.now }
    {
        names_node(&filter.to, Some(self.to))
            && names_node(&filter.from, self.from)
            && names_kind(&filter.kinds, self.kind)
    }
}

/// A message as a letter, addressed to its sender.
pub fn letter_of(alloc: Global, from: Node, message: &Checked) -> Result<Letter, AllocError>
    ensures { IfOk result (λ l. l ≡ letter_of from message.now.message) }
{
    let kind = Kind::of(message.body());
    Letter::new(alloc, from, Some(from), Some(kind), message.bytes())
}

/// Whether a list of nodes is left out, or has this one.
fn names_node(list: &Option<Sequence<Node>>, node: Option<Node>) -> bool
    ensures { result ≡ is_among same_node list.now node }
{
    match (list, node) {
        (None, _) => true,
        (Some(_), None) => false,
        (Some(list), Some(node)) => has_node(list.as_slice(), node),
    }
}

fn has_node(list: &[Node], node: Node) -> bool
    ensures { result ≡ list_any (λ (one : Node). same_node one node) list.now }
{
    list.iter().any(|one| is_same_node(*one, node))
}

fn is_same_node(one: Node, other: Node) -> bool
    ensures { result ≡ same_node one other }
{
    match (one, other) {
        (Node::Replica(one), Node::Replica(other)) => one.0 == other.0,
        (Node::Client(one), Node::Client(other)) => one.0 == other.0,
        (Node::Replica(_), Node::Client(_)) | (Node::Client(_), Node::Replica(_)) => false,
    }
}

/// Whether a list of kinds is left out, or has this one.
fn names_kind(list: &Option<Sequence<Kind>>, kind: Option<Kind>) -> bool
    ensures { result ≡ is_among same_kind list.now kind }
{
    match (list, kind) {
        (None, _) => true,
        (Some(_), None) => false,
        (Some(list), Some(kind)) => has_kind(list.as_slice(), kind),
    }
}

fn has_kind(list: &[Kind], kind: Kind) -> bool
    ensures { result ≡ list_any (λ (one : Kind). same_kind one kind) list.now }
{
    list.iter().any(|one| is_same_kind(*one, kind))
}

fn is_same_kind(one: Kind, other: Kind) -> bool
    ensures { result ≡ same_kind one other }
{
    one.number() == other.number()
}

/// Messages on their way, the next one first.
#[derive(Drop)]
pub struct Queue {
    pub(crate) alloc: Global,
    pub(crate) letters: VecDeque<Letter>,
}

impl Model for Queue {
    ghost use Rattle.std.specs.Prelude.{List};
    ghost use Rattle.world_queue.specs.Letters.{LetterFacts};

    ghost Value = { List LetterFacts };

    ghost view = { λ q. q.letters.items };
}

impl Queue {
    /// A queue of no messages.
    pub fn new(alloc: Global) -> Queue
        ensures { result ≡ [] }
    {
        Queue {
            alloc,
            letters: VecDeque::new(alloc),
        }
    }

    /// Queues a letter last.
    pub fn push(&mut self, letter: Letter) -> Result<(), AllocError>
        ensures { OnOk result (self.new ≡ self.old ++ letter ∷ []) }
    {
        self.letters.push_back(letter)?;
        Ok(())
    }

    /// Takes the next letter out.
    fn pop(&mut self) -> Option<Letter>
        ensures { MatchOption result ((self.old ≡ []) × (self.new ≡ [])) (λ l. self.old ≡ l ∷ self.new) }
    {
        self.letters.pop_front()
    }

    /// Queues a letter for each node of a list.
    pub fn send(&mut self, letter: &Letter, to: &[Node]) -> Result<(), AllocError>
        ensures { OnOk result (self.new ≡ self.old ++ copies letter.now to.now) }
    {
        for node in to {
            self.push(letter.copy_to(*node)?)?;
        }
        Ok(())
    }

    /// Queues a letter for each node of a list but one.
    pub fn send_but(&mut self, letter: &Letter, to: &[Node], one: Node) -> Result<(), AllocError>
        ensures { OnOk result (self.new ≡ self.old ++ copies letter.now (all_but one to.now)) }
    {
        for node in to {
            if !is_same_node(*node, one) {
                self.push(letter.copy_to(*node)?)?;
            }
        }
        Ok(())
    }

    /// Takes the first letter out that is meant; those before it go to `others`, of which none is.
    pub fn next_meant(
        &mut self,
        filter: &Filter,
        others: &mut Queue,
    ) -> Result<Option<Letter>, AllocError>
        requires { first_meant filter.now others.old ≡ None }
        ensures passed { OnOk result (first_meant filter.now others.new ≡ None) }
        ensures found { IfOk result (λ letter. letter ≡ first_meant filter.now (others.old ++ self.old)) }
        ensures rest { OnOk result (others.new ++ self.new ≡ without_first filter.now (others.old ++ self.old)) }
        ensures emptied { IfOk result (λ letter. IfNone letter (self.new ≡ [])) }
    {
        while let Some(letter) = self.pop() {
            if letter.is_meant_by(filter) {
                return Ok(Some(letter));
            }
            others.push(letter)?;
        }
        Ok(None)
    }

    /// How many letters there are.
    pub fn len(&self) -> usize
        ensures { result ≡ length self.now }
    {
        self.letters.len()
    }

    /// A copy of the letter at an index, if there is one.
    pub fn copy_of(&self, index: usize) -> Result<Option<Letter>, AllocError>
        ensures { IfOk result (λ letter. letter ≡ slice_get self.now index) }
    {
        match self.letters.get(index) {
            Some(letter) => Ok(Some(letter.copy_to(letter.to)?)),
            None => Ok(None),
        }
    }

    /// A copy of the first letter that is meant.
    #[tactic(auto, using(crate::proofs::Lists::none_meant, crate::proofs::Lists::place_first))]
    pub fn first_meant(&self, filter: &Filter) -> Result<Option<Letter>, AllocError>
        ensures { IfOk result (λ letter. letter ≡ first_meant filter.now self.now) }
    {
        if self.count_meant(filter) == 0 {
            return Ok(None);
        }
        match self.place_of(filter, 0) {
            Some(index) => self.copy_of(index),
            None => Ok(None),
        }
    }

    /// How many letters are meant.
    pub fn count_meant(&self, filter: &Filter) -> usize
        ensures { result ≡ meant_count filter.now self.now }
    {
        let mut count = 0;
        for index in 0..self.letters.len() {
            if let Some(letter) = self.letters.get(index) {
                if letter.is_meant_by(filter) {
                    count += 1;
                }
            }
        }
        count
    }

    /// Takes out the letter that is meant and has so many before it that are.
    pub fn take_meant(&mut self, filter: &Filter, passed: usize) -> Option<Letter>
        requires { passed < meant_count filter.now self.old }
        ensures { IsSomeAnd result (λ l. IsTaken filter.now passed self.old l self.new) }
    {
        let index = self.place_of(filter, passed)?;
        self.letters.remove(index)
    }

    /// The letter at an index, if there is one and it is meant.
    pub fn meant_at(&self, filter: &Filter, index: usize) -> Option<&Letter>
        ensures { option_copied result ≡ meant_one filter.now (slice_get self.now index) }
    {
        let letter = self.letters.get(index)?;
        if letter.is_meant_by(filter) {
            Some(letter)
        } else {
            None
        }
    }

    /// Where the letter stands that is meant and has so many before it that are.
    fn place_of(&self, filter: &Filter, passed: usize) -> Option<usize>
        requires { passed < meant_count filter.now self.now }
        ensures { IsSomeAnd result (λ i. IsPlace filter.now passed self.now i) }
    {
        let mut left = passed;
        for index in 0..self.letters.len() {
            if let Some(letter) = self.letters.get(index) {
                if letter.is_meant_by(filter) {
                    if left == 0 {
                        return Some(index);
                    }
                    left -= 1;
                }
            }
        }
        None
    }
}
