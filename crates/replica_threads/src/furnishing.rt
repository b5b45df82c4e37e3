//! What a host makes before its threads run.

ghost use Rattle.std.specs.Prelude.{◌≡◌, ◌≤◌, ◌↔◌, IfOk, IsSomeAnd, IsTrue, map};
ghost use Rattle.std.specs.List.{All};
ghost use Rattle.std.specs.Option.{option_copied};
ghost use Rattle.lms_tree.specs.Keys.{IsKeyOf};
ghost use Rattle.replica_threads.specs.Hosts.{HasKeyAt, HaveKeys};

use crate::board::Board;
use crate::desk::Desk;
use crate::links::{Letter, Links, Parcel, Posts};
use crate::record::JournalRecord;
use crossbeam_channel::{Receiver, Sender, unbounded};
use host_types::{Config, PublicKey, ReplicaId};
use lms_tree::Signer;
use seal::Checked;
use std::alloc::{AllocError, Global};
use std::sync::{Arc, Mutex};

/// Whether the signers are those of the listed keys, in the order of the replicas.
pub(crate) fn are_listed(config: &Config, signers: &[Signer]) -> bool
    ensures { IsTrue result ↔ HaveKeys config.now.keys signers.now }
{
    if signers.len() != usize::from(config.replica_count()) {
        return false;
    }
    for id in 0..config.replica_count() {
        if !has_key_at(config, signers, ReplicaId(id)) {
            return false;
        }
    }
    true
}

// Whether the key that is listed for a replica is that of its signer.
fn has_key_at(config: &Config, signers: &[Signer], id: ReplicaId) -> bool
    ensures { IsTrue result ↔ HasKeyAt config.now.keys signers.now id.0 }
{
    match config.replica_key(id) {
        Some(key) => is_key_of(key, signers.get(usize::from(id.0))),
        None => false,
    }
}

fn is_key_of(key: &PublicKey, signer: Option<&Signer>) -> bool
    ensures { IsTrue result ↔ IsSomeAnd (option_copied signer.entry) (λ signer. IsKeyOf key.now signer) }
{
    match signer {
        Some(signer) => *key == signer.public_key(),
        None => false,
    }
}

/// The ends of a replica's queues that its openers and its thread read.
#[derive(Drop)]
pub(crate) struct Inbox {
    pub(crate) parcels: Receiver<Parcel>,
    pub(crate) letters: Receiver<Letter>,
}

/// What a host and its threads speak by, before there are replicas.
#[derive(Drop)]
pub(crate) struct Parts<G: Drop> {
    pub(crate) posts: Arc<Posts>,
    /// By the replicas' ids.
    pub(crate) inboxes: Vec<Inbox>,
    pub(crate) replies: Vec<Receiver<Checked>>,
    pub(crate) records: Arc<Mutex<Vec<Option<JournalRecord>>>>,
    pub(crate) links: Arc<Links<G>>,
}

/// The queues of a configuration's replicas and clients, and the slots for their records.
pub(crate) fn open_parts<G: Drop>(
    alloc: Global,
    config: &Arc<Config>,
    gate: Arc<G>,
) -> Result<Parts<G>, AllocError> {
    let board = Arc::new(alloc, Board::new(alloc, config.replica_count())?)?;
    let (posts, inboxes) = open_posts(alloc, board, config.replica_count())?;
    let (senders, replies) = reply_queues(alloc, config.clients().len())?;
    let posts = Arc::new(alloc, posts)?;
    let records = open_records(alloc, config.replica_count())?;
    let links = open_links(alloc, config, &posts, &records, senders, gate)?;
    Ok(Parts {
        posts,
        inboxes,
        replies,
        records,
        links,
    })
}

// What the threads speak by.
fn open_links<G: Drop>(
    alloc: Global,
    config: &Arc<Config>,
    posts: &Arc<Posts>,
    records: &Arc<Mutex<Vec<Option<JournalRecord>>>>,
    replies: Vec<Sender<Checked>>,
    gate: Arc<G>,
) -> Result<Arc<Links<G>>, AllocError> {
    let links = Links {
        config: Arc::try_clone(config)?,
        posts: Arc::try_clone(posts)?,
        replies,
        records: Arc::try_clone(records)?,
        gate,
    };
    Ok(Arc::new(alloc, links)?)
}

// The queues that lead to replicas, and their other ends.
fn open_posts(
    alloc: Global,
    board: Arc<Board>,
    replicas: u8,
) -> Result<(Posts, Vec<Inbox>), AllocError> {
    let mut posts = Posts {
        board,
        parcels: Vec::new(alloc),
        letters: Vec::new(alloc),
    };
    let mut inboxes = Vec::new(alloc);
    for _ in 0..replicas {
        inboxes.push(open_inbox(alloc, &mut posts)?)?;
    }
    Ok((posts, inboxes))
}

// The queues that lead to one replica: what reads them, beside the posts that fill them.
fn open_inbox(alloc: Global, posts: &mut Posts) -> Result<Inbox, AllocError> {
    let (to_openers, parcels) = unbounded(alloc)?;
    posts.parcels.push(to_openers)?;
    let (to_thread, letters) = unbounded(alloc)?;
    posts.letters.push(to_thread)?;
    Ok(Inbox { parcels, letters })
}

/// The leaf that each signer uses next.
pub(crate) fn next_leaves(alloc: Global, signers: &[Signer]) -> Result<Vec<u32>, AllocError>
    ensures { IfOk result (λ leaves. leaves.items ≡ map (λ s. s.next_leaf) signers.now) }
{
    let mut leaves = Vec::new(alloc);
    for signer in signers {
        leaves.push(signer.next_leaf())?;
    }
    Ok(leaves)
}

/// A desk for each replica, whose journals take so many rows.
pub(crate) fn furnish(
    alloc: Global,
    config: &Arc<Config>,
    signers: Vec<Signer>,
    limit: u32,
    inboxes: Vec<Inbox>,
) -> Result<Vec<Desk>, AllocError>
    requires limit { limit ≤ 65536 }
    requires listed { HaveKeys config.now.value.keys signers.items }
    ensures limit { IfOk result (λ desks. All (λ d. d.journal.value.limit ≡ limit) desks.items) }
{
    let mut signers = signers.into_iter();
    let mut inboxes = inboxes.into_iter();
    let mut desks = Vec::new(alloc);
    for id in 0..config.replica_count() {
        let Some(signer) = signers.next() else {
            unreachable!()
        };
        let Some(inbox) = inboxes.next() else {
            return Err(AllocError);
        };
        desks.push(Desk::new(alloc, config, ReplicaId(id), signer, limit, inbox)?)?;
    }
    Ok(desks)
}

// The ends of a queue for each client.
fn reply_queues(
    alloc: Global,
    clients: usize,
) -> Result<(Vec<Sender<Checked>>, Vec<Receiver<Checked>>), AllocError> {
    let mut senders = Vec::new(alloc);
    let mut receivers = Vec::new(alloc);
    for _ in 0..clients {
        let (sender, receiver) = unbounded(alloc)?;
        senders.push(sender)?;
        receivers.push(receiver)?;
    }
    Ok((senders, receivers))
}

// A slot for the record of each replica.
fn open_records(
    alloc: Global,
    replicas: u8,
) -> Result<Arc<Mutex<Vec<Option<JournalRecord>>>>, AllocError> {
    let mut records = Vec::new(alloc);
    for _ in 0..replicas {
        records.push(None)?;
    }
    Ok(Arc::new(alloc, Mutex::new(records))?)
}
