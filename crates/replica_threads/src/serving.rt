//! The thread of a replica.

ghost use Rattle.std.specs.Prelude.{◌≡◌, ◌≤◌};
ghost use Rattle.byz_world.specs.Keeping.{first_journal};

use crate::desk::Desk;
use crate::keeping::Keeping;
use crate::links::{Letter, Links};
use crate::named::Named;
use crate::record::JournalRecord;
use crate::seat::Seat;
use crate::standing::Standing;
use crate::station::{PARTS, Station};
use byz_world::{Halt, Journal, Row};
use crossbeam_channel::Receiver;
use host_types::{Config, Gate, ReplicaId};
use seal::Checked;
use std::alloc::Global;
use std::marker::Brand;
use std::sync::ledger::Blank;
use std::sync::{Arc, Wait};
use std::thread::Threads;

/// Serves at a desk until a letter says stop: the journal of the replica.
pub(crate) fn serve_at<R: Wait + Threads + Sync, G: Gate + Sync + Drop>(
    rt: &R,
    alloc: Global,
    links: &Links<G>,
    desk: Desk,
) -> JournalRecord {
    let Desk {
        config,
        id,
        journal,
        parcels: _,
        letters,
        first_leaf,
        held,
    } = desk;
    let blank = Blank::new(PARTS);
    serve::<Brand, R, G>(
        rt,
        links,
        blank,
        config,
        id,
        first_leaf,
        Box::into_inner(journal),
        Keeping::new(alloc, held),
        letters,
    )
}

// Serves as the replica that the name stands for.
fn serve<K: Named, R: Wait + Threads + Sync, G: Gate + Sync + Drop>(
    rt: &R,
    links: &Links<G>,
    blank: Blank,
    config: Arc<Config>,
    id: ReplicaId,
    first_leaf: u32,
    journal: Journal,
    keeping: Keeping,
    letters: Receiver<Letter>,
) -> JournalRecord
    requires name { blank.name ≡ K.name }
    requires parts { (blank.parts ≡ K.parts) × (blank.parts ≡ 65536) }
    requires config { config.value ≡ K.config }
    requires id { id.0 ≡ K.id }
    requires leaf { K.signer.next_leaf ≡ first_leaf }
    requires journal { journal ≡ first_journal K.config K.id K.signer K.limit }
    requires limit { journal.limit ≤ 65536 }
    requires held { keeping.held.config ≡ K.config }
{
    let (station, seat) = Station::<K>::of(blank, id, journal);
    serve_letters(
        rt, links, &config, id, first_leaf, &station, seat, keeping, letters,
    );
    station.into_record(config, id, first_leaf)
}

// Serves letter after letter. One is done with once all that came of it is posted.
fn serve_letters<K: Named, R: Wait + Threads + Sync, G: Gate + Sync + Drop>(
    rt: &R,
    links: &Links<G>,
    config: &Arc<Config>,
    id: ReplicaId,
    first_leaf: u32,
    station: &Station<K>,
    mut seat: Seat<K>,
    mut keeping: Keeping,
    letters: Receiver<Letter>,
)
    requires config { config.now.value ≡ K.config }
    requires id { id.0 ≡ K.id }
    requires leaf { K.signer.next_leaf ≡ first_leaf }
    requires held { keeping.held.config ≡ K.config }
{
    tell(
        rt,
        links,
        config,
        id,
        first_leaf,
        station,
        &mut seat,
        &mut keeping,
    );
    for _ in rt.forever() {
        let Ok(letter) = letters.recv(rt) else {
            break;
        };
        if matches!(&letter, Letter::Stop) {
            break;
        }
        if attend(
            rt,
            links,
            config,
            station,
            &mut seat,
            &mut keeping,
            id,
            letter,
        ) {
            tell(
                rt,
                links,
                config,
                id,
                first_leaf,
                station,
                &mut seat,
                &mut keeping,
            );
            hand_in(
                rt,
                links,
                config,
                id,
                first_leaf,
                station,
                &mut seat,
                &mut keeping,
            );
        }
        links.posts.board.end();
    }
}

// Whether a letter was handed to the station. A message that isn't under the station's configuration is dropped, a vote
// that is early kept. At a tick what may have been lost is posted again.
fn attend<K: Named, R: Wait + Threads + Sync, G: Gate + Sync + Drop>(
    rt: &R,
    links: &Links<G>,
    config: &Arc<Config>,
    station: &Station<K>,
    seat: &mut Seat<K>,
    keeping: &mut Keeping,
    id: ReplicaId,
    letter: Letter,
) -> bool
    requires config { config.now.value ≡ K.config }
    requires held { keeping.old.held.config ≡ K.config }
    ensures held { keeping.new.held.config ≡ K.config }
{
    match letter {
        Letter::Message(message) if message.under(config) => {
            let Some(message) = keeping.unless_early(message) else {
                return false;
            };
            let stepped = station.take(rt, seat, &message, &*links.gate);
            pass_on(rt, links, id, keeping, stepped);
            true
        }
        Letter::Timeout => {
            let stepped = station.timeout(rt, seat, &*links.gate);
            let goes_on = stepped.is_ok();
            pass_on(rt, links, id, keeping, stepped);
            if goes_on {
                keeping.post_again(rt, links, id);
            }
            true
        }
        _ => false,
    }
}

// Posts what a step gave. A halt gives nothing.
fn pass_on<R: Wait, G: Gate + Drop>(
    rt: &R,
    links: &Links<G>,
    id: ReplicaId,
    keeping: &mut Keeping,
    stepped: Result<Row, Halt>,
)
    ensures held { keeping.new.held ≡ keeping.old.held }
{
    if let Ok(row) = stepped {
        links.pass_on(rt, id, &row);
        keeping.note(&row);
    }
}

// Hands in the votes that are on time now, one after another: each may raise the low mark again.
fn hand_in<K: Named, R: Wait + Threads + Sync, G: Gate + Sync + Drop>(
    rt: &R,
    links: &Links<G>,
    config: &Arc<Config>,
    id: ReplicaId,
    first_leaf: u32,
    station: &Station<K>,
    seat: &mut Seat<K>,
    keeping: &mut Keeping,
)
    requires config { config.now.value ≡ K.config }
    requires id { id.0 ≡ K.id }
    requires leaf { K.signer.next_leaf ≡ first_leaf }
    requires held { keeping.old.held.config ≡ K.config }
    ensures held { keeping.new.held.config ≡ K.config }
{
    for _ in 0..keeping.held.len() {
        let Some(vote) = keeping.held.next() else {
            break;
        };
        let stepped = station.take(rt, seat, &vote, &*links.gate);
        pass_on(rt, links, id, keeping, stepped);
        tell(rt, links, config, id, first_leaf, station, seat, keeping);
    }
}

// Tells on the board where the replica stands, and the votes that are kept which of them are on time.
fn tell<K: Named, R: Wait, G: Gate + Drop>(
    rt: &R,
    links: &Links<G>,
    config: &Arc<Config>,
    id: ReplicaId,
    first_leaf: u32,
    station: &Station<K>,
    seat: &mut Seat<K>,
    keeping: &mut Keeping,
)
    requires config { config.now.value ≡ K.config }
    requires id { id.0 ≡ K.id }
    requires leaf { K.signer.next_leaf ≡ first_leaf }
    ensures held { keeping.new.held.config ≡ keeping.old.held.config }
{
    let status = station.report(rt, seat);
    keeping.move_to(&status);
    if let Ok(config) = Arc::try_clone(config) {
        let standing = Standing::new(config, id, first_leaf, status);
        let waiting = keeping.is_waiting();
        links.posts.board.tell(rt, id, standing, waiting);
    }
}
