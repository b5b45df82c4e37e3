//! How many worlds met the premises of each law, and how many broke it.

use crate::end::End;
use crate::laws::{LAWS, Law, Verdict};
use anyhow::Result;
use std::alloc::{AllocError, Global};

/// The worlds of a law.
#[derive(Clone, Copy)]
struct Count {
    law: Law,
    /// Those that met its premises.
    met: u64,
    /// Those of them in which what it says didn't hold.
    broken: u64,
    /// Those in which a message was missing that met the other premises, and in which it didn't hold.
    undrained: u64,
}

/// What worlds are like.
#[derive(Clone, Copy)]
enum Kind {
    Drained,
    NobodyFaulty,
    TwoMayBeFaulty,
    LaterView,
    Installed,
    EarlyVote,
}

const KINDS: [Kind; 6] = [
    Kind::Drained,
    Kind::NobodyFaulty,
    Kind::TwoMayBeFaulty,
    Kind::LaterView,
    Kind::Installed,
    Kind::EarlyVote,
];

impl Kind {
    fn text(self) -> &'static str {
        match self {
            Kind::Drained => "each message came",
            Kind::NobodyFaulty => "nobody is faulty",
            Kind::TwoMayBeFaulty => "two of seven may be faulty",
            Kind::LaterView => "a view above 0 was reached",
            Kind::Installed => "a snapshot was installed",
            Kind::EarlyVote => "a vote came early",
        }
    }

    fn is_of(self, end: &End<'_>) -> bool {
        match self {
            Kind::Drained => end.is_drained,
            Kind::NobodyFaulty => end.nobody_is_faulty(),
            Kind::TwoMayBeFaulty => end.world.plan().f == 2,
            Kind::LaterView => end.statuses.iter().any(|status| status.view.0 > 0),
            Kind::Installed => !end.installs_nothing(),
            Kind::EarlyVote => end.world.notes().is_early,
        }
    }
}

/// The worlds of a kind.
#[derive(Clone, Copy)]
struct Share {
    kind: Kind,
    worlds: u64,
}

/// The worlds of each kind and of each law.
#[derive(Drop)]
pub(crate) struct Tally {
    shares: Vec<Share>,
    counts: Vec<Count>,
}

impl Count {
    fn new(law: Law) -> Count {
        Count {
            law,
            met: 0,
            broken: 0,
            undrained: 0,
        }
    }

    /// Counts a world. Whether it breaks the law.
    fn add(&mut self, verdict: Verdict, is_drained: bool) -> bool {
        let is_broken = verdict == Verdict::Broken;
        if verdict == Verdict::Unmet {
            return false;
        }
        if self.law.wants_drained() && !is_drained {
            self.undrained = self.undrained.saturating_add(u64::from(is_broken));
            return false;
        }
        self.met = self.met.saturating_add(1);
        self.broken = self.broken.saturating_add(u64::from(is_broken));
        is_broken
    }
}

impl Tally {
    pub(crate) fn new(alloc: Global) -> Result<Tally, AllocError> {
        let mut counts = Vec::new(alloc);
        for law in LAWS {
            counts.push(Count::new(law))?;
        }
        let mut shares = Vec::new(alloc);
        for kind in KINDS {
            shares.push(Share { kind, worlds: 0 })?;
        }
        Ok(Tally { shares, counts })
    }

    /// Counts the end of a seed's world, and prints each law that it breaks.
    pub(crate) fn add(&mut self, rt: &impl Print, seed: u64, end: &End<'_>) -> Result<()> {
        for share in self.shares.iter_mut() {
            let one = u64::from(share.kind.is_of(end));
            share.worlds = share.worlds.saturating_add(one);
        }
        let is_first_view = end.is_first_view()?;
        for count in self.counts.iter_mut() {
            let verdict = count.law.verdict(end, is_first_view)?;
            if count.add(verdict, end.is_drained) {
                println!(rt; "seed {seed} breaks {}", count.law.name())?;
            }
        }
        Ok(())
    }

    pub(crate) fn print(&self, rt: &impl Print) -> Result<()> {
        println!(rt; "{:<46}{:>8}", "worlds in which", "")?;
        for share in &self.shares {
            print_share(rt, share)?;
        }
        println!(rt;
            "{:<46}{:>8}{:>8}{:>12}",
            "law", "worlds", "broken", "not drained"
        )?;
        for count in &self.counts {
            print_count(rt, count)?;
        }
        Ok(())
    }
}

fn print_share(rt: &impl Print, share: &Share) -> Result<()> {
    let text = share.kind.text();
    let worlds = share.worlds;
    println!(rt; "{text:<46}{worlds:>8}")?;
    Ok(())
}

fn print_count(rt: &impl Print, count: &Count) -> Result<()> {
    let name = count.law.name();
    let (met, broken, undrained) = (count.met, count.broken, count.undrained);
    println!(rt; "{name:<46}{met:>8}{broken:>8}{undrained:>12}")?;
    Ok(())
}
