//! What is found under one seed after another.

ghost use Rattle.std.specs.Prelude.{◌≡◌, ◌+◌, ◌-◌, ◌^◌, ◌<◌, ◌≤◌, ◌↔◌, ℕ, List, Option, Contains, IfOk, IsTrue, length, min, string_bytes};
ghost use Rattle.script_text.specs.Orders.{ordered};
ghost use Rattle.world_chart.specs.Lines.{blame_line};
ghost use Rattle.world_script.specs.Keys.{keys_of};
ghost use Rattle.world_trace.specs.Exploring.{IsOutcome};
ghost use Rattle.world_trace.specs.Finding.{AreExplored, IsLineOf, IsNew, Stands, TakesSeeds, TellsBlame, TellsChoices, TellsEnd, TellsOne};
ghost use Rattle.world_trace.specs.Searches.{Explores, Searches, seed_line};

use crate::explore::{Explored, Outcome, Seeds, Wanted, explore_seed};
use crate::shrink::{Finding, Found};
use script_text::{Script, ScriptFault, Step};
use std::alloc::{AllocError, Global};
use std::cmp::min;
use std::io::Write;
use std::thread::{self, Threads};
use world_chart::{Blame, Happening, line_of};
use world_script::{KeySources, Progress, RunFault, report, write_text};

/// What is searched: under which seeds what holds behind the script's steps.
#[derive(Clone, Copy, Debug, PartialEq, Eq)]
pub struct Search {
    pub seeds: Seeds,
    pub wanted: Wanted,
    /// Whether choices are written, too, under which what ends the search is found again.
    pub shrinks: bool,
}

/// What came of a script under all seeds.
#[must_use]
#[derive(Clone, Copy, Debug, PartialEq, Eq)]
pub enum Searched {
    /// Its steps ran, each `expect` found its lines, and what is wanted held, under each seed.
    Agreed,
    /// Under one seed it was not so; the line that says so is written.
    Refused,
}

/// Makes the keys of a script, and runs it under one seed after another, until one is found under which a step ends the
/// script early, or what is wanted doesn't hold at its end. Writes a line for it, and before it one for each
/// blame, with the first seed under which it was heard; and how many seeds there were, where all agreed. It tells how many
/// keys are made, and under how many seeds the script was run. Where the search shrinks, a line follows the finding for each step
/// that delivers, `# step 4: choose = [0, 2]`, or `# step 4: order = 3` where it has chances: with these in place of their orders the
/// script comes to the same finding.
pub fn explore_script<O: Write, P: Progress>(
    alloc: Global,
    search: Search,
    script: &Script,
    writer: &mut O,
    progress: &mut P,
) -> Result<Searched, ScriptFault>
    ensures { Explores script.now search (O.contents writer.old) (O.contents writer.new) result }
{
    match explore_in_turn(alloc, script, search, writer, progress) {
        Ok(searched) => Ok(searched),
        Err(fault) => {
            let reported = report(ScriptFault::at_head(fault.into()), writer);
            Err(reported)
        }
    }
}

/// Does the same, with so many seeds side by side, each in a thread of its own where one can be made. What is written is
/// the same.
pub fn explore_side_by_side<R: Threads + Sync, O: Write, P: Progress>(
    rt: &R,
    alloc: Global,
    workers: usize,
    search: Search,
    script: &Script,
    writer: &mut O,
    progress: &mut P,
) -> Result<Searched, ScriptFault>
    requires { 0 < workers }
    ensures { Explores script.now search (O.contents writer.old) (O.contents writer.new) result }
{
    match explore_in_batches(rt, alloc, workers, script, search, writer, progress) {
        Ok(searched) => Ok(searched),
        Err(fault) => {
            let reported = report(ScriptFault::at_head(fault.into()), writer);
            Err(reported)
        }
    }
}

fn explore_in_turn<O: Write, P: Progress>(
    alloc: Global,
    script: &Script,
    search: Search,
    writer: &mut O,
    progress: &mut P,
) -> Result<Searched, RunFault>
    ensures { Searches script.now search (O.contents writer.old) (O.contents writer.new) result }
{
    let sources = KeySources::watched(alloc, &script.head, progress)?;
    let searching = Searching {
        alloc,
        script,
        sources: &sources,
        search,
    };
    searching.run_in_turn(writer, progress)
}

fn explore_in_batches<R: Threads + Sync, O: Write, P: Progress>(
    rt: &R,
    alloc: Global,
    workers: usize,
    script: &Script,
    search: Search,
    writer: &mut O,
    progress: &mut P,
) -> Result<Searched, RunFault>
    requires { 0 < workers }
    ensures { Searches script.now search (O.contents writer.old) (O.contents writer.new) result }
{
    let sources = KeySources::watched(alloc, &script.head, progress)?;
    let searching = Searching {
        alloc,
        script,
        sources: &sources,
        search,
    };
    searching.run_in_batches(rt, workers, writer, progress)
}

/// A search that runs, the script that is searched, and its head's keys.
#[derive(Clone, Copy)]
struct Searching<'a> {
    alloc: Global,
    script: &'a Script,
    sources: &'a KeySources,
    search: Search,
}

impl Searching<'_> {
    /// Runs the script under one seed after another.
    fn run_in_turn<O: Write, P: Progress>(
        self,
        writer: &mut O,
        progress: &mut P,
    ) -> Result<Searched, RunFault>
        requires { self.sources.now ≡ keys_of self.script.now.head }
        ensures { Searches self.entry.script.now self.entry.search (O.contents writer.old) (O.contents writer.new) result }
    {
        let Seeds { first, end } = self.search.seeds;
        let mut blamed = Vec::new(self.alloc);
        let mut next = first;
        while next < end {
            let explored = self.explore(next)?;
            match self.take(next, &explored, &mut blamed, writer, progress)? {
                Searched::Agreed => {}
                Searched::Refused => return Ok(Searched::Refused),
            }
            next += 1;
            self.tell(next, progress);
        }
        self.end(writer)
    }

    /// Runs it under so many seeds at a time.
    fn run_in_batches<R: Threads + Sync, O: Write, P: Progress>(
        self,
        rt: &R,
        workers: usize,
        writer: &mut O,
        progress: &mut P,
    ) -> Result<Searched, RunFault>
        requires keys { self.sources.now ≡ keys_of self.script.now.head }
        requires workers { 0 < workers }
        ensures { Searches self.entry.script.now self.entry.search (O.contents writer.old) (O.contents writer.new) result }
    {
        let Seeds { first, end } = self.search.seeds;
        let mut blamed = Vec::new(self.alloc);
        let mut next = first;
        while next < end {
            let left = usize::try_from(end - next).unwrap_or(usize::MAX);
            let count = min(workers, left);
            let batch = self.explore_batch(rt, next, count)?;
            match self.take_batch(next, &batch, &mut blamed, writer, progress)? {
                Searched::Agreed => {}
                Searched::Refused => return Ok(Searched::Refused),
            }
            next += count as u64;
            self.tell(next, progress);
        }
        self.end(writer)
    }

    fn explore(self, seed: u64) -> Result<Explored, AllocError>
        requires { self.sources.now ≡ keys_of self.script.now.head }
        ensures { IfOk result (λ explored. IsOutcome (ordered seed self.entry.script.now) self.entry.search.wanted explored.outcome) }
    {
        let Searching {
            alloc,
            script,
            sources,
            search,
        } = self;
        explore_seed(alloc, script, sources, seed, search.wanted)
    }

    /// Runs the script under so many seeds from one on, side by side.
    fn explore_batch<R: Threads + Sync>(
        self,
        rt: &R,
        first: u64,
        count: usize,
    ) -> Result<Vec<Result<Explored, AllocError>>, AllocError>
        requires keys { self.sources.now ≡ keys_of self.script.now.head }
        requires fits { first + count < 2 ^ 64 }
        ensures count { IfOk result (λ batch. length batch.items ≡ count) }
        ensures each { IfOk result (λ batch. AreExplored self.entry.script.now self.entry.search.wanted first batch.items) }
    {
        let Searching {
            alloc,
            script,
            sources,
            search,
        } = self;
        let wanted = search.wanted;
        let run = move |index: usize| -> Result<Explored, AllocError>
            requires { sources.now ≡ keys_of script.now.head }
            ensures { IfOk result (λ explored. IsOutcome (ordered (min (first + index) 18446744073709551615) script.entry.now) wanted explored.outcome) }
        {
            let seed = first.saturating_add(index as u64);
            explore_seed(alloc, script, sources, seed, wanted)
        };
        thread::map_indices(rt, alloc, count, &run)
    }

    /// Takes what came of the script under the seeds from one on, one after another.
    fn take_batch<O: Write, P: Progress>(
        self,
        first: u64,
        batch: &[Result<Explored, AllocError>],
        blamed: &mut Vec<Blame>,
        writer: &mut O,
        progress: &mut P,
    ) -> Result<Searched, RunFault>
        requires keys { self.sources.now ≡ keys_of self.script.now.head }
        requires each { AreExplored self.script.now self.search.wanted first batch.now }
        requires within { first + length batch.now ≤ self.search.seeds.end }
        ensures { (start : Option (List ℕ)) → Stands self.entry.script.now self.entry.search first blamed.old.items start (O.contents writer.old) → TakesSeeds self.entry.script.now self.entry.search (first + length batch.now) blamed.new.items start (O.contents writer.new) result }
    {
        let mut seed = first;
        for explored in batch {
            let Ok(explored) = explored else {
                return Err(RunFault::Memory);
            };
            match self.take(seed, explored, blamed, writer, progress)? {
                Searched::Agreed => {}
                Searched::Refused => return Ok(Searched::Refused),
            }
            seed += 1;
        }
        Ok(Searched::Agreed)
    }

    /// Takes what came of the script under a seed, and writes what is new of it.
    fn take<O: Write, P: Progress>(
        self,
        seed: u64,
        explored: &Explored,
        blamed: &mut Vec<Blame>,
        writer: &mut O,
        progress: &mut P,
    ) -> Result<Searched, RunFault>
        requires keys { self.sources.now ≡ keys_of self.script.now.head }
        requires comes { IsOutcome (ordered seed self.script.now) self.search.wanted explored.now.outcome }
        requires within { seed < self.search.seeds.end }
        ensures { (start : Option (List ℕ)) → Stands self.entry.script.now self.entry.search seed blamed.old.items start (O.contents writer.old) → TakesSeeds self.entry.script.now self.entry.search (seed + 1) blamed.new.items start (O.contents writer.new) result }
    {
        self.write_blame(seed, &explored.blamed, blamed, writer)?;
        let Some(line) = line_of_outcome(self.alloc, seed, &explored.outcome)? else {
            return Ok(Searched::Agreed);
        };
        write_text(writer, &line)?;
        tell_unexpected(self.script, explored, progress);
        self.write_choices(seed, explored.outcome, writer)?;
        Ok(Searched::Refused)
    }

    /// Writes who is blamed under a seed and why, unless that was so under an earlier one.
    fn write_blame<O: Write>(
        self,
        seed: u64,
        heard: &[Blame],
        blamed: &mut Vec<Blame>,
        writer: &mut O,
    ) -> Result<(), RunFault>
        ensures { TellsBlame seed heard.now blamed.old.items blamed.new.items (O.contents writer.old) (O.contents writer.new) result }
    {
        for blame in heard {
            self.write_one(seed, blame, blamed, writer)?;
        }
        Ok(())
    }

    fn write_one<O: Write>(
        self,
        seed: u64,
        blame: &Blame,
        blamed: &mut Vec<Blame>,
        writer: &mut O,
    ) -> Result<(), RunFault>
        ensures { TellsOne seed blame.now blamed.old.items blamed.new.items (O.contents writer.old) (O.contents writer.new) result }
    {
        if !is_new(blamed, blame)? {
            return Ok(());
        }
        let line = line_of_blame(self.alloc, seed, blame)?;
        write_text(writer, &line)
    }

    /// Writes the choices of what was found under a seed, where the search shrinks it.
    fn write_choices<O: Write>(
        self,
        seed: u64,
        outcome: Outcome,
        writer: &mut O,
    ) -> Result<(), RunFault>
        requires { self.sources.now ≡ keys_of self.script.now.head }
        ensures { TellsChoices self.entry.script.now self.entry.search outcome (O.contents writer.old) (O.contents writer.new) result }
    {
        if !self.search.shrinks {
            return Ok(());
        }
        let found = Found {
            alloc: self.alloc,
            script: self.script,
            sources: self.sources,
            finding: Finding {
                seed,
                wanted: self.search.wanted,
                outcome,
            },
        };
        found.write_choices(writer)
    }

    /// Writes how many seeds there were.
    fn end<O: Write>(self, writer: &mut O) -> Result<Searched, RunFault>
        ensures { TellsEnd (self.entry.search.seeds.end - self.entry.search.seeds.first) (O.contents writer.old) (O.contents writer.new) result }
    {
        let Seeds { first, end } = self.search.seeds;
        let many = end.saturating_sub(first);
        let line = format!(in self.alloc; "explored {many} seeds\n")?;
        write_text(writer, &line)?;
        Ok(Searched::Agreed)
    }

    /// Tells that the script was run under the seeds before this one.
    fn tell<P: Progress>(self, next: u64, progress: &mut P) {
        let Seeds { first, end } = self.search.seeds;
        progress.seeds(next.saturating_sub(first), end.saturating_sub(first));
    }
}

/// Tells what the `expect` wants that found other lines, if one did, and what was printed.
fn tell_unexpected<P: Progress>(script: &Script, explored: &Explored, progress: &mut P) {
    let Outcome::Unexpected { step, .. } = explored.outcome else {
        return;
    };
    let index = (step as usize).saturating_sub(1);
    if let Some(named) = script.steps.as_slice().get(index) {
        if let Step::Expect(expected) = &named.step {
            progress.unexpected(step, expected.as_slice(), &explored.printed);
        }
    }
}

/// Notes who is blamed. Whether he was not blamed so before.
fn is_new(blamed: &mut Vec<Blame>, blame: &Blame) -> Result<bool, AllocError>
    ensures { IfOk result (IsNew blame.now blamed.old.items blamed.new.items) }
{
    if is_among(blamed, blame) {
        return Ok(false);
    }
    blamed.push(*blame)?;
    Ok(true)
}

/// Whether someone was blamed so before.
fn is_among(blamed: &[Blame], blame: &Blame) -> bool
    ensures { IsTrue result ↔ Contains blamed.now blame.now }
{
    blamed.contains(blame)
}

/// The line of blame under a seed.
fn line_of_blame(alloc: Global, seed: u64, blame: &Blame) -> Result<String, AllocError>
    ensures { IfOk result (λ line. string_bytes line ≡ seed_line seed (blame_line blame.now)) }
{
    let line = line_of(alloc, &Happening::Blamed(*blame))?;
    format!(in alloc; "seed {seed} {line}")
}

/// The line that says why a seed ends the search; none where what is wanted held.
fn line_of_outcome(
    alloc: Global,
    seed: u64,
    outcome: &Outcome,
) -> Result<Option<String>, AllocError>
    ensures { IfOk result (IsLineOf seed outcome.now) }
{
    let line = match *outcome {
        Outcome::Agreed => return Ok(None),
        Outcome::Audited(fault) => {
            let number = fault.number();
            format!(in alloc; "seed {seed} audit fault {number} {fault}\n")
        }
        Outcome::Unanswered { client, time } => {
            let client = client.0;
            format!(in alloc; "seed {seed} unanswered client {client} time {time}\n")
        }
        Outcome::Unexpected { step, line } => {
            format!(in alloc; "seed {seed} expect fault step {step} line {line}\n")
        }
        Outcome::Faulted(fault) => format!(in alloc; "seed {seed} {fault}\n"),
    };
    Ok(Some(line?))
}
