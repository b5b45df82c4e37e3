//! Few choices under which what was found of a script is found again.

ghost use Rattle.std.specs.Prelude.{◌≡◌, ◌++◌, IfOk, IfSome, IsTrue, OnOk, string_bytes};
ghost use Rattle.world_script.specs.Keys.{keys_of};
ghost use Rattle.world_trace.specs.Exploring.{IsOutcome};
ghost use Rattle.world_trace.specs.Finding.{TellsLines};
ghost use Rattle.world_trace.specs.Searches.{AreChosen, choice_line, choice_lines, in_order, in_place, listed, numbers_at, place_line};
ghost use Rattle.world_trace.specs.Shrinking.{IsFoundBy, TellsOf, has_chances, numbers_in, order_at};

use crate::explore::{Explorer, Outcome, Wanted, order_under, outcome_of};
use pbft_codec::Sequence;
use script_text::{DeliveryOrder, Script, Step};
use std::alloc::{AllocError, Global};
use std::io::Write;
use std::mem::replace;
use world_script::{KeySources, RunFault, Stage, write_text};

/// What was found of a script under a seed, and what was wanted.
#[derive(Clone, Copy, Debug, PartialEq, Eq)]
pub(crate) struct Finding {
    pub(crate) seed: u64,
    pub(crate) wanted: Wanted,
    pub(crate) outcome: Outcome,
}

/// A script, its head's keys, and what was found of it.
#[derive(Clone, Copy)]
pub(crate) struct Found<'a> {
    pub(crate) alloc: Global,
    pub(crate) script: &'a Script,
    pub(crate) sources: &'a KeySources,
    pub(crate) finding: Finding,
}

impl Found<'_> {
    /// Writes a line for each step that delivers, with choices in place of its order under which the same is found: those that the
    /// seed draws, but that one part of them after another is set to 0 where the same is found without it. A step with chances has the
    /// seed as its order, since choices don't say what is lost. Nothing is written where the same isn't found under the first 65,536
    /// choices of each step.
    pub(crate) fn write_choices<O: Write>(self, writer: &mut O) -> Result<(), RunFault>
        requires { self.sources.now ≡ keys_of self.script.now.head }
        ensures { TellsLines (AreChosen self.entry.script.now self.entry.finding.wanted self.entry.finding.outcome) (O.contents writer.old) (O.contents writer.new) result }
    {
        match self.choices()? {
            Some(choices) => self.write_lines(&choices, writer),
            None => Ok(()),
        }
    }

    /// The choices of each step that began; none where the same isn't found under them.
    fn choices(self) -> Result<Option<Vec<Vec<u64>>>, AllocError>
        requires { self.sources.now ≡ keys_of self.script.now.head }
        ensures { IfOk result (λ found. IfSome found (λ choices. IsFoundBy self.entry.script.now self.entry.finding choices.items)) }
    {
        let drawn = self.run(Orders::Drawn)?;
        let mut choices = drawn.passed;
        if !self.is_found_under(&choices)? {
            return Ok(None);
        }
        for index in 0..choices.len() {
            self.shrink_step(&mut choices, index)?;
        }
        Ok(Some(choices))
    }

    /// Writes the lines of choices.
    fn write_lines<O: Write>(self, choices: &[Vec<u64>], writer: &mut O) -> Result<(), RunFault>
        ensures { TellsOf (choice_lines self.entry.finding.seed (numbers_in choices.now) 0 self.entry.script.now.steps) (O.contents writer.old) (O.contents writer.new) result }
    {
        let mut index: usize = 0;
        for step in self.script.steps.as_slice() {
            let number = index + 1;
            if let Step::Deliver { order, .. } = &step.step {
                let line = self.line_of(number, order, choices_at(choices, index))?;
                write_text(writer, &line)?;
            }
            index = number;
        }
        Ok(())
    }

    /// The line of the step of a number, which delivers in this order, with what stands in the order's place.
    fn line_of(
        self,
        number: usize,
        order: &DeliveryOrder,
        choices: &[u64],
    ) -> Result<String, AllocError>
        ensures { IfOk result (λ line. string_bytes line ≡ place_line number (in_place self.entry.finding.seed choices.now order.now)) }
    {
        if has_chances(order) {
            let seed = self.finding.seed;
            return format!(in self.alloc; "# step {number}: order = {seed}\n");
        }
        line_of_choices(self.alloc, number, choices)
    }

    /// Runs the script with its deliveries in these orders.
    fn run(self, orders: Orders<'_>) -> Result<Ran, AllocError>
        requires { self.sources.now ≡ keys_of self.script.now.head }
        ensures { IfOk result (λ ran. IsOutcome (in_order (order_at orders.entry self.entry.finding.seed) self.entry.script.now) self.entry.finding.wanted ran.outcome) }
    {
        let stage = Stage::with_keys(self.alloc, &self.script.head, self.sources)?;
        let mut explorer = Explorer::new(self.alloc, stage);
        let mut passed = Vec::new(self.alloc);
        let mut number: u32 = 0;
        let mut index: usize = 0;
        for step in self.script.steps.as_slice() {
            number = number.saturating_add(1);
            let order = orders.order_of(self.alloc, self.finding.seed, index, &step.step)?;
            let are_chosen = !has_chances(&order);
            let ended = explorer.step(number, step, order)?;
            let choices = explorer.take_passed();
            passed.push(chosen_of(self.alloc, are_chosen, choices))?;
            if let Some(outcome) = ended {
                return Ok(Ran { outcome, passed });
            }
            index += 1;
        }
        let outcome = outcome_of(&explorer.stage, self.finding.wanted)?;
        Ok(Ran { outcome, passed })
    }

    /// Whether the same is found under these choices.
    fn is_found_under(self, choices: &[Vec<u64>]) -> Result<bool, AllocError>
        requires { self.sources.now ≡ keys_of self.script.now.head }
        ensures { IfOk result (λ found. IsTrue found → IsFoundBy self.entry.script.now self.entry.finding choices.now) }
    {
        let ran = self.run(Orders::Chosen(choices))?;
        Ok(ran.outcome == self.finding.outcome)
    }

    /// Sets parts of the choices of a step to 0 where the same is found then: all, then each half, each quarter, and so on, at last
    /// each one.
    fn shrink_step(self, choices: &mut Vec<Vec<u64>>, index: usize) -> Result<(), AllocError>
        requires keys { self.sources.now ≡ keys_of self.script.now.head }
        requires found { IsFoundBy self.script.now self.finding choices.old.items }
        ensures { OnOk result (IsFoundBy self.entry.script.now self.entry.finding choices.new.items) }
    {
        let count = match choices.get(index) {
            Some(list) => list.len(),
            None => 0,
        };
        let mut size = count;
        for _ in 0..usize::BITS {
            if size == 0 {
                return Ok(());
            }
            for part in 0..count.div_ceil(size) {
                self.clear(choices, index, part.saturating_mul(size), size)?;
            }
            size /= 2;
        }
        Ok(())
    }

    /// Sets so many choices of a step from one on to 0, if the same is found then.
    fn clear(
        self,
        choices: &mut Vec<Vec<u64>>,
        index: usize,
        start: usize,
        size: usize,
    ) -> Result<(), AllocError>
        requires keys { self.sources.now ≡ keys_of self.script.now.head }
        requires found { IsFoundBy self.script.now self.finding choices.old.items }
        ensures { OnOk result (IsFoundBy self.entry.script.now self.entry.finding choices.new.items) }
    {
        let Some(list) = choices.get(index) else {
            return Ok(());
        };
        let Some(fewer) = without_part(self.alloc, list, start, size)? else {
            return Ok(());
        };
        let old = replace(&mut choices[index], fewer);
        if !self.is_found_under(choices)? {
            choices[index] = old;
        }
        Ok(())
    }
}

/// What came of a script, and for each step that began how many letters were passed over at each delivery, without the last zeros; none
/// of a step with chances.
#[derive(Drop)]
struct Ran {
    outcome: Outcome,
    passed: Vec<Vec<u64>>,
}

/// In which orders a script's steps deliver.
#[derive(Clone, Copy)]
enum Orders<'a> {
    /// Those that the seed draws.
    Drawn,
    /// Those that these lists choose, one for each step.
    Chosen(&'a [Vec<u64>]),
}

impl Orders<'_> {
    /// The order of the step at an index. Where it has chances this seed draws it.
    fn order_of(
        &self,
        alloc: Global,
        seed: u64,
        index: usize,
        step: &Step,
    ) -> Result<DeliveryOrder, AllocError>
        ensures { IfOk result (λ order. order ≡ order_at self.now seed index step.now) }
    {
        let drawn = order_under(seed, step);
        match self {
            Orders::Chosen(lists) if !has_chances(&drawn) => {
                let choices = Vec::from_slice(alloc, choices_at(lists, index))?;
                Ok(DeliveryOrder::Chosen(Sequence::from_vec(choices)))
            }
            _ => Ok(drawn),
        }
    }
}

/// Whether something may go wrong in an order but that letters come in another one.
fn has_chances(order: &DeliveryOrder) -> bool
    ensures { result ≡ has_chances order.now }
{
    matches!(order, DeliveryOrder::Unreliable { .. })
}

/// The choices of the step at an index; none behind the last.
fn choices_at(choices: &[Vec<u64>], index: usize) -> &[u64]
    ensures { result.now ≡ numbers_at (numbers_in choices.now) index }
{
    match choices.get(index) {
        Some(list) => list.as_slice(),
        None => &[],
    }
}

/// The line of the choices of the step of a number.
fn line_of_choices(alloc: Global, number: usize, choices: &[u64]) -> Result<String, AllocError>
    ensures { IfOk result (λ line. string_bytes line ≡ choice_line number choices.now) }
{
    let mut line = format!(in alloc; "# step {number}: choose = [")?;
    push_numbers(&mut line, choices)?;
    line.push_str("]\n")?;
    Ok(line)
}

/// Adds numbers to a text, `0, 2`.
fn push_numbers(text: &mut String, numbers: &[u64]) -> Result<(), AllocError>
    ensures { OnOk result (string_bytes text.new ≡ string_bytes text.old ++ listed numbers.now) }
{
    let Some((first, more)) = numbers.split_first() else {
        return Ok(());
    };
    write!(text, "{first}")?;
    for number in more {
        write!(text, ", {number}")?;
    }
    Ok(())
}

/// Choices of which so many from one on are 0, without the last zeros; none where they are 0 as it is.
fn without_part(
    alloc: Global,
    list: &[u64],
    start: usize,
    size: usize,
) -> Result<Option<Vec<u64>>, AllocError> {
    let end = start.saturating_add(size);
    let mut fewer = Vec::new(alloc);
    let mut is_other = false;
    for (place, choice) in list.iter().enumerate() {
        if start <= place && place < end {
            is_other = is_other || *choice != 0;
            fewer.push(0)?;
        } else {
            fewer.push(*choice)?;
        }
    }
    if is_other {
        Ok(Some(without_last_zeros(fewer)))
    } else {
        Ok(None)
    }
}

/// What is kept of the choices of a step, if that is in an order that is drawn or chosen alone.
fn chosen_of(alloc: Global, are_chosen: bool, choices: Vec<u64>) -> Vec<u64> {
    if are_chosen {
        without_last_zeros(choices)
    } else {
        Vec::new(alloc)
    }
}

/// Choices without the zeros behind the last other one: behind the end of a list the oldest is delivered, as by 0.
fn without_last_zeros(choices: Vec<u64>) -> Vec<u64> {
    let mut choices = choices;
    let mut kept = 0;
    for (place, choice) in choices.iter().enumerate() {
        if *choice != 0 {
            kept = place.saturating_add(1);
        }
    }
    choices.truncate(kept);
    choices
}
