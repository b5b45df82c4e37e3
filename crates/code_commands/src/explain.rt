//! `verify --explain`: the verdict, then what the verifier knows at each visit, then why code was refused.

ghost use Rattle.std.specs.Prelude.{◌≡◌};
ghost use Rattle.bpf_model.specs.Profiles.{followed_words};

use crate::commands::write_verdict;
use crate::failure::CodeFailure;
use crate::numbers::{Base, Numbers};
use crate::reason::reason;
use crate::shown::{Format, write_line};
use bpf_asm::print;
use bpf_decode::Insn;
use bpf_model::layout::{FRAME_SIZE, FRAME_START, FRAMES, REGISTERS, STACK_WORDS, WORD_SIZE};
use bpf_verifier::{
    AbstractState, Observer, Profile, Refusal, Slots, UNFOLLOWED, VerifyFault, verify_observed,
};
use reg_ranges::Range;
use std::alloc::{AllocError, Global};
use std::io::Write;

/// The words of a frame.
const FRAME_WORDS: usize = FRAME_SIZE / WORD_SIZE;

/// A visit of the verifier, and what it knows there.
#[derive(Clone, Copy)]
pub(crate) struct Reached<const WORDS: usize> {
    /// The depth of the frame, from 0 on.
    pub(crate) depth: u32,
    pub(crate) slot: usize,
    pub(crate) insn: Insn,
    pub(crate) state: AbstractState<WORDS>,
}

/// Writes each visit, and keeps the last one.
#[derive(Drop)]
struct Explainer<'a, O: Write, const WORDS: usize> {
    alloc: Global,
    writer: &'a mut O,
    /// The slot that was visited last at each depth: for the depths below a visit's, the calls that lead
    /// to it.
    slots: [usize; FRAMES],
    last: Option<Reached<WORDS>>,
    failure: Option<CodeFailure>,
}

impl<'a, O: Write, const WORDS: usize> Observer<WORDS> for Explainer<'a, O, WORDS> {
    fn visit(
        &mut self,
        _code: &Slots,
        depth: u32,
        slot: usize,
        insn: &Insn,
        state: &AbstractState<WORDS>,
    ) {
        if self.failure.is_some() {
            return;
        }
        let reached = Reached {
            depth,
            slot,
            insn: *insn,
            state: *state,
        };
        if let Err(failure) = self.write_visit(&reached) {
            self.failure = Some(failure);
        }
        self.last = Some(reached);
    }
}

impl<'a, O: Write, const WORDS: usize> Explainer<'a, O, WORDS> {
    /// Writes the lines of a visit.
    fn write_visit(&mut self, reached: &Reached<WORDS>) -> Result<(), CodeFailure> {
        let mut text = String::new(self.alloc);
        text.push_str("at ")?;
        for (depth, slot) in self.slots.iter_mut().enumerate() {
            if depth < reached.depth as usize {
                write!(text, "{slot}>")?;
            } else if depth == reached.depth as usize {
                *slot = reached.slot;
            }
        }
        let slot = reached.slot;
        let insn = print(self.alloc, &[reached.insn])?;
        write!(text, "{slot}: {insn}  registers    ")?;
        push_registers(&mut text, &reached.state)?;
        text.push_str("\n  initialized  ")?;
        push_initialized(&mut text, &reached.state)?;
        push_words(&mut text, &reached.state)?;
        text.push('\n')?;
        write_line(&mut *self.writer, text)
    }
}

/// Writes the registers that hold a number for certain, with what they may hold.
fn push_registers<const WORDS: usize>(
    text: &mut String,
    state: &AbstractState<WORDS>,
) -> Result<(), AllocError> {
    let mut separator = "";
    for register in 0..REGISTERS as u8 {
        if let Some(range) = state.range_of(register) {
            let numbers = Numbers::of(range);
            write!(text, "{separator}r{register} = {numbers}")?;
            separator = ", ";
        }
    }
    Ok(())
}

/// Writes which bytes of the frames are initialized, as offsets from each frame's pointer: from one on and
/// before another.
fn push_initialized<const WORDS: usize>(
    text: &mut String,
    state: &AbstractState<WORDS>,
) -> Result<(), AllocError> {
    let mut separator = "";
    for depth in 0..FRAMES as u64 {
        let frame = Base::Frame(depth);
        let end = frame.address();
        if next_interval(state, end.wrapping_sub(FRAME_SIZE as u64), end).is_some() {
            write!(text, "{separator}{frame}")?;
            push_intervals(text, state, frame)?;
            separator = ", ";
        }
    }
    if separator.is_empty() {
        text.push('-')?;
    }
    Ok(())
}

/// Writes which bytes of a frame are initialized.
fn push_intervals<const WORDS: usize>(
    text: &mut String,
    state: &AbstractState<WORDS>,
    frame: Base,
) -> Result<(), AllocError> {
    let end = frame.address();
    let mut from = end.wrapping_sub(FRAME_SIZE as u64);
    for _ in 0..FRAME_SIZE {
        let Some((first, behind)) = next_interval(state, from, end) else {
            break;
        };
        let low = frame.offset_of(first);
        let high = frame.offset_of(behind);
        write!(text, " [{low}, {high})")?;
        from = behind;
    }
    Ok(())
}

/// The next initialized bytes from an address on and before another: the first of them, and the address
/// behind the last.
fn next_interval<const WORDS: usize>(
    state: &AbstractState<WORDS>,
    from: u64,
    end: u64,
) -> Option<(u64, u64)> {
    let first = (from..end).find(|address| state.has_byte_at(*address))?;
    let behind = (first..end).find(|address| !state.has_byte_at(*address));
    Some((first, behind.unwrap_or(end)))
}

/// Writes, on a line of their own, the words of the stack of whose numbers something is known: the offset of each
/// from its frame's pointer, and what it may hold. Where there is none, no line.
fn push_words<const WORDS: usize>(
    text: &mut String,
    state: &AbstractState<WORDS>,
) -> Result<(), AllocError> {
    let mut separator = "\n  words        ";
    for word in 0..WORDS {
        let range = state.word(word);
        if range != Range::new(0, u64::MAX) {
            let frame = Base::Frame((word / FRAME_WORDS) as u64);
            let offset = frame.offset_of(FRAME_START.wrapping_add(
                (word as u64).wrapping_mul(WORD_SIZE as u64),
            ));
            let numbers = Numbers::of(range);
            write!(text, "{separator}{frame} {offset} = {numbers}")?;
            separator = ", ";
        }
    }
    Ok(())
}

/// Writes each visit of the verifier over the code, under a profile that follows so many words, and then, of code
/// that was refused, why.
fn write_visits<O: Write, const WORDS: usize>(
    alloc: Global,
    profile: Profile,
    code: &[u8],
    refusal: Option<Refusal>,
    writer: &mut O,
) -> Result<(), CodeFailure>
    requires { followed_words profile ≡ WORDS }
{
    let last = visits_written::<O, WORDS>(alloc, profile, code, writer)?;
    let Some(refusal) = refusal else {
        return Ok(());
    };
    let reason = reason(alloc, code, refusal, last.as_ref())?;
    write_line(writer, format!(in alloc; "why: {reason}\n")?)
}

/// Writes each visit of the verifier over the code, and returns the last one.
fn visits_written<O: Write, const WORDS: usize>(
    alloc: Global,
    profile: Profile,
    code: &[u8],
    writer: &mut O,
) -> Result<Option<Reached<WORDS>>, CodeFailure>
    requires { followed_words profile ≡ WORDS }
{
    let mut explainer = Explainer {
        alloc,
        writer,
        slots: [0; FRAMES],
        last: None,
        failure: None,
    };
    let verdict = verify_observed(alloc, profile, code, &mut explainer);
    let Explainer { last, failure, .. } = explainer;
    if let Some(failure) = failure {
        return Err(failure);
    }
    match verdict {
        Err(refusal) if refusal.fault == VerifyFault::Memory => Err(CodeFailure::Memory),
        _ => Ok(last),
    }
}

/// Writes the verdict of a profile on the code, then each visit of the verifier and what it knows there, then why
/// the code was refused.
pub(crate) fn explain<O: Write>(
    alloc: Global,
    profile: Profile,
    code: &[u8],
    writer: &mut O,
) -> Result<(), CodeFailure> {
    let refusal = match write_verdict(alloc, profile, Format::Words, code, writer) {
        Ok(_) => None,
        Err(CodeFailure::Refused(refusal)) => Some(refusal),
        Err(failure) => return Err(failure),
    };
    if let Some(refusal) = refusal {
        let failure = CodeFailure::Refused(refusal);
        write_line(writer, format!(in alloc; "{failure}\n")?)?;
    }
    match profile {
        Profile::One => write_visits::<O, UNFOLLOWED>(alloc, profile, code, refusal, writer)?,
        Profile::Two => write_visits::<O, STACK_WORDS>(alloc, profile, code, refusal, writer)?,
    }
    match refusal {
        Some(refusal) => Err(CodeFailure::Explained(refusal)),
        None => Ok(()),
    }
}

/// Keeps the last visit.
#[derive(Drop)]
struct Latest<const WORDS: usize> {
    last: Option<Reached<WORDS>>,
}

impl<const WORDS: usize> Observer<WORDS> for Latest<WORDS> {
    fn visit(
        &mut self,
        _code: &Slots,
        depth: u32,
        slot: usize,
        insn: &Insn,
        state: &AbstractState<WORDS>,
    ) {
        self.last = Some(Reached {
            depth,
            slot,
            insn: *insn,
            state: *state,
        });
    }
}

/// Why a profile refuses the code, if it does.
pub(crate) fn why_refused(
    alloc: Global,
    profile: Profile,
    code: &[u8],
) -> Result<Option<String>, AllocError> {
    match profile {
        Profile::One => why_refused_by::<UNFOLLOWED>(alloc, profile, code),
        Profile::Two => why_refused_by::<STACK_WORDS>(alloc, profile, code),
    }
}

fn why_refused_by<const WORDS: usize>(
    alloc: Global,
    profile: Profile,
    code: &[u8],
) -> Result<Option<String>, AllocError>
    requires { followed_words profile ≡ WORDS }
{
    let mut latest = Latest { last: None };
    match verify_observed::<Latest<WORDS>, WORDS>(alloc, profile, code, &mut latest) {
        Ok(_) => Ok(None),
        Err(refusal) => Ok(Some(reason(alloc, code, refusal, latest.last.as_ref())?)),
    }
}
