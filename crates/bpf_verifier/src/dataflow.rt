//! The data flow over the code: each function in one sweep of ascending slots, and each local call
//! followed at its slot.

ghost use Rattle.std.specs.Prelude.{◌≡◌, ◌⊎◌, ℕ, slice_index_or, ◌+◌, ◌-◌, ◌≤◌, ◌<◌, Bool, List, length, true, false, None, Some, Option, IfOk, IfErr, IfSome, OnOk, ℤ, suc};
ghost use Rattle.std.specs.Option.{option_map};
ghost use Rattle.bpf_decode.specs.declared.insn.Insn.{Insn};
ghost use Rattle.bpf_decode.specs.declared.insn.Insn.TheVariants.{CallLocal};
ghost use Rattle.bpf_model.specs.Code.{insns_by_slot, insn_at};
ghost use Rattle.bpf_model.specs.AbstractState.{AbstractState as ModelState, edge_if, edges, after_test, after_call, start_state, entry_state};
ghost use Rattle.bpf_model.specs.Dataflow.{IsBound, state_at};
ghost use Rattle.bpf_model.specs.Profiles.{followed_words};
ghost use Rattle.bpf_model.specs.Verdict.{insn_dataflow_fault, visits_in, visit_fault, max_visits, dataflow_fault, IsFirstVisit};
ghost use Rattle.bpf_model.specs.declared.fault.VerifyFault.TheVariants.{Memory};
ghost use Rattle.bpf_verifier.specs.Represents.{Represents, RepresentsOption, Stack, IsStackOf, state_of};
ghost use Rattle.bpf_verifier.specs.Slots.{or_exit};
ghost use Rattle.bpf_verifier.specs.Sweep.{visit_in, RepresentsVisit, Brings, VisitJoined, Flowed, AreFew, SweepAt, IsStart, IsStructured, Fails, Entered, IsEntered, activation_of, nothing_returned, Followed, CalledBack, FailsInCall, IsRunning};

use crate::abstract_state::AbstractState;
use crate::observer::Observer;
use crate::slots::{Slots, target_of};
use bpf_decode::{Insn, Reg, Source};
use bpf_model::layout::FRAMES;
use bpf_model::{Profile, Refusal, VerifyFault};
use bpf_num::Test;
use std::alloc::{AllocError, Global};

/// The most visits that are made.
const MAX_VISITS: u32 = 65_536;

/// What the edges so far have brought to a slot: the join of their states, and the instructions of the
/// longest path before it.
#[derive(Clone, Copy)]
pub struct Visit<const WORDS: usize> {
    pub state: AbstractState<WORDS>,
    pub steps: u32,
}

impl<const WORDS: usize> Visit<WORDS> {
    ghost use Rattle.std.specs.Prelude.{◌≡◌, Some};
    ghost use Rattle.bpf_model.specs.AbstractState.{AbstractState as ModelState};
    ghost use Rattle.bpf_verifier.specs.Represents.{Represents};
    ghost use Rattle.bpf_verifier.specs.Sweep.{VisitJoined};

    /// Joins what one more edge brings.
    fn join(&mut self, other: &Visit<WORDS>)
        ensures { (of : ModelState) → Represents other.now.state of →
            VisitJoined (Some self.old) of other.now.steps (Some self.new) }
    {
        self.state.join(&other.state);
        self.steps = self.steps.max(other.steps);
    }
}

/// What a function gives to its caller: the join over its exits, where it has one, and the
/// instructions of its longest path.
#[derive(Drop)]
pub struct Returned<const WORDS: usize> {
    pub exit: Option<Box<Visit<WORDS>>>,
    pub bound: u32,
}

/// How many visits were made, and the memory of one that is done with, for the next.
#[derive(Drop)]
struct Pass<const WORDS: usize> {
    alloc: Global,
    spare: Option<Box<Visit<WORDS>>>,
    visits: u32,
}

impl<const WORDS: usize> Pass<WORDS> {
    ghost use Rattle.std.specs.Prelude.{◌≡◌, ◌⊎◌, ℕ, ◌+◌, ◌-◌, ◌<◌, ◌≤◌, Bool, Some, None, IfOk, IfErr};
    ghost use Rattle.bpf_model.specs.AbstractState.{AbstractState as ModelState, entry_state};
    ghost use Rattle.bpf_model.specs.Verdict.{insn_dataflow_fault, visit_fault, max_visits};
    ghost use Rattle.bpf_verifier.specs.StackWords.{word_range};
    ghost use Rattle.bpf_verifier.specs.Represents.{Represents, Stack, IsStackOf, state_of};

    /// A copy of a visit.
    fn copy_of(&mut self, visit: &Visit<WORDS>) -> Result<Box<Visit<WORDS>>, AllocError>
        ensures ranges { IfOk result (λ copy. copy.value.state.ranges ≡ visit.now.state.ranges) }
        ensures initialized { IfOk result (λ copy.
            copy.value.state.initialized.words ≡ visit.now.state.initialized.words) }
        ensures words { IfOk result (λ copy. (w : ℕ) → w < WORDS →
            word_range copy.value.state.words.ranges w ≡ word_range visit.now.state.words.ranges w) }
        ensures steps { IfOk result (λ copy. copy.value.steps ≡ visit.now.steps) }
        ensures visits { self.new.visits ≡ self.old.visits }
    {
        match self.spare.take() {
            Some(mut copy) => {
                copy.state.copy_from(&visit.state);
                copy.steps = visit.steps;
                Ok(copy)
            }
            None => Ok(Box::new(self.alloc, *visit)?),
        }
    }

    /// The visit with which a function is entered at a depth, by a call in this state.
    fn entry_visit(
        &mut self,
        depth: u32,
        state: &AbstractState<WORDS>,
    ) -> Result<Box<Visit<WORDS>>, AllocError>
        requires { depth < 8 }
        ensures state { IfOk result (λ callee. (of : ModelState) → Represents state.now of →
            Represents callee.value.state (entry_state depth of)) }
        ensures steps { IfOk result (λ callee. callee.value.steps ≡ 0) }
        ensures visits { self.new.visits ≡ self.old.visits }
    {
        let visit = Visit {
            state: state.entry_state(depth),
            steps: 0,
        };
        self.copy_of(&visit)
    }

    /// Counts a visit of a slot, and checks the instruction there. Fails with what is wrong.
    #[inline(always)]
    fn begin(
        &mut self,
        depth: u32,
        slot: usize,
        insn: &Insn,
        state: &AbstractState<WORDS>,
    ) -> Result<(), Refusal>
        requires deep { depth < 8 }
        requires short { slot < 1024 }
        requires few { self.old.visits ≤ max_visits }
        ensures right { IfOk result (λ _. (stack : Stack) → IsStackOf state.now.initialized.words WORDS state.now.words.ranges stack →
            insn_dataflow_fault depth (state_of state.now.ranges stack) insn.now ≡ None) }
        ensures count { IfOk result (λ _. (self.new.visits ≡ self.old.visits + 1)
            × (self.old.visits < max_visits)) }
        ensures refused { IfErr result (λ refusal. (refusal.slot ≡ slot) ×
            ((stack : Stack) → IsStackOf state.now.initialized.words WORDS state.now.words.ranges stack →
            visit_fault self.old.visits (Some (record {
              slot = slot;
              fault = insn_dataflow_fault depth (state_of state.now.ranges stack) insn.now;
            })) ≡ Some refusal.fault)) }
    {
        if self.visits >= MAX_VISITS {
            return Err(Refusal {
                fault: VerifyFault::TooComplex,
                slot: slot as u32,
            });
        }
        self.visits += 1;
        match state.insn_dataflow_fault(depth, insn) {
            Some(fault) => Err(Refusal {
                fault,
                slot: slot as u32,
            }),
            None => Ok(()),
        }
    }
}

/// Checks each visit, by its abstract state, and counts the steps. Returns the bound, or the first
/// fault. `Memory` may come at any allocation.
pub fn check_dataflow<O: Observer<WORDS>, const WORDS: usize>(
    alloc: Global,
    profile: Profile,
    slots: &Slots,
    observer: &mut O,
) -> Result<u32, Refusal>
    requires some { 0 < length slots.now }
    requires few { length slots.now ≤ 1024 }
    requires code { (code : List Insn) × (slots.now ≡ insns_by_slot code) × IsStructured code }
    requires follows { followed_words profile ≡ WORDS }
    ensures right { IfOk result (λ _. (code : List Insn) → slots.now ≡ insns_by_slot code →
        IsStructured code →
        (index : ℕ) → dataflow_fault profile code index ≡ None) }
    ensures bound { IfOk result (λ bound. (code : List Insn) → slots.now ≡ insns_by_slot code →
        IsStructured code → IsBound profile code bound) }
    ensures refused { IfErr result (λ refusal. (refusal.fault ≡ Memory) ⊎
        ((code : List Insn) → slots.now ≡ insns_by_slot code → IsStructured code →
        IsFirstVisit profile code refusal.fault refusal.slot)) }
{
    let mut pass = Pass {
        alloc,
        spare: None,
        visits: 0,
    };
    let start = Visit {
        state: AbstractState::at_start(),
        steps: 0,
    };
    let visit = pass.copy_of(&start)?;
    let returned = follow(&mut pass, observer, slots, FRAMES as u32 - 1, 0, visit)?;
    Ok(returned.bound)
}

/// Follows a function from its slot on, where so many frames are left for those that it calls.
#[cycle(calls)]
fn follow<O: Observer<WORDS>, const WORDS: usize>(
    pass: &mut Pass<WORDS>,
    observer: &mut O,
    slots: &Slots,
    left: u32,
    entry: usize,
    visit: Box<Visit<WORDS>>,
) -> Result<Returned<WORDS>, Refusal>
    requires short { length slots.now ≤ 1024 }
    requires deep { left < 8 }
    requires inside { entry < length slots.now }
    requires steps { visit.value.steps ≡ 0 }
    requires few { pass.old.visits ≤ max_visits }
    requires running { (f : Entered) × IsRunning WORDS slots.now left f × (f.entry ≡ entry)
        × (f.base ≡ pass.old.visits) × Represents visit.value.state f.state }
    ensures few { IfOk result (λ returned. (pass.old.visits + returned.bound ≤ pass.new.visits)
        × (pass.new.visits ≤ max_visits)) }
    ensures right { IfOk result (λ returned. (f : Entered) → slots.now ≡ insns_by_slot f.code →
        f.left ≡ left → f.entry ≡ entry → f.base ≡ pass.old.visits → IsEntered f →
        Represents visit.entry.value.state f.state → Followed f returned pass.new.visits) }
    ensures refused { IfErr result (λ refusal. (refusal.fault ≡ Memory) ⊎
        ((f : Entered) → slots.now ≡ insns_by_slot f.code →
        f.left ≡ left → f.entry ≡ entry → f.base ≡ pass.old.visits → IsEntered f →
        Represents visit.entry.value.state f.state →
        Fails f.base (visits_in f.code (suc f.left) f.entry f.state) refusal.fault refusal.slot)) }
{
    let mut pending = pending_at_entry(pass.alloc, slots.len(), entry, visit)?;
    sweep(pass, observer, slots, left, entry, &mut pending)
}

/// Visits the slots of a function, ascending from its own on.
#[cycle(calls)]
fn sweep<O: Observer<WORDS>, const WORDS: usize>(
    pass: &mut Pass<WORDS>,
    observer: &mut O,
    slots: &Slots,
    left: u32,
    entry: usize,
    pending: &mut [Option<Box<Visit<WORDS>>>],
) -> Result<Returned<WORDS>, Refusal>
    requires short { length slots.now ≤ 1024 }
    requires deep { left < 8 }
    requires inside { entry < length slots.now }
    requires long { length pending.old ≡ length slots.now }
    requires few { AreFew pass.old.visits pass.old.visits pending.old 0 }
    requires running { (f : Entered) × IsRunning WORDS slots.now left f
        × SweepAt f entry pending.old nothing_returned pass.old.visits }
    ensures few { IfOk result (λ returned. (pass.old.visits + returned.bound ≤ pass.new.visits)
        × (pass.new.visits ≤ max_visits)) }
    ensures right { IfOk result (λ returned. (f : Entered) → slots.now ≡ insns_by_slot f.code →
        f.left ≡ left → IsEntered f →
        SweepAt f entry pending.old nothing_returned pass.old.visits →
        Followed f returned pass.new.visits) }
    ensures refused { IfErr result (λ refusal. (refusal.fault ≡ Memory) ⊎
        ((f : Entered) → slots.now ≡ insns_by_slot f.code → f.left ≡ left → IsEntered f →
        SweepAt f entry pending.old nothing_returned pass.old.visits →
        Fails f.base (visits_in f.code (suc f.left) f.entry f.state) refusal.fault refusal.slot)) }
{
    let mut returned = Returned {
        exit: None,
        bound: 0,
    };
    for slot in entry..slots.len() {
        visit_by_kind(pass, observer, slots, left, pending, slot, &mut returned)?;
    }
    Ok(returned)
}

/// What is pending as a function is entered, for each of so many slots.
fn pending_at_entry<const WORDS: usize>(
    alloc: Global,
    slots: usize,
    entry: usize,
    visit: Box<Visit<WORDS>>,
) -> Result<Vec<Option<Box<Visit<WORDS>>>>, AllocError>
    requires { entry < slots }
    ensures { IfOk result (λ pending. IsStart pending.items slots entry visit.entry) }
{
    let mut pending = Vec::new(alloc);
    pending.resize_with(
        slots,
        || -> Option<Box<Visit<WORDS>>>
            ensures { result ≡ None }
        { no_visit_like(&visit) },
    )?;
    pending[entry] = Some(visit);
    Ok(pending)
}

/// No visit, where one like this may be.
#[inline(always)]
fn no_visit_like<const WORDS: usize>(_visit: &Visit<WORDS>) -> Option<Box<Visit<WORDS>>>
    ensures { result ≡ None }
{
    None
}

/// Visits a slot, where something has reached it. Each kind of instruction that is frequent has the visit as a
/// copy of its own, in which all that the visit asks of the kind is known.
#[cycle(calls)]
#[inline(always)]
fn visit_by_kind<O: Observer<WORDS>, const WORDS: usize>(
    pass: &mut Pass<WORDS>,
    observer: &mut O,
    slots: &Slots,
    left: u32,
    pending: &mut [Option<Box<Visit<WORDS>>>],
    slot: usize,
    returned: &mut Returned<WORDS>,
) -> Result<(), Refusal>
    requires short { length slots.now ≤ 1024 }
    requires deep { left < 8 }
    requires inside { slot < length slots.now }
    requires long { length pending.old ≡ length slots.now }
    requires few { AreFew 0 pass.old.visits pending.old returned.old.bound }
    requires running { (f : Entered) × IsRunning WORDS slots.now left f
        × SweepAt f slot pending.old returned.old pass.old.visits }
    ensures long { IfOk result (λ _. length pending.new ≡ length pending.old) }
    ensures few { IfOk result (λ _. (base : ℕ) →
        AreFew base pass.old.visits pending.old returned.old.bound →
        AreFew base pass.new.visits pending.new returned.new.bound) }
    ensures right { IfOk result (λ _. (f : Entered) → slots.now ≡ insns_by_slot f.code →
        f.left ≡ left → IsEntered f →
        SweepAt f slot pending.old returned.old pass.old.visits →
        SweepAt f (slot + 1) pending.new returned.new pass.new.visits) }
    ensures refused { IfErr result (λ refusal. (refusal.fault ≡ Memory) ⊎
        ((f : Entered) → slots.now ≡ insns_by_slot f.code → f.left ≡ left → IsEntered f →
        SweepAt f slot pending.old returned.old pass.old.visits →
        Fails f.base (visits_in f.code (suc f.left) f.entry f.state) refusal.fault refusal.slot)) }
{
    let insn = slots.at(slot);
    match insn {
        Insn::Alu { .. } => visit_slot(pass, observer, slots, left, pending, slot, insn, returned),
        Insn::Load { .. } => visit_slot(pass, observer, slots, left, pending, slot, insn, returned),
        Insn::StoreImm { .. } => {
            visit_slot(pass, observer, slots, left, pending, slot, insn, returned)
        }
        Insn::Store { .. } => {
            visit_slot(pass, observer, slots, left, pending, slot, insn, returned)
        }
        Insn::Test { .. } => visit_slot(pass, observer, slots, left, pending, slot, insn, returned),
        _ => visit_slot(pass, observer, slots, left, pending, slot, insn, returned),
    }
}

/// Visits a slot, where something has reached it.
#[cycle(calls)]
#[inline(always)]
fn visit_slot<O: Observer<WORDS>, const WORDS: usize>(
    pass: &mut Pass<WORDS>,
    observer: &mut O,
    slots: &Slots,
    left: u32,
    pending: &mut [Option<Box<Visit<WORDS>>>],
    slot: usize,
    insn: Insn,
    returned: &mut Returned<WORDS>,
) -> Result<(), Refusal>
    requires short { length slots.now ≤ 1024 }
    requires deep { left < 8 }
    requires inside { slot < length slots.now }
    requires long { length pending.old ≡ length slots.now }
    requires insn { insn ≡ or_exit (slice_index_or slots.now slot None) }
    requires few { AreFew 0 pass.old.visits pending.old returned.old.bound }
    requires running { (f : Entered) × IsRunning WORDS slots.now left f
        × SweepAt f slot pending.old returned.old pass.old.visits }
    ensures long { IfOk result (λ _. length pending.new ≡ length pending.old) }
    ensures few { IfOk result (λ _. (base : ℕ) →
        AreFew base pass.old.visits pending.old returned.old.bound →
        AreFew base pass.new.visits pending.new returned.new.bound) }
    ensures right { IfOk result (λ _. (f : Entered) → slots.now ≡ insns_by_slot f.code →
        f.left ≡ left → IsEntered f →
        SweepAt f slot pending.old returned.old pass.old.visits →
        SweepAt f (slot + 1) pending.new returned.new pass.new.visits) }
    ensures refused { IfErr result (λ refusal. (refusal.fault ≡ Memory) ⊎
        ((f : Entered) → slots.now ≡ insns_by_slot f.code → f.left ≡ left → IsEntered f →
        SweepAt f slot pending.old returned.old pass.old.visits →
        Fails f.base (visits_in f.code (suc f.left) f.entry f.state) refusal.fault refusal.slot)) }
{
    let Some(mut visit) = pending[slot].take() else {
        return Ok(());
    };
    let depth = FRAMES as u32 - 1 - left;
    observer.visit(slots, depth, slot, &insn, &visit.state);
    pass.begin(depth, slot, &insn, &visit.state)?;
    match insn {
        Insn::CallLocal { offset } => {
            if let Some(callee) = call(pass, observer, slots, left, slot, offset, &visit.state)? {
                visit.steps += 1 + callee.bound;
                returned.bound = returned.bound.max(visit.steps);
                resume(pass, pending, slot, depth + 1, visit, callee.exit);
            }
        }
        Insn::Exit => {
            visit.steps += 1;
            returned.bound = returned.bound.max(visit.steps);
            join_into(&mut returned.exit, visit, pass);
        }
        _ => {
            visit.steps += 1;
            returned.bound = returned.bound.max(visit.steps);
            flow(pending, pass, slot, &insn, visit)?;
        }
    }
    Ok(())
}

/// Follows the function that a local call leads to. There is none where the call leads out of the code
/// or no frame is left, which the checks have refused.
#[cycle(calls)]
fn call<O: Observer<WORDS>, const WORDS: usize>(
    pass: &mut Pass<WORDS>,
    observer: &mut O,
    slots: &Slots,
    left: u32,
    slot: usize,
    offset: i32,
    state: &AbstractState<WORDS>,
) -> Result<Option<Returned<WORDS>>, Refusal>
    requires short { length slots.now ≤ 1024 }
    requires deep { left < 8 }
    requires inside { slot < length slots.now }
    requires few { pass.old.visits ≤ max_visits }
    requires running { (f : Entered) × (of : ModelState) × IsRunning WORDS slots.now left f
        × Represents state.now of × (state_at f.code (activation_of f) slot ≡ Some of)
        × (insn_at f.code slot ≡ Some (CallLocal offset)) }
    ensures none { IfOk result (λ callee. callee ≡ None → pass.new.visits ≡ pass.old.visits) }
    ensures few { IfOk result (λ callee. IfSome callee (λ back. (0 < left)
        × (pass.old.visits + back.bound ≤ pass.new.visits) × (pass.new.visits ≤ max_visits))) }
    ensures right { IfOk result (λ callee. (f : Entered) (of : ModelState) →
        slots.now ≡ insns_by_slot f.code → f.left ≡ left → IsEntered f → Represents state.now of →
        insn_at f.code slot ≡ Some (CallLocal offset) →
        insn_dataflow_fault (activation_of f).depth of (CallLocal offset) ≡ None →
        CalledBack f slot offset of pass.old.visits callee pass.new.visits) }
    ensures refused { IfErr result (λ refusal. (refusal.fault ≡ Memory) ⊎
        ((f : Entered) (of : ModelState) → slots.now ≡ insns_by_slot f.code → f.left ≡ left →
        IsEntered f → Represents state.now of → insn_at f.code slot ≡ Some (CallLocal offset) →
        insn_dataflow_fault (activation_of f).depth of (CallLocal offset) ≡ None →
        FailsInCall f slot offset of pass.old.visits refusal.fault refusal.slot)) }
{
    let (Some(target), Some(left)) = (target_of(slot, offset), left.checked_sub(1)) else {
        return Ok(None);
    };
    if target >= slots.len() {
        return Ok(None);
    }
    let callee = pass.entry_visit(FRAMES as u32 - 1 - left, state)?;
    Ok(Some(follow(pass, observer, slots, left, target, callee)?))
}

/// Goes on behind a call, where its callee returns.
fn resume<const WORDS: usize>(
    pass: &mut Pass<WORDS>,
    pending: &mut [Option<Box<Visit<WORDS>>>],
    slot: usize,
    depth: u32,
    mut visit: Box<Visit<WORDS>>,
    exit: Option<Box<Visit<WORDS>>>,
)
    requires deep { depth < 8 }
    requires short { slot < 1024 }
    ensures flowed { (of : ModelState) (exits : Option ModelState) → Represents visit.entry.value.state of →
        RepresentsVisit (visit_in exit.entry) exits →
        Flowed (edge_if (Some (slot + 1)) (option_map (after_call depth of) exits))
        visit.entry.value.steps pending.old pending.new }
    ensures visits { pass.new.visits ≡ pass.old.visits }
{
    let behind = match exit {
        Some(exit) => {
            visit.state.after_call(depth, &exit.state);
            pass.spare = Some(exit);
            Some(visit)
        }
        None => None,
    };
    push(pending, pass, Some(slot + 1), behind);
}

/// Takes a visit over all edges out of an instruction that calls no function and is no exit.
#[inline(always)]
fn flow<const WORDS: usize>(
    pending: &mut [Option<Box<Visit<WORDS>>>],
    pass: &mut Pass<WORDS>,
    slot: usize,
    insn: &Insn,
    mut visit: Box<Visit<WORDS>>,
) -> Result<(), AllocError>
    requires { slot < 1024 }
    ensures flowed { OnOk result ((behind : ℕ → ModelState → Option ModelState) (stack : Stack) →
        ((offset : ℤ) → insn.now ≡ CallLocal offset → ⊥) →
        IsStackOf visit.entry.value.state.initialized.words WORDS visit.entry.value.state.words.ranges stack →
        Flowed (edges behind slot (state_of visit.entry.value.state.ranges stack) insn.now)
        visit.entry.value.steps pending.old pending.new) }
    ensures visits { pass.new.visits ≡ pass.old.visits }
{
    match insn {
        Insn::Jump { offset } => {
            push(
                pending,
                pass,
                target_of(slot, i32::from(*offset)),
                Some(visit),
            );
        }
        Insn::JumpLong { offset } => {
            push(pending, pass, target_of(slot, *offset), Some(visit));
        }
        Insn::Test {
            narrow,
            test,
            dst,
            src,
            offset,
        } => {
            let (onward, taken) = split(visit, pass, *narrow, *test, *dst, *src)?;
            push(pending, pass, Some(slot + 1), onward);
            push(pending, pass, target_of(slot, i32::from(*offset)), taken);
        }
        Insn::CallLocal { .. } | Insn::Exit => {}
        _ => {
            visit.state.after_insn(insn);
            push(pending, pass, Some(slot + insn.slots()), Some(visit));
        }
    }
    Ok(())
}

/// The visits on both edges of a test, first the one that isn't taken; none on an edge that can't be.
#[inline(always)]
fn split<const WORDS: usize>(
    mut visit: Box<Visit<WORDS>>,
    pass: &mut Pass<WORDS>,
    narrow: bool,
    test: Test,
    dst: Reg,
    src: Source,
) -> Result<(Option<Box<Visit<WORDS>>>, Option<Box<Visit<WORDS>>>), AllocError>
    ensures onward { IfOk result (λ edges. (stack : Stack) →
        IsStackOf visit.entry.value.state.initialized.words WORDS visit.entry.value.state.words.ranges stack →
        Brings edges.0
        (after_test (state_of visit.entry.value.state.ranges stack) narrow test dst.number src false)
        visit.entry.value.steps) }
    ensures taken { IfOk result (λ edges. (stack : Stack) →
        IsStackOf visit.entry.value.state.initialized.words WORDS visit.entry.value.state.words.ranges stack →
        Brings edges.1
        (after_test (state_of visit.entry.value.state.ranges stack) narrow test dst.number src true)
        visit.entry.value.steps) }
    ensures visits { pass.new.visits ≡ pass.old.visits }
{
    let (onward, taken) = visit.state.ranges_on_edges(narrow, test, dst, src);
    match onward {
        Some(onward) => {
            let other = match taken {
                Some(taken) => {
                    let mut other = pass.copy_of(&visit)?;
                    other.state.set_tested(dst, src, taken);
                    Some(other)
                }
                None => None,
            };
            visit.state.set_tested(dst, src, onward);
            Ok((Some(visit), other))
        }
        None => match taken {
            Some(taken) => {
                visit.state.set_tested(dst, src, taken);
                Ok((None, Some(visit)))
            }
            None => Ok((None, None)),
        },
    }
}

/// Takes a visit over an edge, where there are such a slot and such a visit.
#[inline(always)]
fn push<const WORDS: usize>(
    pending: &mut [Option<Box<Visit<WORDS>>>],
    pass: &mut Pass<WORDS>,
    target: Option<usize>,
    visit: Option<Box<Visit<WORDS>>>,
)
    ensures flowed { (of : Option ModelState) (steps : ℕ) → Brings visit.entry of steps →
        Flowed (edge_if target of) steps pending.old pending.new }
    ensures visits { pass.new.visits ≡ pass.old.visits }
{
    if let (Some(target), Some(visit)) = (target, visit) {
        if target < pending.len() {
            join_into(&mut pending[target], visit, pass);
        }
    }
}

/// Joins a visit into what is there, or puts it there.
#[inline(always)]
fn join_into<const WORDS: usize>(
    place: &mut Option<Box<Visit<WORDS>>>,
    visit: Box<Visit<WORDS>>,
    pass: &mut Pass<WORDS>,
)
    ensures visit { (of : ModelState) → Represents visit.entry.value.state of →
        VisitJoined (visit_in place.old) of visit.entry.value.steps (visit_in place.new) }
    ensures visits { pass.new.visits ≡ pass.old.visits }
{
    match place {
        Some(before) => {
            before.join(&visit);
            pass.spare = Some(visit);
        }
        None => *place = Some(visit),
    }
}
