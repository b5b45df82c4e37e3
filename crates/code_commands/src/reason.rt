//! Why code was refused, in a sentence with the values that made a check fail.

use crate::explain::Reached;
use crate::numbers::{Base, Numbers};
use bpf_decode::{DecodeFault, Insn, SLOT_SIZE, Size, Source, decode_all};
use bpf_model::layout::{
    ARGUMENTS_END, ARGUMENTS_SIZE, ARGUMENTS_START, FRAME_END, FRAME_SIZE, FRAME_START, FRAMES,
};
use bpf_verifier::{AbstractState, Refusal, VerifyFault};
use map_helpers::{Access, Extent, Helper};
use reg_ranges::Range;
use std::alloc::{AllocError, Global};
use std::fmt;

/// What an instruction does with memory.
#[derive(Clone, Copy, PartialEq, Eq)]
enum AccessKind {
    /// A load.
    Load,
    /// A store.
    Store,
    /// A helper reads.
    Read,
    /// A helper writes.
    Write,
}

impl fmt::Display for AccessKind {
    fn fmt<W: fmt::Write>(&self, f: &mut fmt::Formatter<W>) -> fmt::Result {
        match self {
            AccessKind::Load => write!(f, "loads"),
            AccessKind::Store => write!(f, "stores"),
            AccessKind::Read => write!(f, "reads"),
            AccessKind::Write => write!(f, "writes"),
        }
    }
}

/// Memory that an instruction may access.
#[derive(Clone, Copy)]
struct MemoryAccess {
    /// What it does there.
    kind: AccessKind,
    /// The register that a helper takes the address from.
    register: Option<u8>,
    /// Where it begins.
    range: Range,
    /// The most bytes.
    size: u64,
    /// Whether they may be fewer.
    at_most: bool,
}

/// Why the code was refused. The last visit is that of the fault, where the fault is one of a visit.
pub(crate) fn reason<const WORDS: usize>(
    alloc: Global,
    code: &[u8],
    refusal: Refusal,
    last: Option<&Reached<WORDS>>,
) -> Result<String, AllocError> {
    let slot = refusal.slot;
    match (refusal.fault, last) {
        (VerifyFault::Decode(fault), _) => reason_of_decode(alloc, code, fault, slot as usize),
        (VerifyFault::TooComplex, _) => format!(in alloc; "65536 visits were made before this one"),
        (VerifyFault::CallDepth, _) => format!(in alloc;
            "calls a function with all {FRAMES} frames in use"
        ),
        (VerifyFault::UninitRegister, Some(last)) => reason_of_register(alloc, last),
        (VerifyFault::BadAccess, Some(last)) => reason_of_access(alloc, last),
        (VerifyFault::UninitBytes, Some(last)) => reason_of_bytes(alloc, last),
        (fault, _) => reason_of_structure(alloc, code, fault, slot),
    }
}

/// Why bytes are no code.
fn reason_of_decode(
    alloc: Global,
    code: &[u8],
    fault: DecodeFault,
    slot: usize,
) -> Result<String, AllocError> {
    let count = code.len();
    let bytes = code.chunks(SLOT_SIZE).nth(slot).unwrap_or(&[]);
    let digits = match hex::encode(alloc, bytes) {
        Ok(digits) => digits,
        Err(_) => return Err(AllocError),
    };
    match fault {
        DecodeFault::Empty => format!(in alloc; "there are no bytes"),
        DecodeFault::NotSlots => format!(in alloc;
            "{count} bytes are no whole number of slots of 8"
        ),
        DecodeFault::TooLong => {
            let slots = count / SLOT_SIZE;
            format!(in alloc; "there are {slots} slots, and at most 1024 are taken")
        }
        DecodeFault::BadOpcode => format!(in alloc; "{digits} begins with no opcode of this host"),
        DecodeFault::BadRegister => format!(in alloc; "{digits} names a register above r10"),
        DecodeFault::FieldNotZero => format!(in alloc;
            "{digits} has a field that must be zero and isn't"
        ),
        DecodeFault::TruncatedWide => format!(in alloc; "{digits} lacks its second slot"),
        DecodeFault::BadWidth => format!(in alloc; "{digits} swaps neither 16 nor 32 nor 64 bits"),
        DecodeFault::BadOffset => format!(in alloc;
            "{digits} has an offset that its operation doesn't know"
        ),
        DecodeFault::Memory => format!(in alloc; "memory ran out"),
    }
}

/// Why an instruction may not stand at its slot.
fn reason_of_structure(
    alloc: Global,
    code: &[u8],
    fault: VerifyFault,
    slot: u32,
) -> Result<String, AllocError> {
    let Ok(insns) = decode_all(alloc, code) else {
        return Err(AllocError);
    };
    let insn = insn_at(&insns, slot as usize);
    let slots = code.len() / SLOT_SIZE;
    match (fault, insn) {
        (VerifyFault::JumpBackward, Some(insn)) => {
            let target = target_of(slot, &insn);
            format!(in alloc; "leads from slot {slot} back to slot {target}")
        }
        (VerifyFault::JumpOutside, Some(insn)) => {
            let target = target_of(slot, &insn);
            if target < 0 || target >= slots as i64 {
                format!(in alloc; "leads to slot {target}, and the code has {slots}")
            } else {
                format!(in alloc; "leads to slot {target}, where no instruction begins")
            }
        }
        (VerifyFault::UnknownHelper, Some(Insn::CallHelper { helper })) => {
            format!(in alloc; "calls helper {helper}, which this host does not have")
        }
        (VerifyFault::FallsOffEnd, _) => format!(in alloc;
            "ends the code, and is neither an exit nor a jump"
        ),
        (VerifyFault::WritesFramePointer, _) => format!(in alloc; "writes r10, the frame pointer"),
        (fault, _) => format!(in alloc; "{fault}"),
    }
}

/// The instruction that begins at a slot.
fn insn_at(insns: &[Insn], slot: usize) -> Option<Insn> {
    let mut next = 0;
    for insn in insns {
        if next == slot {
            return Some(*insn);
        }
        next = insn.slots().saturating_add(next);
    }
    None
}

/// The slot that a jump, a test or a local call leads to, inside the code or not.
fn target_of(slot: u32, insn: &Insn) -> i64 {
    let offset = match insn {
        Insn::Jump { offset } | Insn::Test { offset, .. } => i64::from(*offset),
        Insn::JumpLong { offset } | Insn::CallLocal { offset } => i64::from(*offset),
        _ => 0,
    };
    i64::from(slot).saturating_add(1).saturating_add(offset)
}

/// Which register is read that may hold nothing.
fn reason_of_register<const WORDS: usize>(
    alloc: Global,
    last: &Reached<WORDS>,
) -> Result<String, AllocError> {
    for register in registers_read(&last.insn) {
        if let Some(register) = register {
            if last.state.range_of(register).is_none() {
                return format!(in alloc; "reads r{register}, which may hold nothing");
            }
        }
    }
    format!(in alloc; "reads a register that may hold nothing")
}

/// The registers that an instruction reads, in the order in which they are checked.
fn registers_read(insn: &Insn) -> [Option<u8>; 2] {
    match insn {
        Insn::Alu { op, dst, src, .. } => {
            let first = if op.reads_destination() {
                Some(dst.number)
            } else {
                None
            };
            [first, register_of(*src)]
        }
        Insn::Test { dst, src, .. } => [Some(dst.number), register_of(*src)],
        Insn::Store { base, src, .. } => [Some(base.number), Some(src.number)],
        Insn::Swap { dst, .. } => [Some(dst.number), None],
        Insn::Load { base, .. } | Insn::StoreImm { base, .. } => [Some(base.number), None],
        Insn::CallHelper { helper } => match Helper::of(*helper) {
            Some(helper) => {
                let arguments = helper.arguments();
                [arguments.first().copied(), arguments.get(1).copied()]
            }
            None => [None, None],
        },
        Insn::Exit => [Some(0), None],
        _ => [None, None],
    }
}

/// The register of a second operand, if it is one.
fn register_of(src: Source) -> Option<u8> {
    match src {
        Source::Imm(_) => None,
        Source::Reg(reg) => Some(reg.number),
    }
}

/// Which access may leave the stack and the arguments, and by how much.
fn reason_of_access<const WORDS: usize>(
    alloc: Global,
    last: &Reached<WORDS>,
) -> Result<String, AllocError> {
    for access in memory_accesses(alloc, last)? {
        if let Some(excess) = excess(alloc, last.depth, access)? {
            let access = text_of(alloc, access)?;
            return format!(in alloc; "{access}, which {excess}");
        }
    }
    format!(in alloc; "touches memory that may lie outside the stack and the arguments")
}

/// Which byte of the stack is read that may not be initialized.
fn reason_of_bytes<const WORDS: usize>(
    alloc: Global,
    last: &Reached<WORDS>,
) -> Result<String, AllocError> {
    for access in memory_accesses(alloc, last)? {
        if access.kind == AccessKind::Write || access.range.lo >= ARGUMENTS_START {
            continue;
        }
        for address in access.range.lo..access.range.hi.saturating_add(access.size) {
            if !last.state.has_byte_at(address) {
                let byte = Numbers::of_address(Range::single(address));
                let access = text_of(alloc, access)?;
                return format!(in alloc; "{access}, and the byte at {byte} may not be initialized");
            }
        }
    }
    format!(in alloc; "reads bytes of the stack that may not be initialized")
}

/// The memory that an instruction may access, in the order in which it is checked.
fn memory_accesses<const WORDS: usize>(
    alloc: Global,
    last: &Reached<WORDS>,
) -> Result<Vec<MemoryAccess>, AllocError> {
    let mut all = Vec::new(alloc);
    let (size, base, offset, kind) = match last.insn {
        Insn::Load {
            size,
            base,
            offset,
            ..
        } => (size, base, offset, AccessKind::Load),
        Insn::StoreImm {
            size,
            base,
            offset,
            ..
        } => (size, base, offset, AccessKind::Store),
        Insn::Store {
            size,
            base,
            offset,
            ..
        } => (size, base, offset, AccessKind::Store),
        Insn::CallHelper { helper } => {
            if let Some(helper) = Helper::of(helper) {
                push_accesses(&mut all, &last.state, helper.reads(), AccessKind::Read)?;
                push_accesses(&mut all, &last.state, helper.writes(), AccessKind::Write)?;
            }
            return Ok(all);
        }
        _ => return Ok(all),
    };
    if let Some(range) = last.state.address_range(base, offset) {
        all.push(MemoryAccess {
            kind,
            register: None,
            range,
            size: bytes_of(size),
            at_most: false,
        })?;
    }
    Ok(all)
}

/// Adds the memory that a helper touches.
fn push_accesses<const WORDS: usize>(
    all: &mut Vec<MemoryAccess>,
    state: &AbstractState<WORDS>,
    accesses: &[Access],
    kind: AccessKind,
) -> Result<(), AllocError> {
    for access in accesses {
        let most = match access.size {
            Extent::Fixed(size) => Some(Range::single(u64::from(size))),
            Extent::Second => state.range_of(2),
        };
        if let (Some(range), Some(most)) = (state.range_of(access.register), most) {
            all.push(MemoryAccess {
                kind,
                register: Some(access.register),
                range,
                size: most.hi,
                at_most: !most.is_single(),
            })?;
        }
    }
    Ok(())
}

/// The bytes of a load or a store.
fn bytes_of(size: Size) -> u64 {
    match size {
        Size::B => 1,
        Size::H => 2,
        Size::W => 4,
        Size::Dw => 8,
    }
}

/// A number of bytes: `1 byte`, `8 bytes`.
#[derive(Clone, Copy)]
struct Bytes(u64);

impl fmt::Display for Bytes {
    fn fmt<W: fmt::Write>(&self, f: &mut fmt::Formatter<W>) -> fmt::Result {
        let count = self.0;
        if count == 1 {
            write!(f, "1 byte")
        } else {
            write!(f, "{count} bytes")
        }
    }
}

/// What is done where.
fn text_of(alloc: Global, access: MemoryAccess) -> Result<String, AllocError> {
    let MemoryAccess {
        kind,
        register,
        range,
        size,
        at_most,
    } = access;
    let addresses = Numbers::of_address(range);
    let most = if at_most { "up to " } else { "" };
    let bytes = Bytes(size);
    match register {
        Some(register) => { format!(in alloc; "{kind} {most}{bytes} at r{register} = {addresses}") }
        None => format!(in alloc; "{kind} {most}{bytes} at {addresses}"),
    }
}

/// How an access may leave the frames in use and the arguments, if it may.
fn excess(alloc: Global, depth: u32, access: MemoryAccess) -> Result<Option<String>, AllocError> {
    let MemoryAccess { range, size, .. } = access;
    let (may, s) = if range.is_single() && !access.at_most {
        ("", "s")
    } else {
        ("may ", "")
    };
    let stack_end = FRAME_END.saturating_add(u64::from(depth).saturating_mul(FRAME_SIZE as u64));
    let end = range.hi.checked_add(size).unwrap_or(u64::MAX);
    if size == 0
        || range.lo >= FRAME_START && end <= stack_end
        || range.lo >= ARGUMENTS_START && end <= ARGUMENTS_END
    {
        return Ok(None);
    }
    let text = match Base::of_address(range) {
        Some(Base::Arguments) if range.lo >= ARGUMENTS_START => {
            let end = end.saturating_sub(ARGUMENTS_START);
            format!(in alloc; "{may}end{s} at {end} of {ARGUMENTS_SIZE}")?
        }
        Some(Base::Arguments) => {
            let before = Bytes(ARGUMENTS_START.saturating_sub(range.lo));
            format!(in alloc; "{may}begin{s} {before} before the arguments")?
        }
        Some(Base::Frame(_)) if range.lo >= FRAME_START => {
            let above = Bytes(end.saturating_sub(stack_end));
            format!(in alloc; "{may}end{s} {above} above the frame pointer")?
        }
        Some(Base::Frame(_)) => {
            let below = Bytes(FRAME_START.saturating_sub(range.lo));
            format!(in alloc; "{may}begin{s} {below} below the stack")?
        }
        None => format!(in alloc; "{may}lie{s} outside the stack and the arguments")?,
    };
    Ok(Some(text))
}
