//! Slots as fields: between their bytes and the instructions that they encode.

ghost use Rattle.std.specs.Prelude.{◌≡◌, ◌⊎◌, length, ◌≤◌, ◌/◌, ◌%◌, ◌^◌, IfOk, OnOk, IfErr, IfSome, Some, Option};
ghost use Rattle.bpf_num.specs.declared.AluWidth.{AluWidth};
ghost use Rattle.bpf_decode.specs.declared.slot.Slot.{Slot};
ghost use Rattle.bpf_decode.specs.declared.opcode.Opcode.TheVariants as opcode;
ghost use Rattle.bpf_decode.specs.declared.insn.Insn.{Insn};
ghost use Rattle.bpf_decode.specs.declared.insn.Insn.TheVariants as insn;
ghost use Rattle.bpf_decode.specs.declared.refusal.DecodeFault.TheVariants.{Memory};
ghost use Rattle.bpf_decode.specs.Opcodes.{opcode_byte};
ghost use Rattle.bpf_decode.specs.Encoding.{slot_bytes, first_slot, half_slot, slot_with, signed_32, IsSlot, IsLoad};
ghost use Rattle.bpf_decode.specs.Faults.{slot_fault, form_fault, has_stray_field, is_stray_half};
ghost use Rattle.bpf_decode.specs.Parts.{Reads, IsOpcode};

use crate::insn::{Insn, Reg, Size, Source};
use crate::opcode::SourceKind::{K, X};
use crate::opcode::{
    Opcode, Operation, SourceKind, offset_of, swap_immediate, swap_width, variant,
};
use crate::refusal::DecodeFault;
use crate::sink::Sink;
use bpf_num::{AluOp, AluWidth, SwapKind, Test};

/// A slot of code: 8 bytes as fields, none of them checked (RFC 9669, section 3.1).
#[derive(Clone, Copy, Debug, PartialEq, Eq)]
pub struct Slot {
    /// The opcode byte.
    pub opcode: u8,
    /// The number of the destination register, below 16.
    pub dst: u8,
    /// The number of the source register, below 16.
    pub src: u8,
    /// The offset; its use is the opcode's.
    pub offset: i16,
    /// The immediate; its use is the opcode's.
    pub imm: i32,
}

impl Slot {
    /// The fields of 8 bytes.
    pub fn from_bytes(bytes: &[u8]) -> Slot
        requires { length bytes.now ≡ 8 }
        ensures encoded { slot_bytes result ≡ bytes.now }
        ensures fits { IsSlot result }
    {
        Slot {
            opcode: bytes[0],
            dst: bytes[1] & 0x0f,
            src: bytes[1] >> 4,
            offset: i16::from_le_bytes([bytes[2], bytes[3]]),
            imm: i32::from_le_bytes([bytes[4], bytes[5], bytes[6], bytes[7]]),
        }
    }

    /// The 8 bytes of the fields.
    pub fn to_bytes(self) -> [u8; 8]
        requires { IsSlot self }
        ensures { result ≡ slot_bytes self }
    {
        let [offset_low, offset_high] = self.offset.to_le_bytes();
        let [imm0, imm1, imm2, imm3] = self.imm.to_le_bytes();
        let registers = self.dst + (self.src << 4);
        [
            self.opcode,
            registers,
            offset_low,
            offset_high,
            imm0,
            imm1,
            imm2,
            imm3,
        ]
    }

    /// Gives the instruction whose first slot this is, before the slot behind it, to a sink, or returns the
    /// slot's first fault, and the sink is as it was. Each kind of instruction is given where it is read, so
    /// that what the sink does with it needs no second look at the kind.
    #[inline(always)]
    pub fn read<S: Sink>(self, behind: Option<Slot>, sink: &mut S) -> Result<(), DecodeFault>
        requires fits { IsSlot self }
        requires behind_fits { IfSome behind (λ slot. IsSlot slot) }
        ensures found { OnOk result ((insn : Insn) × Reads self behind insn × S.takes sink.old insn sink.new) }
        ensures refused { IfErr result (λ fault. (fault ≡ Memory)
            ⊎ ((slot_fault self behind ≡ Some fault) × (sink.new ≡ sink.old))) }
    {
        let Some(opcode) = Opcode::of(self.opcode) else {
            return Err(DecodeFault::BadOpcode);
        };
        let (Some(dst), Some(src)) = (Reg::new(self.dst), Reg::new(self.src)) else {
            return Err(DecodeFault::BadRegister);
        };
        match opcode {
            Opcode::Alu {
                width,
                operation,
                source: K,
            } => give(self.alu(behind, width, operation, K, dst, src)?, sink),
            Opcode::Alu {
                width,
                operation,
                source: X,
            } => give(self.alu(behind, width, operation, X, dst, src)?, sink),
            Opcode::Swap { kind } => give(self.swap(behind, kind, dst)?, sink),
            Opcode::LoadImm => give(self.load_imm(behind, dst)?, sink),
            Opcode::Load { size, signed } => {
                give(self.load(behind, size, signed, dst, src)?, sink)
            }
            Opcode::StoreImm { size } => give(self.store_imm(behind, size, dst)?, sink),
            Opcode::Store { size } => give(self.store(behind, size, dst, src)?, sink),
            Opcode::Jump => give(self.jump(behind)?, sink),
            Opcode::JumpLong => give(self.jump_long(behind)?, sink),
            Opcode::Test {
                narrow,
                test,
                source: K,
            } => give(self.test(behind, narrow, test, K, dst, src)?, sink),
            Opcode::Test {
                narrow,
                test,
                source: X,
            } => give(self.test(behind, narrow, test, X, dst, src)?, sink),
            Opcode::Call => give(self.call(behind)?, sink),
            Opcode::Exit => give(self.exit(behind)?, sink),
        }
    }

    /// Gives the load of a constant of 64 bits whose first slot this is, as `read` does.
    #[inline(always)]
    pub(crate) fn read_wide<S: Sink>(
        self,
        behind: Option<Slot>,
        sink: &mut S,
    ) -> Result<(), DecodeFault>
        requires fits { IsSlot self }
        requires wide { self.opcode ≡ opcode_byte (opcode.LoadImm) }
        requires behind_fits { IfSome behind (λ slot. IsSlot slot) }
        ensures found { OnOk result ((insn : Insn) × Reads self behind insn × S.takes sink.old insn sink.new) }
        ensures refused { IfErr result (λ fault. (fault ≡ Memory)
            ⊎ ((slot_fault self behind ≡ Some fault) × (sink.new ≡ sink.old))) }
    {
        let (Some(dst), Some(_)) = (Reg::new(self.dst), Reg::new(self.src)) else {
            return Err(DecodeFault::BadRegister);
        };
        give(self.load_imm(behind, dst)?, sink)
    }

    #[inline(always)]
    fn alu(
        self,
        behind: Option<Slot>,
        width: AluWidth,
        operation: Operation,
        source: SourceKind,
        dst: Reg,
        src: Reg,
    ) -> Result<Insn, DecodeFault>
        requires fits { IsSlot self }
        requires opcode { self.opcode ≡ opcode_byte (opcode.Alu width operation source) }
        requires dst { dst.number ≡ self.dst }
        requires src { src.number ≡ self.src }
        requires form { IsOpcode (opcode.Alu width operation source) }
        ensures found { IfOk result (λ insn. Reads self behind insn) }
        ensures refused { IfErr result (λ fault.
            form_fault (opcode.Alu width operation source) self behind ≡ Some fault) }
    {
        let Some(op) = variant(width, operation, source, self.offset) else {
            return Err(DecodeFault::BadOffset);
        };
        if self.has_stray_operand(operation, source) {
            return Err(DecodeFault::FieldNotZero);
        }
        let src = match source {
            K => Source::Imm(self.imm),
            X => Source::Reg(src),
        };
        Ok(Insn::Alu {
            width,
            op,
            dst,
            src,
        })
    }

    /// Whether an arithmetic instruction has a field without a use that is not zero.
    fn has_stray_operand(self, operation: Operation, source: SourceKind) -> bool
        ensures { (width : AluWidth) (behind : Option Slot) →
            result ≡ has_stray_field (opcode.Alu width operation source) self behind }
    {
        let stray_offset = self.offset != 0 && !operation.uses_offset();
        match source {
            K => { self.src != 0 || stray_offset || self.imm != 0 && !operation.has_operand() }
            X => stray_offset || self.imm != 0,
        }
    }

    #[inline(always)]
    fn swap(self, behind: Option<Slot>, kind: SwapKind, dst: Reg) -> Result<Insn, DecodeFault>
        requires fits { IsSlot self }
        requires opcode { self.opcode ≡ opcode_byte (opcode.Swap kind) }
        requires dst { dst.number ≡ self.dst }
        ensures found { IfOk result (λ insn. Reads self behind insn) }
        ensures refused { IfErr result (λ fault.
            form_fault (opcode.Swap kind) self behind ≡ Some fault) }
    {
        let Some(width) = swap_width(self.imm) else {
            return Err(DecodeFault::BadWidth);
        };
        if self.src != 0 || self.offset != 0 {
            return Err(DecodeFault::FieldNotZero);
        }
        Ok(Insn::Swap { kind, width, dst })
    }

    #[inline(always)]
    fn load_imm(self, behind: Option<Slot>, dst: Reg) -> Result<Insn, DecodeFault>
        requires fits { IsSlot self }
        requires opcode { self.opcode ≡ opcode_byte (opcode.LoadImm) }
        requires dst { dst.number ≡ self.dst }
        requires behind_fits { IfSome behind (λ slot. IsSlot slot) }
        ensures found { IfOk result (λ insn. Reads self behind insn) }
        ensures refused { IfErr result (λ fault.
            form_fault (opcode.LoadImm) self behind ≡ Some fault) }
    {
        let Some(half) = behind else {
            return Err(DecodeFault::TruncatedWide);
        };
        if self.src != 0 || self.offset != 0 || half.is_stray_half() {
            return Err(DecodeFault::FieldNotZero);
        }
        let value = wide_value(self.imm, half.imm);
        Ok(Insn::LoadImm { dst, value })
    }

    #[inline(always)]
    fn load(
        self,
        behind: Option<Slot>,
        size: Size,
        signed: bool,
        dst: Reg,
        base: Reg,
    ) -> Result<Insn, DecodeFault>
        requires fits { IsSlot self }
        requires opcode { self.opcode ≡ opcode_byte (opcode.Load size signed) }
        requires dst { dst.number ≡ self.dst }
        requires base { base.number ≡ self.src }
        requires form { IsLoad size signed }
        ensures found { IfOk result (λ insn. Reads self behind insn) }
        ensures refused { IfErr result (λ fault.
            form_fault (opcode.Load size signed) self behind ≡ Some fault) }
    {
        if self.imm != 0 {
            return Err(DecodeFault::FieldNotZero);
        }
        Ok(Insn::Load {
            size,
            signed,
            dst,
            base,
            offset: self.offset,
        })
    }

    #[inline(always)]
    fn store_imm(self, behind: Option<Slot>, size: Size, base: Reg) -> Result<Insn, DecodeFault>
        requires fits { IsSlot self }
        requires opcode { self.opcode ≡ opcode_byte (opcode.StoreImm size) }
        requires base { base.number ≡ self.dst }
        ensures found { IfOk result (λ insn. Reads self behind insn) }
        ensures refused { IfErr result (λ fault.
            form_fault (opcode.StoreImm size) self behind ≡ Some fault) }
    {
        if self.src != 0 {
            return Err(DecodeFault::FieldNotZero);
        }
        Ok(Insn::StoreImm {
            size,
            base,
            offset: self.offset,
            imm: self.imm,
        })
    }

    #[inline(always)]
    fn store(
        self,
        behind: Option<Slot>,
        size: Size,
        base: Reg,
        src: Reg,
    ) -> Result<Insn, DecodeFault>
        requires fits { IsSlot self }
        requires opcode { self.opcode ≡ opcode_byte (opcode.Store size) }
        requires base { base.number ≡ self.dst }
        requires src { src.number ≡ self.src }
        ensures found { IfOk result (λ insn. Reads self behind insn) }
        ensures refused { IfErr result (λ fault.
            form_fault (opcode.Store size) self behind ≡ Some fault) }
    {
        if self.imm != 0 {
            return Err(DecodeFault::FieldNotZero);
        }
        Ok(Insn::Store {
            size,
            base,
            offset: self.offset,
            src,
        })
    }

    #[inline(always)]
    fn jump(self, behind: Option<Slot>) -> Result<Insn, DecodeFault>
        requires fits { IsSlot self }
        requires opcode { self.opcode ≡ opcode_byte (opcode.Jump) }
        ensures found { IfOk result (λ insn. Reads self behind insn) }
        ensures refused { IfErr result (λ fault.
            form_fault (opcode.Jump) self behind ≡ Some fault) }
    {
        if self.dst != 0 || self.src != 0 || self.imm != 0 {
            return Err(DecodeFault::FieldNotZero);
        }
        Ok(Insn::Jump {
            offset: self.offset,
        })
    }

    #[inline(always)]
    fn jump_long(self, behind: Option<Slot>) -> Result<Insn, DecodeFault>
        requires fits { IsSlot self }
        requires opcode { self.opcode ≡ opcode_byte (opcode.JumpLong) }
        ensures found { IfOk result (λ insn. Reads self behind insn) }
        ensures refused { IfErr result (λ fault.
            form_fault (opcode.JumpLong) self behind ≡ Some fault) }
    {
        if self.dst != 0 || self.src != 0 || self.offset != 0 {
            return Err(DecodeFault::FieldNotZero);
        }
        Ok(Insn::JumpLong { offset: self.imm })
    }

    #[inline(always)]
    fn test(
        self,
        behind: Option<Slot>,
        narrow: bool,
        test: Test,
        source: SourceKind,
        dst: Reg,
        src: Reg,
    ) -> Result<Insn, DecodeFault>
        requires fits { IsSlot self }
        requires opcode { self.opcode ≡ opcode_byte (opcode.Test narrow test source) }
        requires dst { dst.number ≡ self.dst }
        requires src { src.number ≡ self.src }
        ensures found { IfOk result (λ insn. Reads self behind insn) }
        ensures refused { IfErr result (λ fault.
            form_fault (opcode.Test narrow test source) self behind ≡ Some fault) }
    {
        let (operand, stray) = match source {
            K => (Source::Imm(self.imm), self.src != 0),
            X => (Source::Reg(src), self.imm != 0),
        };
        if stray {
            return Err(DecodeFault::FieldNotZero);
        }
        Ok(Insn::Test {
            narrow,
            test,
            dst,
            src: operand,
            offset: self.offset,
        })
    }

    #[inline(always)]
    fn call(self, behind: Option<Slot>) -> Result<Insn, DecodeFault>
        requires fits { IsSlot self }
        requires opcode { self.opcode ≡ opcode_byte (opcode.Call) }
        ensures found { IfOk result (λ insn. Reads self behind insn) }
        ensures refused { IfErr result (λ fault.
            form_fault (opcode.Call) self behind ≡ Some fault) }
    {
        if self.dst != 0 || self.offset != 0 {
            return Err(DecodeFault::FieldNotZero);
        }
        match self.src {
            0 => Ok(Insn::CallHelper { helper: self.imm }),
            1 => Ok(Insn::CallLocal { offset: self.imm }),
            _ => Err(DecodeFault::FieldNotZero),
        }
    }

    #[inline(always)]
    fn exit(self, behind: Option<Slot>) -> Result<Insn, DecodeFault>
        requires fits { IsSlot self }
        requires opcode { self.opcode ≡ opcode_byte (opcode.Exit) }
        ensures found { IfOk result (λ insn. Reads self behind insn) }
        ensures refused { IfErr result (λ fault.
            form_fault (opcode.Exit) self behind ≡ Some fault) }
    {
        if self.dst != 0 || self.src != 0 || self.offset != 0 || self.imm != 0 {
            return Err(DecodeFault::FieldNotZero);
        }
        Ok(Insn::Exit)
    }

    /// Whether the second slot of a wide instruction holds more than its immediate.
    fn is_stray_half(self) -> bool
        ensures { result ≡ is_stray_half (Some self) }
    {
        self.opcode != 0 || self.dst != 0 || self.src != 0 || self.offset != 0
    }

    /// The slot of these fields.
    fn of(opcode: Opcode, dst: u8, src: u8, offset: i16, imm: i32) -> Slot
        requires dst { dst ≤ 10 }
        requires src { src ≤ 10 }
        ensures encoded { result ≡ slot_with opcode dst src offset imm }
        ensures fits { IsSlot result }
    {
        Slot {
            opcode: opcode.byte(),
            dst,
            src,
            offset,
            imm,
        }
    }

    /// The second slot of a wide instruction.
    fn half(imm: i32) -> Slot
        ensures { result ≡ half_slot imm }
    {
        Slot {
            opcode: 0,
            dst: 0,
            src: 0,
            offset: 0,
            imm,
        }
    }
}

/// Gives an instruction to a sink.
#[inline(always)]
fn give<S: Sink>(insn: Insn, sink: &mut S) -> Result<(), DecodeFault>
    ensures taken { OnOk result (S.takes sink.old insn sink.new) }
    ensures refused { IfErr result (λ fault. fault ≡ Memory) }
{
    match sink.take(insn) {
        Ok(()) => Ok(()),
        Err(_) => Err(DecodeFault::Memory),
    }
}

/// The constant of 64 bits of two immediates, the lower half first.
fn wide_value(low: i32, high: i32) -> u64
    ensures low { signed_32 (result % 2 ^ 32) ≡ low }
    ensures high { signed_32 (result / 2 ^ 32) ≡ high }
{
    u64::from(low.cast_unsigned()) + (u64::from(high.cast_unsigned()) << 32)
}

impl Insn {
    ghost use Rattle.std.specs.Prelude.{◌≡◌, length, IfSome, IsSome};
    ghost use Rattle.bpf_decode.specs.Encoding.{insn_slots, other_slots, first_slot, IsSlot};
    ghost use Rattle.bpf_decode.specs.Parts.{slot_list};

    /// How many slots encode the instruction, 1 or 2.
    pub fn slots(self) -> usize
        ensures { result ≡ length (insn_slots self) }
    {
        match self {
            Insn::LoadImm { .. } => 2,
            _ => 1,
        }
    }

    /// The second slot that encodes the instruction, if it has one.
    pub fn second_slot(self) -> Option<Slot>
        ensures encoded { slot_list result ≡ other_slots self }
        ensures fits { IfSome result (λ slot. IsSlot slot) }
    {
        match self {
            Insn::LoadImm { value, .. } => {
                let high = (value >> 32) as u32;
                Some(Slot::half(high.cast_signed()))
            }
            _ => None,
        }
    }

    /// The first slot that encodes the instruction.
    pub fn first_slot(self) -> Slot
        ensures encoded { result ≡ first_slot self }
        ensures fits { IsSlot result }
    {
        match self {
            Insn::Alu {
                width,
                op,
                dst,
                src,
            } => alu_slot(width, op, dst, src),
            Insn::Swap { kind, width, dst } => {
                let imm = swap_immediate(width);
                Slot::of(Opcode::Swap { kind }, dst.number, 0, 0, imm)
            }
            Insn::LoadImm { dst, value } => {
                let low = (value & 0xffff_ffff) as u32;
                Slot::of(Opcode::LoadImm, dst.number, 0, 0, low.cast_signed())
            }
            Insn::Load {
                size,
                signed,
                dst,
                base,
                offset,
            } => Slot::of(
                Opcode::Load { size, signed },
                dst.number,
                base.number,
                offset,
                0,
            ),
            Insn::StoreImm {
                size,
                base,
                offset,
                imm,
            } => Slot::of(Opcode::StoreImm { size }, base.number, 0, offset, imm),
            Insn::Store {
                size,
                base,
                offset,
                src,
            } => Slot::of(Opcode::Store { size }, base.number, src.number, offset, 0),
            Insn::Jump { offset } => Slot::of(Opcode::Jump, 0, 0, offset, 0),
            Insn::JumpLong { offset } => Slot::of(Opcode::JumpLong, 0, 0, 0, offset),
            Insn::Test {
                narrow,
                test,
                dst,
                src,
                offset,
            } => test_slot(narrow, test, dst, src, offset),
            Insn::CallHelper { helper } => Slot::of(Opcode::Call, 0, 0, 0, helper),
            Insn::CallLocal { offset } => Slot::of(Opcode::Call, 0, 1, 0, offset),
            Insn::Exit => Slot::of(Opcode::Exit, 0, 0, 0, 0),
        }
    }
}

fn alu_slot(width: AluWidth, op: AluOp, dst: Reg, src: Source) -> Slot
    ensures encoded { result ≡ first_slot (insn.Alu width op dst src) }
    ensures fits { IsSlot result }
{
    let operation = Operation::of(op);
    let offset = offset_of(op);
    match src {
        Source::Imm(value) => {
            let source = K;
            let opcode = Opcode::Alu {
                width,
                operation,
                source,
            };
            Slot::of(opcode, dst.number, 0, offset, value)
        }
        Source::Reg(src) => {
            let source = X;
            let opcode = Opcode::Alu {
                width,
                operation,
                source,
            };
            Slot::of(opcode, dst.number, src.number, offset, 0)
        }
    }
}

fn test_slot(narrow: bool, test: Test, dst: Reg, src: Source, offset: i16) -> Slot
    ensures encoded { result ≡ first_slot (insn.Test narrow test dst src offset) }
    ensures fits { IsSlot result }
{
    match src {
        Source::Imm(value) => {
            let source = K;
            let opcode = Opcode::Test {
                narrow,
                test,
                source,
            };
            Slot::of(opcode, dst.number, 0, offset, value)
        }
        Source::Reg(src) => {
            let source = X;
            let opcode = Opcode::Test {
                narrow,
                test,
                source,
            };
            Slot::of(opcode, dst.number, src.number, offset, 0)
        }
    }
}
