//! The forms of instructions, and the word that each is written with.

ghost use Rattle.std.specs.Prelude.{◌≡◌, true, false, find};
ghost use Rattle.std.specs.Str.{bytes_eq};
ghost use Rattle.bpf_asm.specs.Words.{word_of, form_of_word, alu_word, wide_word, narrow_word, swap_word, load_word, store_number_word, store_word, test_word};
ghost use Rattle.bpf_asm.specs.Printing.{form_of, alu_form};

use bpf_decode::{Insn, Size};
use bpf_num::{AluOp, AluWidth, SwapKind, Test, Width};

/// What an instruction is but for its operands: each has one word.
#[derive(Clone, Copy, Debug, PartialEq, Eq)]
pub enum Form {
    /// Arithmetic with a register or a number.
    Alu(AluOp, AluWidth),
    /// Negation, which has no second operand.
    Neg(AluWidth),
    /// A move that extends a sign, from a register alone.
    Extend(AluOp, AluWidth),
    /// A byte swap.
    Swap(SwapKind, Width),
    /// A load of a wide immediate.
    LoadImm,
    /// A load, sign-extended where the flag is set.
    Load(Size, bool),
    /// A store of a number.
    StoreImm(Size),
    /// A store of a register.
    Store(Size),
    /// A jump by 16 bits.
    Jump,
    /// A jump by 32 bits.
    JumpLong,
    /// A jump on a test, of low halves where the flag is set.
    Test(Test, bool),
    /// A call of a helper.
    CallHelper,
    /// A call of a local function.
    CallLocal,
    /// The return from a function.
    Exit,
}

/// All forms that have a word.
const FORMS: [Form; 87] = [
    Form::Alu(AluOp::Add, AluWidth::W64),
    Form::Alu(AluOp::Add, AluWidth::W32),
    Form::Alu(AluOp::Sub, AluWidth::W64),
    Form::Alu(AluOp::Sub, AluWidth::W32),
    Form::Alu(AluOp::Mul, AluWidth::W64),
    Form::Alu(AluOp::Mul, AluWidth::W32),
    Form::Alu(AluOp::Div, AluWidth::W64),
    Form::Alu(AluOp::Div, AluWidth::W32),
    Form::Alu(AluOp::Sdiv, AluWidth::W64),
    Form::Alu(AluOp::Sdiv, AluWidth::W32),
    Form::Alu(AluOp::Or, AluWidth::W64),
    Form::Alu(AluOp::Or, AluWidth::W32),
    Form::Alu(AluOp::And, AluWidth::W64),
    Form::Alu(AluOp::And, AluWidth::W32),
    Form::Alu(AluOp::Lsh, AluWidth::W64),
    Form::Alu(AluOp::Lsh, AluWidth::W32),
    Form::Alu(AluOp::Rsh, AluWidth::W64),
    Form::Alu(AluOp::Rsh, AluWidth::W32),
    Form::Alu(AluOp::Mod, AluWidth::W64),
    Form::Alu(AluOp::Mod, AluWidth::W32),
    Form::Alu(AluOp::Smod, AluWidth::W64),
    Form::Alu(AluOp::Smod, AluWidth::W32),
    Form::Alu(AluOp::Xor, AluWidth::W64),
    Form::Alu(AluOp::Xor, AluWidth::W32),
    Form::Alu(AluOp::Mov, AluWidth::W64),
    Form::Alu(AluOp::Mov, AluWidth::W32),
    Form::Alu(AluOp::Arsh, AluWidth::W64),
    Form::Alu(AluOp::Arsh, AluWidth::W32),
    Form::Neg(AluWidth::W64),
    Form::Neg(AluWidth::W32),
    Form::Extend(AluOp::Movsx8, AluWidth::W64),
    Form::Extend(AluOp::Movsx16, AluWidth::W64),
    Form::Extend(AluOp::Movsx32, AluWidth::W64),
    Form::Extend(AluOp::Movsx8, AluWidth::W32),
    Form::Extend(AluOp::Movsx16, AluWidth::W32),
    Form::Swap(SwapKind::Le, Width::W16),
    Form::Swap(SwapKind::Le, Width::W32),
    Form::Swap(SwapKind::Le, Width::W64),
    Form::Swap(SwapKind::Be, Width::W16),
    Form::Swap(SwapKind::Be, Width::W32),
    Form::Swap(SwapKind::Be, Width::W64),
    Form::Swap(SwapKind::Swap, Width::W16),
    Form::Swap(SwapKind::Swap, Width::W32),
    Form::Swap(SwapKind::Swap, Width::W64),
    Form::LoadImm,
    Form::Load(Size::B, false),
    Form::Load(Size::H, false),
    Form::Load(Size::W, false),
    Form::Load(Size::Dw, false),
    Form::Load(Size::B, true),
    Form::Load(Size::H, true),
    Form::Load(Size::W, true),
    Form::StoreImm(Size::B),
    Form::StoreImm(Size::H),
    Form::StoreImm(Size::W),
    Form::StoreImm(Size::Dw),
    Form::Store(Size::B),
    Form::Store(Size::H),
    Form::Store(Size::W),
    Form::Store(Size::Dw),
    Form::Jump,
    Form::JumpLong,
    Form::Test(Test::Jeq, false),
    Form::Test(Test::Jgt, false),
    Form::Test(Test::Jge, false),
    Form::Test(Test::Jset, false),
    Form::Test(Test::Jne, false),
    Form::Test(Test::Jsgt, false),
    Form::Test(Test::Jsge, false),
    Form::Test(Test::Jlt, false),
    Form::Test(Test::Jle, false),
    Form::Test(Test::Jslt, false),
    Form::Test(Test::Jsle, false),
    Form::Test(Test::Jeq, true),
    Form::Test(Test::Jgt, true),
    Form::Test(Test::Jge, true),
    Form::Test(Test::Jset, true),
    Form::Test(Test::Jne, true),
    Form::Test(Test::Jsgt, true),
    Form::Test(Test::Jsge, true),
    Form::Test(Test::Jlt, true),
    Form::Test(Test::Jle, true),
    Form::Test(Test::Jslt, true),
    Form::Test(Test::Jsle, true),
    Form::CallHelper,
    Form::CallLocal,
    Form::Exit,
];

impl Form {
    /// The form that a word names, if it names one.
    pub(crate) fn from_word(word: &[u8]) -> Option<Form>
        ensures { result ≡ form_of_word word.now }
    {
        find_form(&FORMS, word)
    }

    /// The form of an instruction.
    pub(crate) fn of(insn: &Insn) -> Form
        ensures { result ≡ form_of insn.now }
    {
        match *insn {
            Insn::Alu { width, op, .. } => alu_form(op, width),
            Insn::Swap { kind, width, .. } => Form::Swap(kind, width),
            Insn::LoadImm { .. } => Form::LoadImm,
            Insn::Load { size, signed, .. } => Form::Load(size, signed),
            Insn::StoreImm { size, .. } => Form::StoreImm(size),
            Insn::Store { size, .. } => Form::Store(size),
            Insn::Jump { .. } => Form::Jump,
            Insn::JumpLong { .. } => Form::JumpLong,
            Insn::Test { narrow, test, .. } => Form::Test(test, narrow),
            Insn::CallHelper { .. } => Form::CallHelper,
            Insn::CallLocal { .. } => Form::CallLocal,
            Insn::Exit => Form::Exit,
        }
    }

    /// The word of the form. A sign-extended load of 8 bytes has none.
    pub(crate) fn word(self) -> &'static str
        ensures { result.now ≡ word_of self }
    {
        match self {
            Form::Alu(op, width) | Form::Extend(op, width) => alu_word(op, width),
            Form::Neg(width) => alu_word(AluOp::Neg, width),
            Form::Swap(kind, width) => swap_word(kind, width),
            Form::LoadImm => "lddw",
            Form::Load(size, signed) => load_word(size, signed),
            Form::StoreImm(size) => store_number_word(size),
            Form::Store(size) => store_word(size),
            Form::Jump => "ja",
            Form::JumpLong => "ja32",
            Form::Test(test, narrow) => {
                if narrow {
                    narrow_test_word(test)
                } else {
                    wide_test_word(test)
                }
            }
            Form::CallHelper => "call",
            Form::CallLocal => "callf",
            Form::Exit => "exit",
        }
    }
}

/// The form of arithmetic.
fn alu_form(op: AluOp, width: AluWidth) -> Form
    ensures { result ≡ alu_form op width }
{
    match op {
        AluOp::Neg => Form::Neg(width),
        AluOp::Movsx8 | AluOp::Movsx16 | AluOp::Movsx32 => Form::Extend(op, width),
        _ => Form::Alu(op, width),
    }
}

/// The first of some forms that is written with this word.
#[tactic(auto, using(crate::proofs::Stepping::stepping))]
fn find_form(forms: &[Form], word: &[u8]) -> Option<Form>
    ensures { result ≡ find (λ f. bytes_eq (word_of f) word.now) forms.now }
{
    for form in forms {
        if form.word().as_bytes() == word {
            return Some(*form);
        }
    }
    None
}

fn alu_word(op: AluOp, width: AluWidth) -> &'static str
    ensures { result.now ≡ alu_word op width }
{
    match width {
        AluWidth::W64 => wide_word(op),
        AluWidth::W32 => narrow_word(op),
    }
}

fn wide_word(op: AluOp) -> &'static str
    ensures { result.now ≡ wide_word op }
{
    match op {
        AluOp::Add => "add64",
        AluOp::Sub => "sub64",
        AluOp::Mul => "mul64",
        AluOp::Div => "div64",
        AluOp::Sdiv => "sdiv64",
        AluOp::Or => "or64",
        AluOp::And => "and64",
        AluOp::Lsh => "lsh64",
        AluOp::Rsh => "rsh64",
        AluOp::Neg => "neg64",
        AluOp::Mod => "mod64",
        AluOp::Smod => "smod64",
        AluOp::Xor => "xor64",
        AluOp::Mov => "mov64",
        AluOp::Movsx8 => "movsx8_64",
        AluOp::Movsx16 => "movsx16_64",
        AluOp::Movsx32 => "movsx32_64",
        AluOp::Arsh => "arsh64",
    }
}

fn narrow_word(op: AluOp) -> &'static str
    ensures { result.now ≡ narrow_word op }
{
    match op {
        AluOp::Add => "add32",
        AluOp::Sub => "sub32",
        AluOp::Mul => "mul32",
        AluOp::Div => "div32",
        AluOp::Sdiv => "sdiv32",
        AluOp::Or => "or32",
        AluOp::And => "and32",
        AluOp::Lsh => "lsh32",
        AluOp::Rsh => "rsh32",
        AluOp::Neg => "neg32",
        AluOp::Mod => "mod32",
        AluOp::Smod => "smod32",
        AluOp::Xor => "xor32",
        AluOp::Mov => "mov32",
        AluOp::Movsx8 => "movsx8_32",
        AluOp::Movsx16 => "movsx16_32",
        AluOp::Movsx32 => "movsx32_32",
        AluOp::Arsh => "arsh32",
    }
}

fn swap_word(kind: SwapKind, width: Width) -> &'static str
    ensures { result.now ≡ swap_word kind width }
{
    match (kind, width) {
        (SwapKind::Le, Width::W16) => "le16",
        (SwapKind::Le, Width::W32) => "le32",
        (SwapKind::Le, Width::W64) => "le64",
        (SwapKind::Be, Width::W16) => "be16",
        (SwapKind::Be, Width::W32) => "be32",
        (SwapKind::Be, Width::W64) => "be64",
        (SwapKind::Swap, Width::W16) => "swap16",
        (SwapKind::Swap, Width::W32) => "swap32",
        (SwapKind::Swap, Width::W64) => "swap64",
    }
}

fn load_word(size: Size, signed: bool) -> &'static str
    ensures { result.now ≡ load_word size signed }
{
    match (size, signed) {
        (Size::B, false) => "ldxb",
        (Size::H, false) => "ldxh",
        (Size::W, false) => "ldxw",
        (Size::Dw, false) => "ldxdw",
        (Size::B, true) => "ldsxb",
        (Size::H, true) => "ldsxh",
        (Size::W, true) => "ldsxw",
        (Size::Dw, true) => "",
    }
}

fn store_number_word(size: Size) -> &'static str
    ensures { result.now ≡ store_number_word size }
{
    match size {
        Size::B => "stb",
        Size::H => "sth",
        Size::W => "stw",
        Size::Dw => "stdw",
    }
}

fn store_word(size: Size) -> &'static str
    ensures { result.now ≡ store_word size }
{
    match size {
        Size::B => "stxb",
        Size::H => "stxh",
        Size::W => "stxw",
        Size::Dw => "stxdw",
    }
}

fn wide_test_word(test: Test) -> &'static str
    ensures { result.now ≡ test_word test false }
{
    match test {
        Test::Jeq => "jeq",
        Test::Jgt => "jgt",
        Test::Jge => "jge",
        Test::Jset => "jset",
        Test::Jne => "jne",
        Test::Jsgt => "jsgt",
        Test::Jsge => "jsge",
        Test::Jlt => "jlt",
        Test::Jle => "jle",
        Test::Jslt => "jslt",
        Test::Jsle => "jsle",
    }
}

fn narrow_test_word(test: Test) -> &'static str
    ensures { result.now ≡ test_word test true }
{
    match test {
        Test::Jeq => "jeq32",
        Test::Jgt => "jgt32",
        Test::Jge => "jge32",
        Test::Jset => "jset32",
        Test::Jne => "jne32",
        Test::Jsgt => "jsgt32",
        Test::Jsge => "jsge32",
        Test::Jlt => "jlt32",
        Test::Jle => "jle32",
        Test::Jslt => "jslt32",
        Test::Jsle => "jsle32",
    }
}
