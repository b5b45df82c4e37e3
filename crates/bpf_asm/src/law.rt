//! Laws of texts, each on a function with an empty body.

ghost use Rattle.std.specs.Prelude.{◌≡◌, List, Ok};
ghost use Rattle.std.specs.List.{AllByRecursion};
ghost use Rattle.bpf_decode.specs.declared.insn.Insn.{Insn};
ghost use Rattle.bpf_decode.specs.Encoding.{IsInsn};
ghost use Rattle.bpf_asm.specs.Assembly.{assembly};
ghost use Rattle.bpf_asm.specs.Printing.{printed};

/// The text of instructions that fit their fields is assembled to these instructions.
#[tactic(auto, using(crate::proofs::Whole::there_and_back))]
pub fn printed_code_assembles_to_itself()
    ensures { (code : List Insn) → AllByRecursion IsInsn code → assembly (printed code) ≡ Ok code }
{}
