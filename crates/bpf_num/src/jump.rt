//! The tests of conditional jumps.

ghost use Rattle.std.specs.Prelude.{◌≡◌};
ghost use Rattle.bpf_num.specs.declared.AluWidth.TheVariants.{W32, W64};
ghost use Rattle.bpf_num.specs.Jump.{jump_test_of, test_of};

/// The test of a conditional jump, of a destination and a source (RFC 9669, section 4.3).
#[derive(Clone, Copy, Debug, PartialEq, Eq)]
pub enum Test {
    /// Equal.
    Jeq,
    /// Greater, unsigned.
    Jgt,
    /// Greater or equal, unsigned.
    Jge,
    /// A bit is set in both.
    Jset,
    /// Not equal.
    Jne,
    /// Greater, signed.
    Jsgt,
    /// Greater or equal, signed.
    Jsge,
    /// Less, unsigned.
    Jlt,
    /// Less or equal, unsigned.
    Jle,
    /// Less, signed.
    Jslt,
    /// Less or equal, signed.
    Jsle,
}

/// Whether the test holds: of whole registers, or in class JMP32 (`narrow`) of their low halves.
pub fn jump_test(test: Test, narrow: bool, a: u64, b: u64) -> bool
    ensures { result ≡ jump_test_of test narrow a b }
{
    if narrow {
        test32(test, (a & 0xffff_ffff) as u32, (b & 0xffff_ffff) as u32)
    } else {
        test64(test, a, b)
    }
}

fn test64(test: Test, a: u64, b: u64) -> bool
    ensures { result ≡ test_of W64 test a b }
{
    match test {
        Test::Jeq => a == b,
        Test::Jgt => a > b,
        Test::Jge => a >= b,
        Test::Jset => a & b != 0,
        Test::Jne => a != b,
        Test::Jsgt => a.cast_signed() > b.cast_signed(),
        Test::Jsge => a.cast_signed() >= b.cast_signed(),
        Test::Jlt => a < b,
        Test::Jle => a <= b,
        Test::Jslt => a.cast_signed() < b.cast_signed(),
        Test::Jsle => a.cast_signed() <= b.cast_signed(),
    }
}

fn test32(test: Test, a: u32, b: u32) -> bool
    ensures { result ≡ test_of W32 test a b }
{
    match test {
        Test::Jeq => a == b,
        Test::Jgt => a > b,
        Test::Jge => a >= b,
        Test::Jset => a & b != 0,
        Test::Jne => a != b,
        Test::Jsgt => a.cast_signed() > b.cast_signed(),
        Test::Jsge => a.cast_signed() >= b.cast_signed(),
        Test::Jlt => a < b,
        Test::Jle => a <= b,
        Test::Jslt => a.cast_signed() < b.cast_signed(),
        Test::Jsle => a.cast_signed() <= b.cast_signed(),
    }
}
