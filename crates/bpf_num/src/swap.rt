//! Byte swap instructions.

ghost use Rattle.std.specs.Prelude.{◌≡◌, ◌<◌, ◌^◌};
ghost use Rattle.bpf_num.specs.ByteSwap.{byte_swap_of, reversed, swap_bits};

/// A byte swap instruction (RFC 9669, section 4.2).
#[derive(Clone, Copy, Debug, PartialEq, Eq)]
pub enum SwapKind {
    /// To little-endian: class ALU, source K.
    Le,
    /// To big-endian: class ALU, source X.
    Be,
    /// The bytes the other way round: class ALU64.
    Swap,
}

/// The width of a byte swap instruction, its immediate (RFC 9669, section 4.2).
#[derive(Clone, Copy, Debug, PartialEq, Eq)]
pub enum Width {
    W16,
    W32,
    W64,
}

/// The register after a byte swap; the upper bits are zero.
pub fn byte_swap(kind: SwapKind, width: Width, v: u64) -> u64
    ensures { result ≡ byte_swap_of kind width v }
{
    let low = match width {
        Width::W16 => v & 0xffff,
        Width::W32 => v & 0xffff_ffff,
        Width::W64 => v,
    };
    match kind {
        SwapKind::Le => low,
        SwapKind::Be | SwapKind::Swap => reversed(width, low),
    }
}

/// The bytes of a number of a width the other way round.
fn reversed(width: Width, v: u64) -> u64
    requires { v < 2 ^ swap_bits width }
    ensures { result ≡ reversed width v }
{
    match width {
        Width::W16 => u64::from(u16::from_be_bytes((v as u16).to_le_bytes())),
        Width::W32 => u64::from(u32::from_be_bytes((v as u32).to_le_bytes())),
        Width::W64 => u64::from_be_bytes(v.to_le_bytes()),
    }
}
