//! The operations of registers of 64 bits.

ghost use Rattle.std.specs.Prelude.{◌≡◌, ◌<◌};
ghost use Rattle.bpf_num.specs.declared.AluOp.TheVariants.{Add, Sub, Mul, Div, Sdiv, Lsh, Rsh, Neg, Mod, Smod, Movsx8, Movsx16, Movsx32, Arsh};
ghost use Rattle.bpf_num.specs.declared.AluWidth.TheVariants.{W64};
ghost use Rattle.bpf_num.specs.Arithmetic.{result_of};

use crate::AluOp;

/// The result of an operation.
pub fn result(op: AluOp, dst: u64, src: u64) -> u64
    ensures { result ≡ result_of W64 op dst src }
{
    match op {
        AluOp::Add => dst.wrapping_add(src),
        AluOp::Sub => dst.wrapping_sub(src),
        AluOp::Mul => dst.wrapping_mul(src),
        AluOp::Div => divide(dst, src),
        AluOp::Sdiv => divide_signed(dst, src),
        AluOp::Or => dst | src,
        AluOp::And => dst & src,
        AluOp::Lsh => shift_left(dst, src),
        AluOp::Rsh => shift_right(dst, src),
        AluOp::Neg => negate(dst),
        AluOp::Mod => modulo(dst, src),
        AluOp::Smod => modulo_signed(dst, src),
        AluOp::Xor => dst ^ src,
        AluOp::Mov => src,
        AluOp::Movsx8 => extend_8(src),
        AluOp::Movsx16 => extend_16(src),
        AluOp::Movsx32 => extend_32(src),
        AluOp::Arsh => shift_signed(dst, src),
    }
}

fn divide(dst: u64, src: u64) -> u64
    ensures { result ≡ result_of W64 Div dst src }
{
    if src == 0 { 0 } else { dst / src }
}

fn divide_signed(dst: u64, src: u64) -> u64
    ensures { result ≡ result_of W64 Sdiv dst src }
{
    if src == 0 {
        0
    } else {
        dst.cast_signed()
            .wrapping_div(src.cast_signed())
            .cast_unsigned()
    }
}

fn modulo(dst: u64, src: u64) -> u64
    ensures { result ≡ result_of W64 Mod dst src }
{
    if src == 0 { dst } else { dst % src }
}

fn modulo_signed(dst: u64, src: u64) -> u64
    ensures { result ≡ result_of W64 Smod dst src }
{
    if src == 0 {
        dst
    } else {
        dst.cast_signed()
            .wrapping_rem(src.cast_signed())
            .cast_unsigned()
    }
}

fn shift_left(dst: u64, src: u64) -> u64
    ensures { result ≡ result_of W64 Lsh dst src }
{
    dst << (src % 64)
}

fn shift_right(dst: u64, src: u64) -> u64
    ensures { result ≡ result_of W64 Rsh dst src }
{
    dst >> (src % 64)
}

fn shift_signed(dst: u64, src: u64) -> u64
    ensures { result ≡ result_of W64 Arsh dst src }
{
    let count = (src % 64) as u32;
    dst.cast_signed().wrapping_shr(count).cast_unsigned()
}

fn negate(dst: u64) -> u64
    ensures { result ≡ result_of W64 Neg dst 0 }
{
    dst.wrapping_neg()
}

fn extend_8(src: u64) -> u64
    ensures { result ≡ result_of W64 Movsx8 0 src }
{
    let low = (src & 0xff) as u8;
    i64::from(low.cast_signed()).cast_unsigned()
}

fn extend_16(src: u64) -> u64
    ensures { result ≡ result_of W64 Movsx16 0 src }
{
    let low = (src & 0xffff) as u16;
    i64::from(low.cast_signed()).cast_unsigned()
}

fn extend_32(src: u64) -> u64
    ensures { result ≡ result_of W64 Movsx32 0 src }
{
    let low = (src & 0xffff_ffff) as u32;
    i64::from(low.cast_signed()).cast_unsigned()
}
