//! The operations of registers of 32 bits.

ghost use Rattle.std.specs.Prelude.{◌≡◌, ◌<◌};
ghost use Rattle.bpf_num.specs.declared.AluOp.TheVariants.{Add, Sub, Mul, Div, Sdiv, Lsh, Rsh, Neg, Mod, Smod, Movsx8, Movsx16, Movsx32, Arsh};
ghost use Rattle.bpf_num.specs.declared.AluWidth.TheVariants.{W32};
ghost use Rattle.bpf_num.specs.Arithmetic.{result_of};

use crate::AluOp;

/// The result of an operation.
pub fn result(op: AluOp, dst: u32, src: u32) -> u32
    ensures { result ≡ result_of W32 op dst src }
{
    match op {
        AluOp::Add => dst.wrapping_add(src),
        AluOp::Sub => dst.wrapping_sub(src),
        AluOp::Mul => dst.wrapping_mul(src),
        AluOp::Div => divide(dst, src),
        AluOp::Sdiv => divide_signed(dst, src),
        AluOp::Or => dst | src,
        AluOp::And => dst & src,
        AluOp::Lsh => shift_left(dst, src),
        AluOp::Rsh => shift_right(dst, src),
        AluOp::Neg => negate(dst),
        AluOp::Mod => modulo(dst, src),
        AluOp::Smod => modulo_signed(dst, src),
        AluOp::Xor => dst ^ src,
        AluOp::Mov => src,
        AluOp::Movsx8 => extend_8(src),
        AluOp::Movsx16 => extend_16(src),
        AluOp::Movsx32 => extend_32(src),
        AluOp::Arsh => shift_signed(dst, src),
    }
}

fn divide(dst: u32, src: u32) -> u32
    ensures { result ≡ result_of W32 Div dst src }
{
    if src == 0 { 0 } else { dst / src }
}

fn divide_signed(dst: u32, src: u32) -> u32
    ensures { result ≡ result_of W32 Sdiv dst src }
{
    if src == 0 {
        0
    } else {
        dst.cast_signed()
            .wrapping_div(src.cast_signed())
            .cast_unsigned()
    }
}

fn modulo(dst: u32, src: u32) -> u32
    ensures { result ≡ result_of W32 Mod dst src }
{
    if src == 0 { dst } else { dst % src }
}

fn modulo_signed(dst: u32, src: u32) -> u32
    ensures { result ≡ result_of W32 Smod dst src }
{
    if src == 0 {
        dst
    } else {
        dst.cast_signed()
            .wrapping_rem(src.cast_signed())
            .cast_unsigned()
    }
}

fn shift_left(dst: u32, src: u32) -> u32
    ensures { result ≡ result_of W32 Lsh dst src }
{
    dst << (src % 32)
}

fn shift_right(dst: u32, src: u32) -> u32
    ensures { result ≡ result_of W32 Rsh dst src }
{
    dst >> (src % 32)
}

fn shift_signed(dst: u32, src: u32) -> u32
    ensures { result ≡ result_of W32 Arsh dst src }
{
    let count = (src % 32) as u32;
    dst.cast_signed().wrapping_shr(count).cast_unsigned()
}

fn negate(dst: u32) -> u32
    ensures { result ≡ result_of W32 Neg dst 0 }
{
    dst.wrapping_neg()
}

fn extend_8(src: u32) -> u32
    ensures { result ≡ result_of W32 Movsx8 0 src }
{
    let low = (src & 0xff) as u8;
    i32::from(low.cast_signed()).cast_unsigned()
}

fn extend_16(src: u32) -> u32
    ensures { result ≡ result_of W32 Movsx16 0 src }
{
    let low = (src & 0xffff) as u16;
    i32::from(low.cast_signed()).cast_unsigned()
}

fn extend_32(src: u32) -> u32
    ensures { result ≡ result_of W32 Movsx32 0 src }
{
    src
}
