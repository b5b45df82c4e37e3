//! Where registers and memory lie (RFC 9669, section 2.1; the addresses are this host's).

ghost use Rattle.std.specs.Prelude.{◌≡◌, ◌<◌};
ghost use Rattle.bpf_model.specs.Machine.{frame_end};

/// How many registers there are: r0 to r10.
pub const REGISTERS: usize = 11;

/// The number of the frame pointer, r10.
pub const FRAME_POINTER: u8 = 10;

/// The bytes of a frame.
pub const FRAME_SIZE: usize = 512;

/// How many frames there are.
pub const FRAMES: usize = 8;

/// The bytes of all frames.
pub const STACK_SIZE: usize = FRAMES * FRAME_SIZE;

/// The bytes of a word.
pub const WORD_SIZE: usize = 8;

/// How many words the stack has.
pub const STACK_WORDS: usize = STACK_SIZE / WORD_SIZE;

/// Where the first frame begins.
pub const FRAME_START: u64 = 0x1_0000_0000;

/// Where the first frame ends: what r10 holds as a call begins.
pub const FRAME_END: u64 = FRAME_START + FRAME_SIZE as u64;

/// Where the last frame ends.
pub const STACK_END: u64 = FRAME_START + STACK_SIZE as u64;

/// The bytes of the arguments.
pub const ARGUMENTS_SIZE: usize = 256;

/// Where the arguments begin: what r1 holds as a call begins.
pub const ARGUMENTS_START: u64 = 0x2_0000_0000;

/// Where the arguments end.
pub const ARGUMENTS_END: u64 = ARGUMENTS_START + ARGUMENTS_SIZE as u64;

/// Where the frame of a depth ends: what r10 holds in it.
#[inline(always)]
pub fn frame_end(depth: u32) -> u64
    requires { depth < 8 }
    ensures { result ≡ frame_end depth }
{
    FRAME_END + FRAME_SIZE as u64 * u64::from(depth)
}
