//! Bytes that are handed to a caller's buffer.

ghost use Rattle.std.specs.Prelude.{◌≡◌, ◌≤◌, ◌++◌, length, drop};
ghost use Rattle.handle_parts.specs.Told.{AreTold};

/// Writes bytes to the front of a buffer; those behind them stay.
pub fn put_front(buffer: &mut [u8], bytes: &[u8])
    requires { length bytes.now ≤ length buffer.old }
    ensures { buffer.new ≡ bytes.now ++ drop (length bytes.now) buffer.old }
{
    buffer[..bytes.len()].copy_from_slice(bytes);
}

/// What a call answers that did what it says.
pub const DONE: u32 = 0;

/// What a call answers whose buffer has fewer bytes than are to be written.
pub const BUFFER_TOO_SHORT: u32 = 35;

/// Writes bytes to the front of a buffer, and how many there are; where the buffer is too short, that number alone.
pub fn tell(bytes: &[u8], buffer: &mut [u8], told: &mut u64) -> u32
    ensures { AreTold bytes.now result told.new buffer.old buffer.new }
{
    *told = bytes.len() as u64;
    if bytes.len() > buffer.len() {
        return BUFFER_TOO_SHORT;
    }
    put_front(buffer, bytes);
    DONE
}
