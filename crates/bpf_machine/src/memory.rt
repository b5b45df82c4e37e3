//! The bytes that a procedure can reach, lent by its caller: so many as it needs.

ghost use Rattle.std.specs.Prelude.{◌≡◌};
ghost use Rattle.bpf_decode.specs.declared.insn.Size.TheVariants.{B, H, W};
ghost use Rattle.bpf_machine.specs.Represents.{HasIndex, index_of, extended};

use bpf_decode::Size;
use bpf_model::layout::{ARGUMENTS_SIZE, ARGUMENTS_START, FRAME_START};

/// The bytes that code can reach: those of the arguments, and behind them the stack's, at least the first
/// frame's. A byte of the stack that isn't initialized has some value that is never read.
#[derive(Drop)]
pub struct Memory<'a> {
    bytes: &'a mut [u8],
}

impl<'a> Memory<'a> {
    ghost use Rattle.std.specs.Prelude.{◌≡◌, ◌⊎◌, ℕ, List, ◌<◌, ◌≤◌, Some, length, take, drop, replicate};
    ghost use Rattle.tenant_maps.specs.Entries.{Entries};
    ghost use Rattle.bpf_model.specs.Machine.{Memory as Bytes, bytes_at, start, stored};
    ghost use Rattle.bpf_model.specs.Access.{bytes_of, loaded, stored_bytes};
    ghost use Rattle.bpf_machine.specs.Represents.{InBounds, RepresentsMemory, call_of, index_of};

    /// As a call begins: the arguments, with zeros behind them, over bytes that are all 0.
    pub fn at_start(bytes: &'a mut [u8], args: &[u8]) -> Memory<'a>
        requires short { length args.now ≤ 256 }
        requires zeros { bytes.now ≡ replicate (length bytes.now) 0 }
        requires room { 256 ≤ length bytes.now }
        ensures shows { (client : ℕ) (entries : Entries) →
            let m = start (call_of args.now client entries) in RepresentsMemory result.bytes.now m.memory }
        ensures long { length result.bytes.now ≡ length bytes.entry.now }
    {
        bytes[..args.len()].copy_from_slice(args);
        Memory { bytes }
    }

    /// The number that the bytes at an address are, zero-extended or sign-extended (RFC 9669, 5.1 and 5.2).
    pub fn load(&self, size: Size, signed: bool, address: u64) -> u64
        requires { InBounds (length self.now.bytes.now) address (bytes_of size) }
        ensures { (memory : Bytes) (bytes : List ℕ) → RepresentsMemory self.now.bytes.now memory →
            bytes_at memory address (bytes_of size) ≡ Some bytes → result ≡ loaded size signed bytes }
    {
        match size {
            Size::B => extend_8(u8::from_le_bytes(self.bytes_at::<1>(address)), signed),
            Size::H => extend_16(u16::from_le_bytes(self.bytes_at::<2>(address)), signed),
            Size::W => extend_32(u32::from_le_bytes(self.bytes_at::<4>(address)), signed),
            Size::Dw => u64::from_le_bytes(self.bytes_at::<8>(address)),
        }
    }

    /// Stores the low bytes of a number (RFC 9669, 5.1).
    pub fn store(&mut self, size: Size, address: u64, value: u64)
        requires { InBounds (length self.old.bytes.now) address (bytes_of size) }
        ensures shows { (memory : Bytes) → RepresentsMemory self.old.bytes.now memory →
            RepresentsMemory self.new.bytes.now (stored memory address (stored_bytes size value)) }
        ensures long { length self.new.bytes.now ≡ length self.old.bytes.now }
    {
        match size {
            Size::B => self.put_bytes(address, ((value & 0xff) as u8).to_le_bytes()),
            Size::H => self.put_bytes(address, ((value & 0xffff) as u16).to_le_bytes()),
            Size::W => self.put_bytes(address, ((value & 0xffff_ffff) as u32).to_le_bytes()),
            Size::Dw => self.put_bytes(address, value.to_le_bytes()),
        }
    }

    /// So many bytes from an address on.
    pub fn bytes_at<const N: usize>(&self, address: u64) -> [u8; N]
        requires some { 0 < N }
        requires inside { InBounds (length self.now.bytes.now) address N }
        ensures { (memory : Bytes) (bytes : List ℕ) → RepresentsMemory self.now.bytes.now memory →
            bytes_at memory address N ≡ Some bytes → result ≡ bytes }
    {
        let at = index_of(address);
        let mut bytes = [0; N];
        bytes.copy_from_slice(&self.bytes[at..at + N]);
        bytes
    }

    /// So many bytes from an address on; none where that is 0.
    pub fn slice(&self, address: u64, size: u64) -> &[u8]
        requires { (size ≡ 0) ⊎ InBounds (length self.now.bytes.now) address size }
        ensures { result.now ≡ take size (drop (index_of address) self.now.bytes.now) }
    {
        if size == 0 {
            return &[];
        }
        let at = index_of(address);
        &self.bytes[at..at + size as usize]
    }

    /// Writes bytes, at least one, from an address on.
    pub fn put_slice(&mut self, address: u64, bytes: &[u8])
        requires some { 0 < length bytes.now }
        requires inside { InBounds (length self.old.bytes.now) address (length bytes.now) }
        ensures shows { (memory : Bytes) → RepresentsMemory self.old.bytes.now memory →
            RepresentsMemory self.new.bytes.now (stored memory address bytes.now) }
        ensures long { length self.new.bytes.now ≡ length self.old.bytes.now }
    {
        let at = index_of(address);
        self.bytes[at..at + bytes.len()].copy_from_slice(bytes);
    }

    /// Writes bytes from an address on.
    pub fn put_bytes<const N: usize>(&mut self, address: u64, bytes: [u8; N])
        requires some { 0 < N }
        requires inside { InBounds (length self.old.bytes.now) address N }
        ensures shows { (memory : Bytes) → RepresentsMemory self.old.bytes.now memory →
            RepresentsMemory self.new.bytes.now (stored memory address bytes.entry) }
        ensures long { length self.new.bytes.now ≡ length self.old.bytes.now }
    {
        let at = index_of(address);
        self.bytes[at..at + N].copy_from_slice(&bytes);
    }
}

/// The index of the byte at an address.
fn index_of(address: u64) -> usize
    requires { HasIndex address }
    ensures { result ≡ index_of address }
{
    // Both begin at a multiple of 2^32, the frames at an odd one.
    let is_frame = (address >> 32 & 1) as usize;
    (address & 0xffff_ffff) as usize + ARGUMENTS_SIZE * is_frame
}

fn extend_8(value: u8, signed: bool) -> u64
    ensures { result ≡ extended B signed value }
{
    if signed {
        i64::from(value.cast_signed()).cast_unsigned()
    } else {
        u64::from(value)
    }
}

fn extend_16(value: u16, signed: bool) -> u64
    ensures { result ≡ extended H signed value }
{
    if signed {
        i64::from(value.cast_signed()).cast_unsigned()
    } else {
        u64::from(value)
    }
}

fn extend_32(value: u32, signed: bool) -> u64
    ensures { result ≡ extended W signed value }
{
    if signed {
        i64::from(value.cast_signed()).cast_unsigned()
    } else {
        u64::from(value)
    }
}
