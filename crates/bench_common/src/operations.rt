//! What clients ask for: installations, and calls, among them those of procedure 0 that put.

ghost use Rattle.std.specs.Prelude.{◌≡◌, ◌∷◌, [], IfOk};

use std::alloc::{AllocError, Global};

/// Code that puts the 32 argument bytes after the first 16 at the key that these are.
pub const PUT: [u8; 32] = [
    0xbf, 0x12, 0, 0, 0, 0, 0, 0, 0x07, 0x02, 0, 0, 0x10, 0, 0, 0, 0x85, 0, 0, 0, 2, 0, 0, 0, 0x95,
    0, 0, 0, 0, 0, 0, 0,
];

/// A slot that moves 7 into r0.
pub const MOVE: [u8; 8] = [0xb7, 0, 0, 0, 7, 0, 0, 0];

/// A slot that ends a function.
pub const EXIT: [u8; 8] = [0x95, 0, 0, 0, 0, 0, 0, 0];

/// How often the large procedure calls its function, and the moves of that.
const CALLS: u16 = 120;

const MOVES: u16 = 499;

/// Code of 60,121 steps: it calls its second function, which moves, again and again.
pub fn large_code(alloc: Global) -> Result<Vec<u8>, AllocError> {
    let mut code = Vec::new(alloc);
    for index in 0..CALLS {
        let [a, b] = (CALLS - index).to_le_bytes();
        code.extend_from_slice(&[0x85, 0x10, 0, 0, a, b, 0, 0])?;
    }
    code.extend_from_slice(&EXIT)?;
    for _ in 0..MOVES {
        code.extend_from_slice(&MOVE)?;
    }
    code.extend_from_slice(&EXIT)?;
    Ok(code)
}

/// The operation that installs this code.
pub fn installation(alloc: Global, code: &[u8]) -> Result<Vec<u8>, AllocError> {
    long_installation(alloc, code, 0)
}

/// The operation that installs this code behind moves, with so many slots in all.
pub fn long_installation(alloc: Global, code: &[u8], slots: usize) -> Result<Vec<u8>, AllocError> {
    let mut op = [1].to_vec(alloc)?;
    for _ in 0..slots.saturating_sub(code.len() / MOVE.len()) {
        op.extend_from_slice(&MOVE)?;
    }
    op.extend_from_slice(code)?;
    Ok(op)
}

/// The key with this number in its first four bytes.
pub fn key(number: u32) -> [u8; 16] {
    let [a, b, c, d] = number.to_be_bytes();
    [a, b, c, d, 0, 0, 0, 0, 0, 0, 0, 0, 0, 0, 0, 0]
}

/// The operation that calls procedure 0 with a key and a value.
pub fn put(alloc: Global, number: u32) -> Result<Vec<u8>, AllocError> {
    let mut op = call(alloc, 0)?;
    op.extend_from_slice(&key(number))?;
    op.extend_from_slice(&[0x5a; 32])?;
    Ok(op)
}

/// The operation that calls a procedure with no argument bytes.
pub fn call(alloc: Global, procedure: u8) -> Result<Vec<u8>, AllocError>
    ensures { IfOk result (λ op. op.items ≡ 2 ∷ 0 ∷ 0 ∷ 0 ∷ procedure ∷ []) }
{
    [2, 0, 0, 0, procedure].to_vec(alloc)
}
