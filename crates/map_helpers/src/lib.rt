//! The helpers that procedures may call (RFC 9669, section 4.3.1): `Helper::of(1)` is `Helper::Get`, which
//! reads a key at r1 and writes its value at r2. One table says what each takes, reads and writes, and
//! `effect` what each does to a tenant's map and to the output.
#![tactic(auto)]

mod effects;
mod helper;

pub use effects::{Answer, MAX_OUTPUT, Written, effect};
pub use helper::{Access, Extent, Helper};
