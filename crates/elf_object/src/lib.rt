//! The code of an ELF object for BPF, as a compiler writes one: the bytes of its section `.text`.
//!
//!     let code = text_of(&file)?;
#![tactic(auto)]

mod fault;
mod fields;
mod header;
mod object;
mod section;

pub use fault::ObjectFault;
pub use header::is_elf;
pub use object::text_of;
