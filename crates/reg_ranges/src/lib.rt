//! Ranges of register values, both ends included: what operations and tests make of them, exactly as the
//! definitions have it, and soundly: `transfer64(AluOp::Add, [1, 2], [10, 20])` is `[11, 22]`.
#![tactic(auto)]

mod hull;
mod range;
mod swap;
mod test;
mod transfer;

pub use hull::join;
pub use range::Range;
pub use swap::swap_range;
pub use test::{refine, refine_edges};
pub use transfer::{transfer32, transfer64};
