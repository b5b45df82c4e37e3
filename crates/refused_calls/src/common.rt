//! What drivers share.

pub(crate) mod gate;
pub(crate) mod members;
pub(crate) mod rows;
pub(crate) mod signing;
pub(crate) mod told;
