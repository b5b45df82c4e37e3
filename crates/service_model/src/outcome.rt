//! What the service answers to a request.

use host_types::{Reply, SeqNo};

/// What came of a request. `number` is the state's new number. There is no reply to the null request,
/// nor to a request whose time is below its client's last; `kept` says that the reply was there
/// before, and then it has its own number.
#[derive(Debug, Drop)]
pub struct Outcome {
    pub number: SeqNo,
    pub reply: Option<Reply>,
    pub kept: bool,
}
