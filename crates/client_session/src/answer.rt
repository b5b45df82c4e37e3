//! What a replica answers to a request.

ghost use Rattle.std.specs.Prelude.{◌≡◌};
ghost use Rattle.client_session.specs.Sessions.{has_said, is_vouched};

use host_types::{Bytes, SeqNo};
use pbft_codec::ReplyBody;

/// What a replica answers to a request: the number at which it was executed, and the result.
#[derive(Drop)]
pub(crate) struct Answer {
    /// The replica that signed it.
    pub replica: u32,
    pub number: SeqNo,
    pub result: Bytes,
}

impl Answer {
    ghost use Rattle.std.specs.Prelude.{◌≡◌};
    ghost use Rattle.client_session.specs.Sessions.{says};

    /// Whether the answer has the number and the result of a reply.
    fn says(&self, reply: &ReplyBody) -> bool
        ensures { result ≡ says reply.now.number.0 reply.now.result self.now }
    {
        self.number == reply.number && self.result.as_slice() == reply.result.as_slice()
    }
}

/// Whether the replica has answered as in a reply.
pub(crate) fn has_said(answers: &[Answer], reply: &ReplyBody, replica: u32) -> bool
    ensures { result ≡ has_said answers.now reply.now.number.0 reply.now.result replica }
{
    answers
        .iter()
        .any(|answer| answer.replica == replica && answer.says(reply))
}

/// Whether f + 1 different replicas have answered as in a reply.
pub(crate) fn is_vouched(f: u8, answers: &[Answer], reply: &ReplyBody) -> bool
    ensures { result ≡ is_vouched f answers.now reply.now.number.0 reply.now.result }
{
    let mut count: u32 = 0;
    for replica in 0..3 * u32::from(f) + 1 {
        if has_said(answers, reply, replica) {
            count += 1;
        }
    }
    count > u32::from(f)
}
