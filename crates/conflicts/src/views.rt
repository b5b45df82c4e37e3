//! What a replica signs as it changes views.

ghost use Rattle.std.specs.Prelude.{◌≡◌, ◌||◌, IfOk};
ghost use Rattle.pbft_codec.specs.declared.body.commit.Commit.{Commit};
ghost use Rattle.pbft_codec.specs.declared.body.view_change.ViewChange.{ViewChange};
ghost use Rattle.conflicts.specs.Views.{IsKept, hides, reaches, reported_in, shows_place, view_claim_of};

use crate::claim::{Claim, Topic};
use host_types::{SeqNo, View};
use pbft_codec::{Body, ViewChange};
use seal::{Checked, request_digest};
use std::alloc::{AllocError, Global};

/// What a ViewChange or a NewView claims: of its view the digest of what was signed, which it is. Another message claims nothing
/// of the kind. It takes no memory.
pub fn view_claim_of(message: &Checked) -> Option<Claim>
    ensures { result ≡ view_claim_of message.now.message }
{
    let topic = match message.body() {
        Body::ViewChange(said) => Topic::ViewChange { view: said.view },
        Body::NewView(said) => Topic::NewView { view: said.view },
        _ => return None,
    };
    Some(Claim {
        signer: message.signer().1,
        topic,
        digest: request_digest(message),
    })
}

/// A number and the view of its certificate.
#[derive(Clone, Copy, Debug, PartialEq, Eq)]
pub struct Reported {
    pub number: SeqNo,
    pub view: View,
}

/// What is kept of a ViewChange to see which Commits it hides.
#[derive(Drop)]
pub struct Leaving {
    view: View,
    low: SeqNo,
    reported: Vec<Reported>,
}

impl Leaving {
    /// What is kept of a ViewChange. It is refused only where memory ran out.
    pub fn new(alloc: Global, change: &ViewChange) -> Result<Leaving, AllocError>
        ensures { IfOk result (λ leaving. IsKept leaving change.now) }
    {
        let mut reported = Vec::new(alloc);
        for certificate in change.certificates.as_slice() {
            let said = &certificate.pre_prepare.body;
            reported.push(Reported {
                number: said.number,
                view: said.view,
            })?;
        }
        Ok(Leaving {
            view: change.view,
            low: change.low,
            reported,
        })
    }

    /// Whether the ViewChange hides a Commit of its signer's for a number of a view: the view is lower and the number above the
    /// low mark, and it has no certificate for the number, of that view or a later one.
    pub fn hides(&self, view: View, number: SeqNo) -> bool
        ensures { (v : ViewChange) (b : Commit) → IsKept self.now v → b.view ≡ view → b.number ≡ number → result ≡ hides v b }
    {
        view.0 < self.view.0 && self.low.0 < number.0 && !self.shows(view, number)
    }

    /// The view for which it is.
    pub fn view(&self) -> View
        ensures { result ≡ self.now.view }
    {
        self.view
    }

    /// Its low mark.
    pub fn low(&self) -> SeqNo
        ensures { result ≡ self.now.low }
    {
        self.low
    }

    /// The highest view of its certificates for a number, if it has one: it shows what the views up to this one say of the number.
    pub fn shown(&self, number: SeqNo) -> Option<View>
        ensures { (view : View) → reported_in self.now view number ≡ reaches view result }
    {
        let mut highest = None;
        for reported in self.reported.iter() {
            highest = raised(highest, number, reported);
        }
        highest
    }

    /// Whether a certificate is for a number, of this view or a later one.
    pub fn shows(&self, view: View, number: SeqNo) -> bool
        ensures { result ≡ reported_in self.now view number }
    {
        self.reported
            .iter()
            .any(|reported| shows(reported, view, number))
    }
}

/// The highest view for a number, once one more certificate is looked at.
fn raised(highest: Option<View>, number: SeqNo, reported: &Reported) -> Option<View>
    ensures { (view : View) → reaches view result ≡ (reaches view highest || shows_place view number reported.now) }
{
    match highest {
        _ if reported.number != number => highest,
        Some(view) if reported.view.0 <= view.0 => highest,
        _ => Some(reported.view),
    }
}

fn shows(reported: &Reported, view: View, number: SeqNo) -> bool
    ensures { result ≡ shows_place view number reported.now }
{
    reported.number.0 == number.0 && view.0 <= reported.view.0
}
