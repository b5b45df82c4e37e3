//! How a replica leaves a view and enters another (Castro and Liskov 1999, section 4.4).

ghost use Rattle.std.specs.Prelude.{◌≡◌, ◌+◌, ◌<◌, ◌≤◌, length, Some, None, IsSome, IfOk, IfErr, OnOk, true};
ghost use Rattle.pbft_codec.specs.declared.body.Body.TheVariants as bodies;
ghost use Rattle.pbft_codec.specs.declared.signed.Role.TheVariants as roles;
ghost use Rattle.pbft_model.specs.Acts.{All, entered, left_for};
ghost use Rattle.pbft_model.specs.Core.{kept_on_leaving, prepared_at, with_certificate};
ghost use Rattle.std.specs.List.{AllByRecursion};
ghost use Rattle.pbft_model.specs.Duties.{change_to, due_enter, due_open, leads};
ghost use Rattle.pbft_model.specs.Rules.{new_view_of, view_change_of};
ghost use Rattle.pbft_model.specs.Validity.{is_valid_new_view};
ghost use Rattle.pbft_model.specs.Words.{NewView};
ghost use Rattle.seal.specs.Opening.{sealed_message};
ghost use Rattle.replica_stores.specs.Sealable.{HasShortLists, IsSealable};
ghost use Rattle.pbft_model.specs.Setup.{setup_of};
ghost use Rattle.replica_core.specs.declared.halt.Halt.TheVariants.{Memory};
ghost use Rattle.replica_core.specs.Doing.{Fulfilled, IsShortOf, Says};
ghost use Rattle.replica_core.specs.Opens.{AreGiven, IsProposal, IsToOpen, after_leaves, chosen_by, opening_message, signed_by_all, with_opening};
ghost use Rattle.replica_core.specs.Settling.{IsReached};
ghost use Rattle.replica_core.specs.OwnViewChange.{own_view_change};

use crate::halt::{Halt, or_out_of_memory};
use crate::kept::Core;
use crate::row::Dest;
use host_types::{SeqNo, View};
use pbft_codec::{Body, PrePrepare};
use replica_stores::{floor_of, make, make_new_view, new_view};
use seal::{Checked, CheckedList, nested_pre_prepares};

impl Core {
    // ---- leaving

    /// Changes to a higher view: a ViewChange to all.
    pub(crate) fn change_to(&mut self, view: View) -> Result<(), Halt>
        requires higher { self.old.core.view < view.0 }
        requires reached { IsReached (setup_of self.old.config) self.old.me self.old.core }
        ensures says { OnOk result (Says self.old All (bodies.ViewChange (view_change_of (setup_of self.old.config) self.old.core view.0)) self.new) }
        ensures short { IfErr result (IsShortOf self.old 1) }
    {
        let _ = self.log.low();
        self.need_leaves(1)?;
        self.leave_for(view)?;
        let body = self.view_change_body(view)?;
        let message = self.send(Dest::All, body)?;
        self.changes.keep(&message)?;
        Ok(())
    }

    /// The ViewChange for a view: the low mark with its proof, and every kept certificate, numbers
    /// ascending.
    fn view_change_body(&self, view: View) -> Result<Body, Halt>
        ensures made { IfOk result (λ body. body ≡ bodies.ViewChange (own_view_change self.now.core view)) }
        ensures sealable { HasShortLists (own_view_change self.now.core view) → IfOk result (IsSealable self.now.config) }
        ensures memory { IfErr result (λ halt. halt ≡ Memory) }
    {
        let low = self.low();
        let proof = or_out_of_memory(self.checkpoints.proof(low))?;
        let certificates = self.kept.list()?;
        or_out_of_memory(make(self.alloc, view, low, &proof, &certificates))
    }

    /// Leaves the view for a higher one, which is not entered yet. The certificates of the view that is
    /// left are kept.
    fn leave_for(&mut self, view: View) -> Result<(), Halt>
        requires higher { self.old.core.view < view.0 }
        ensures left { OnOk result (self.new ≡ record self.old { core = left_for (setup_of self.old.config) self.old.core view.0 }) }
        ensures memory { IfErr result (λ halt. halt ≡ Memory) }
    {
        self.keep_certificates()?;
        self.log.leave(view);
        self.basis = None;
        self.changes.drop_below(view);
        self.sent.clear_view();
        Ok(())
    }

    /// For each number that is prepared in this view the certificate is kept.
    fn keep_certificates(&mut self) -> Result<(), Halt>
        ensures kept { OnOk result (self.new ≡ record self.old { core = record self.old.core { kept = kept_on_leaving (setup_of self.old.config) self.old.core } }) }
        ensures memory { IfErr result (λ halt. halt ≡ Memory) }
    {
        let low = self.log.low();
        for index in (0..self.span()).rev() {
            self.keep_certificate(SeqNo(low.0 + 1 + index))?;
        }
        Ok(())
    }

    fn keep_certificate(&mut self, number: SeqNo) -> Result<(), Halt>
        ensures kept { OnOk result (self.new ≡ record self.old { core = record self.old.core { kept = with_certificate (setup_of self.old.config) self.old.core number.0 (prepared_at (setup_of self.old.config) self.old.core number.0) self.old.core.kept } }) }
        ensures memory { IfErr result (λ halt. halt ≡ Memory) }
    {
        if self.prepared_at(number).is_none() {
            return Ok(());
        }
        let certificate = or_out_of_memory(self.log.certificate(self.view(), number))?;
        if let Some(certificate) = certificate {
            self.kept.keep(number, certificate)?;
        }
        Ok(())
    }

    // ---- entering

    /// Enters the view of the NewView just taken.
    pub(crate) fn enter_taken(&mut self) -> Result<(), Halt>
        requires due { IsSome (due_enter (setup_of self.old.config) self.old.core) }
        ensures entered { OnOk result (Fulfilled self.old (due_enter (setup_of self.old.config) self.old.core) self.new) }
        ensures memory { IfErr result (λ halt. halt ≡ Memory) }
    {
        let _ = self.signer.leaves_left();
        let Some(message) = &self.step.taken else {
            unreachable!();
        };
        let message = message.copy()?;
        self.enter(&message)
    }

    /// Enters a view by its NewView: votes of lower views, and of this one at or below the floor, are
    /// dropped, and its PrePrepares up to the top are the NewView's that lie between the marks.
    fn enter(&mut self, message: &Checked) -> Result<(), Halt>
        requires config { message.now.config ≡ self.old.config }
        requires valid { (n : NewView) → message.now.message.body ≡ bodies.NewView n → is_valid_new_view (setup_of self.old.config) n ≡ true }
        requires view { (n : NewView) → message.now.message.body ≡ bodies.NewView n → self.old.core.view ≤ n.view.0 }
        ensures entered { (n : NewView) → message.now.message.body ≡ bodies.NewView n
            → OnOk result (self.new ≡ record self.old { core = entered (setup_of self.old.config) self.old.core n }) }
        ensures memory { IfErr result (λ halt. halt ≡ Memory) }
    {
        let Body::NewView(opened) = message.body() else {
            return Ok(());
        };
        if opened.view > self.view() {
            self.leave_for(opened.view)?;
        }
        let basis = message.copy()?;
        let pre_prepares = nested_pre_prepares(self.alloc, message)?;
        let floor = floor_of(opened.changes.as_slice());
        match self.log.enter(opened.view, floor, &pre_prepares) {
            Ok(()) => {}
            Err(_) => return Err(Halt::Memory),
        }
        self.basis = Some(basis);
        self.sent.clear_view();
        Ok(())
    }

    // ---- opening

    /// Opens the view as its primary: NewView to all.
    pub(crate) fn open_view(&mut self) -> Result<(), Halt>
        requires due { IsSome (due_open (setup_of self.old.config) self.old.me self.old.core) }
        requires reached { IsReached (setup_of self.old.config) self.old.me self.old.core }
        ensures opened { OnOk result (Says self.old All (bodies.NewView (new_view_of (setup_of self.old.config) self.old.me self.old.core)) self.new) }
        ensures short { IfErr result (IsShortOf self.old (1 + length (new_view_of (setup_of self.old.config) self.old.me self.old.core).pre_prepares)) }
    {
        let changes = self.chosen()?;
        let entries = self.given_by(&changes)?;
        self.need_leaves(1 + entries.len() as u32)?;
        let message = self.send_opening(&changes, &entries)?;
        self.enter(&message)?;
        self.note_proposals(&entries)
    }

    /// The ViewChanges of the own NewView: its own and the 2f of least signers among the others, signers
    /// ascending.
    fn chosen(&self) -> Result<CheckedList, Halt>
        ensures chosen { IfOk result (λ l. l ≡ chosen_by self.now) }
        ensures memory { IfErr result (λ halt. halt ≡ Memory) }
    {
        let changes = self.changes.chosen(self.view(), self.id)?;
        Ok(changes)
    }

    /// What the chosen ViewChanges give: a proposal for each number above the floor up to the top.
    fn given_by(&self, changes: &CheckedList) -> Result<Vec<PrePrepare>, Halt>
        requires chosen { changes.now ≡ chosen_by self.now }
        requires to_open { IsToOpen self.now }
        ensures given { IfOk result (λ list. AreGiven self.now list.items) }
        ensures memory { IfErr result (λ halt. halt ≡ Memory) }
    {
        let _ = changes.as_slice();
        let opening = or_out_of_memory(new_view(self.alloc, self.view(), changes))?;
        Ok(opening.entries)
    }

    /// The NewView of these ViewChanges and proposals, whose PrePrepares are signed before it, is given to
    /// all.
    fn send_opening(
        &mut self,
        changes: &CheckedList,
        entries: &[PrePrepare],
    ) -> Result<Checked, Halt>
        requires to_open { IsToOpen self.old }
        requires chosen { changes.now ≡ chosen_by self.old }
        requires given { AreGiven self.old entries.now }
        ensures signed { IfOk result (λ m. m ≡ record { config = self.old.config; message = opening_message self.old }) }
        ensures sent { OnOk result (self.new ≡ with_opening self.old (length entries.now)) }
        ensures short { IfErr result (IsShortOf self.old (1 + length entries.now)) }
    {
        let pre_prepares = self.signed_list(entries)?;
        let body = or_out_of_memory(make_new_view(
            self.alloc,
            self.view(),
            changes,
            &pre_prepares,
        ))?;
        self.send(Dest::All, body)
    }

    /// PrePrepares, each signed with the next leaf.
    fn signed_list(&mut self, entries: &[PrePrepare]) -> Result<CheckedList, Halt>
        requires leads { leads (setup_of self.old.config) self.old.me self.old.core ≡ true }
        requires proposals { AllByRecursion (IsProposal self.old.core.view) entries.now }
        ensures signed { IfOk result (λ l. l ≡ signed_by_all self.old entries.now) }
        ensures after { OnOk result (self.new ≡ after_leaves self.old (length entries.now)) }
        ensures short { IfErr result (IsShortOf self.old (length entries.now)) }
    {
        let mut signed = CheckedList::new(self.alloc, &self.config)?;
        for said in entries {
            signed.push(self.sign_proposal(*said)?)?;
        }
        Ok(signed)
    }

    /// A proposal of the replica's view, signed with the next leaf.
    fn sign_proposal(&mut self, said: PrePrepare) -> Result<Checked, Halt>
        requires leads { leads (setup_of self.old.config) self.old.me self.old.core ≡ true }
        requires proposal { IsProposal self.old.core.view said }
        ensures signed { IfOk result (λ m. m ≡ record { config = self.old.config; message = sealed_message self.old.core.signer roles.Replica self.old.me (bodies.PrePrepare said) }) }
        ensures after { OnOk result (self.new ≡ after_leaves self.old 1) }
        ensures short { IfErr result (IsShortOf self.old 1) }
    {
        self.sign(Body::PrePrepare(said))
    }
}
