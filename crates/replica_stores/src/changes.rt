//! The ViewChange messages that a replica keeps.

ghost use Rattle.std.specs.Prelude.{◌≡◌, ◌==◌, ◌||◌, [], ℕ, cond, filter, fold, is_some, map, nat_le, nat_lt, not, true, None, Some, IfOk, OnOk, OnErr};
ghost use Rattle.std.specs.BTreeMap as tree;
ghost use Rattle.std.specs.FinSet as set;
ghost use Rattle.std.specs.List.{list_any};
ghost use Rattle.std.specs.Option.{option_copied, option_map};
ghost use Rattle.host_types.specs.Configuration.{Configuration};
ghost use Rattle.pbft_codec.specs.declared.body.Body.TheVariants as bodies;
ghost use Rattle.pbft_model.specs.Acts.{with_body};
ghost use Rattle.pbft_model.specs.Certificates.{has_quorum};
ghost use Rattle.pbft_model.specs.Core.{Core};
ghost use Rattle.pbft_model.specs.Duties.{change_to, due_join};
ghost use Rattle.pbft_model.specs.Rules.{chosen_changes, wants_view};
ghost use Rattle.pbft_model.specs.Tables.{add_if, at, change_key, first_in, keep};
ghost use Rattle.pbft_model.specs.Words.{ViewChange};
ghost use Rattle.seal.specs.Lists.{with_message};
ghost use Rattle.seal.specs.Parts.{as_message};
ghost use Rattle.pbft_model.specs.Setup.{setup_of};
ghost use Rattle.view_change.specs.Messages.{IsViewChange};
ghost use Rattle.replica_stores.specs.Changes.{AreChanges, IsChange, as_change, changes_in, is_ahead, is_wanted, key_of, least_with};

use host_types::{Config, ReplicaId, ReplicaSet, View};
use pbft_codec::Body;
use seal::{Checked, CheckedList};
use std::alloc::{AllocError, Global};
use std::collections::BTreeMap;
use std::marker::Model;
use std::sync::Arc;

/// ViewChange messages by view and signer, of which the first counts. Contracts see them as the protocol's
/// core keeps them.
#[derive(Drop)]
pub struct Changes {
    alloc: Global,
    config: Arc<Config>,
    changes: BTreeMap<(u32, u8), Checked>,
}

impl Model for Changes {
    ghost use Rattle.replica_stores.specs.Changes.{AreChanges, changes_in};
    ghost use Rattle.replica_stores.specs.Stores.{KeptChanges};

    ghost Value = { KeptChanges };

    ghost view = { λ t. record { config = t.config.value; changes = changes_in t.changes } };

    ghost invariant = { λ t. AreChanges t.config.value t.changes.entries };
}

impl Changes {
    /// No message. It is refused only where the count of the configuration's handles is full.
    pub fn new(alloc: Global, config: &Arc<Config>) -> Result<Changes, AllocError>
        ensures { IfOk result (λ t. t ≡ record { config = config.now.value; changes = [] }) }
    {
        Ok(Changes {
            alloc,
            config: Arc::try_clone(config)?,
            changes: BTreeMap::new(alloc),
        })
    }

    /// Keeps a ViewChange, unless one of its view and signer is kept. The caller owes a ViewChange under the
    /// same configuration. Where memory runs out, nothing changes.
    pub fn keep(&mut self, message: &Checked) -> Result<(), AllocError>
        requires config { message.now.config ≡ self.old.config }
        requires kind { IsViewChange message.now.message.body }
        ensures kept { (b : ViewChange) → message.now.message.body ≡ bodies.ViewChange b → OnOk result (self.new ≡ record self.old { changes = add_if true (change_key b.view.0 message.now.message.id) (with_body message.now.message b) self.old.changes }) }
        ensures unchanged { OnErr result (self.new ≡ self.old) }
    {
        let _ = self.config.f();
        let Body::ViewChange(change) = message.body() else {
            unreachable!();
        };
        let signer = message.signer().1 as u8;
        put(&mut self.changes, (change.view.0, signer), message)
    }

    /// A replica's ViewChange for a view, if it is kept.
    pub fn of(&self, view: View, id: u8) -> Option<&Checked>
        ensures found { option_copied result ≡ option_map (λ m. record { config = self.now.config; message = as_message bodies.ViewChange m }) (at self.now.changes (change_key view.0 id)) }
        ensures wanted { is_some result ≡ is_wanted self.now.changes view.0 id }
    {
        self.changes.get(&(view.0, id))
    }

    /// Drops the ViewChanges for lower views. It takes no memory.
    pub fn drop_below(&mut self, view: View)
        ensures { self.new ≡ record self.old { changes = keep (λ key. nat_le view.0 (first_in key)) self.old.changes } }
    {
        drop_lower(&mut self.changes, view);
    }

    /// Whether a replica's ViewChange for a view is kept. It takes no memory.
    pub fn wants(&self, view: View, id: u8) -> bool
        ensures value { result ≡ is_wanted self.now.changes view.0 id }
        ensures core { (s : Core) → s.changes ≡ self.now.changes → s.view ≡ view.0 → result ≡ wants_view s id }
    {
        self.changes.contains_key(&(view.0, id))
    }

    /// Whether ViewChanges of a quorum for a view are kept. It takes no memory.
    pub fn has_quorum(&self, view: View) -> bool
        ensures { (s : Core) → s.changes ≡ self.now.changes → s.view ≡ view.0 → result ≡ has_quorum self.now.config (wants_view s) }
    {
        let mut count = 0;
        for id in 0..self.config.replica_count() {
            if self.wants(view, id) {
                count += 1;
            }
        }
        count > 2 * self.config.f()
    }

    /// The ViewChanges of an own NewView for a view: the own one, and the 2f of least signers among the
    /// others, signers ascending. Handles alone are copied.
    pub fn chosen(&self, view: View, me: ReplicaId) -> Result<CheckedList, AllocError>
        ensures { IfOk result (λ l. (s : Core) → s.changes ≡ self.now.changes → s.view ≡ view.0
            → l ≡ record { config = self.now.config; messages = map (as_message bodies.ViewChange) (chosen_changes (setup_of self.now.config) me.0 s) }) }
    {
        let mut list = CheckedList::new(self.alloc, &self.config)?;
        let most = 2 * self.config.f();
        let mut others = 0;
        for id in 0..self.config.replica_count() {
            if let Some(message) = self.of(view, id) {
                let is_other = id != me.0;
                push_if(&mut list, message, is_chosen(is_other, others, most))?;
                if is_other {
                    others += 1;
                }
            }
        }
        Ok(list)
    }

    /// The view to change to: the smallest of the views above this one, if more than f others have sent
    /// ViewChanges for such views. It takes no memory.
    pub fn to_join(&self, view: View, me: ReplicaId) -> Option<View>
        ensures { (s : Core) → s.changes ≡ self.now.changes → s.view ≡ view.0
            → due_join (setup_of self.now.config) me.0 s ≡ option_map (λ w. change_to (setup_of self.now.config) me.0 s w.0) result }
    {
        let signers = signers_ahead(&self.changes, view, me);
        let mut count = 0;
        for id in 0..self.config.replica_count() {
            if signers.contains(ReplicaId(id)) {
                count += 1;
            }
        }
        if count > self.config.f() {
            least_ahead(&self.changes, view, me)
        } else {
            None
        }
    }
}

// The replicas other than this one that have sent ViewChanges for higher views.
fn signers_ahead(changes: &BTreeMap<(u32, u8), Checked>, view: View, me: ReplicaId) -> ReplicaSet
    ensures { (i : ℕ) → set.contains result i ≡ list_any (λ key. key.1 == i) (filter (is_ahead view.0 me.0) (tree.keys changes.now)) }
{
    let mut signers = ReplicaSet::new();
    for key in changes.keys() {
        if is_ahead(key, view, me) {
            signers.insert(ReplicaId(key.1));
        }
    }
    signers
}

// The smallest view of those.
fn least_ahead(changes: &BTreeMap<(u32, u8), Checked>, view: View, me: ReplicaId) -> Option<View>
    ensures { option_map (λ w. w.0) result ≡ fold (λ least key. least_with least key.0) None (filter (is_ahead view.0 me.0) (tree.keys changes.now)) }
{
    let mut least = None;
    for key in changes.keys() {
        if is_ahead(key, view, me) {
            least = Some(least_with(least, key.0));
        }
    }
    least
}

// The smaller of the least view so far and this one.
fn least_with(least: Option<View>, view: u32) -> View
    ensures { Some result.0 ≡ least_with (option_map (λ w. w.0) least) view }
{
    match least {
        Some(other) => View(other.0.min(view)),
        None => View(view),
    }
}

// Whether it is the key of another replica's ViewChange for a higher view.
fn is_ahead(key: &(u32, u8), view: View, me: ReplicaId) -> bool
    ensures { result ≡ is_ahead view.0 me.0 key.now }
{
    key.0 > view.0 && key.1 != me.0
}

// The own ViewChange is chosen, and another's while there are fewer others than so many.
fn is_chosen(is_other: bool, others: u8, most: u8) -> bool
    ensures { result ≡ (not is_other || nat_lt others most) }
{
    !is_other || others < most
}

fn push_if(list: &mut CheckedList, message: &Checked, is_chosen: bool) -> Result<(), AllocError>
    requires { message.now.config ≡ list.old.config }
    ensures { OnOk result (list.new ≡ cond is_chosen (with_message list.old message.now.message) list.old) }
{
    if is_chosen {
        list.push(message.copy()?)?;
    }
    Ok(())
}

// Puts a message at its key, unless there is one.
fn put(
    changes: &mut BTreeMap<(u32, u8), Checked>,
    key: (u32, u8),
    message: &Checked,
) -> Result<(), AllocError>
    ensures kept { OnOk result (changes_in changes.new ≡ add_if true (key_of key) (as_change message.now) (changes_in changes.old)) }
    ensures sound { OnOk result ((c : Configuration) → IsChange c (key, message.now) → AreChanges c changes.old.entries → AreChanges c changes.new.entries) }
    ensures unchanged { OnErr result (changes.new.entries ≡ changes.old.entries) }
{
    if !changes.contains_key(&key) {
        changes.insert(key, message.copy()?)?;
    }
    Ok(())
}

fn drop_lower(changes: &mut BTreeMap<(u32, u8), Checked>, view: View)
    ensures kept { changes_in changes.new ≡ keep (λ key. nat_le view.0 (first_in key)) (changes_in changes.old) }
    ensures sound { (c : Configuration) → AreChanges c changes.old.entries → AreChanges c changes.new.entries }
{
    changes.retain(|key, _| key.0 >= view.0);
}
