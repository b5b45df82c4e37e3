//! Signers: key pairs that use each leaf once.

ghost use Rattle.std.specs.Prelude.{◌≡◌, ℕ, ◌+◌, ◌^◌, ◌<◌, ◌≤◌, ◌↔◌, ◌++◌, IfOk, IfSome, IsErrOf, None, Some, length};
ghost use Rattle.lms_level.specs.Ots.{u32str};
ghost use Rattle.lms_level.specs.Signature.{levels_of};
ghost use Rattle.lms_level.specs.declared.height.Height.{Height};
ghost use Rattle.lms_tree.specs.Keys.{after_signing, leaf_count, public_key_of_signer, signature_by, signature_number, signature_of, signature_length, signer_at};
ghost use Rattle.lms_tree.specs.SigningState.{total_of};
ghost use Rattle.lms_tree.specs.Signature.{signature_fault};
ghost use Rattle.lms_tree.specs.Below.{IsBelow, IsComing};

use crate::bottom::{Bottom, Coming};
use crate::fault::SignFault;
use crate::tree::Tree;
use host_types::PublicKey;
use lms_level::{Height, put, u32str};
use std::alloc::{AllocError, Global};
use std::marker::Model;

/// The levels of trees of an `Hss` key, which is L of RFC 8554, section 6.1.
const LEVELS: u32 = 2;

/// A key pair that signs once for each leaf, in the leaves' order: those of one tree (RFC 8554, section 5), or
/// those of all bottom trees, one tree after the other (section 6). It can't be cloned, and never gives out its
/// secret.
#[derive(Drop)]
pub struct Signer {
    alloc: Global,
    /// The one tree, or the top tree.
    top: Tree,
    /// The height of the bottom trees, if there are two levels.
    bottom: Option<Height>,
    /// The bottom tree that signed last, unless memory ran out when it was made.
    present: Option<Bottom>,
    /// The bottom tree after that one, of which each signature makes a node, if there is a next and memory for it.
    coming: Option<Coming>,
    next_leaf: u32,
}

impl Model for Signer {
    ghost use Rattle.std.specs.Prelude.{◌≡◌, ◌≤◌, Some, length};
    ghost use Rattle.lms_tree.specs.SigningState.{SigningState, total_of};
    ghost use Rattle.lms_tree.specs.Below.{AreBelow};

    ghost Value = { SigningState };

    ghost view = { λ s. record {
      height = s.top.height;
      bottom = s.bottom;
      id = s.top.id;
      secret = s.top.secret;
      next_leaf = s.next_leaf;
    } };

    ghost invariant = { λ s. (s.next_leaf ≤ total_of s.top.height s.bottom)
        × (length s.top.id ≡ 16)
        × AreBelow s.top s.bottom s.present s.coming };
}

impl Signer {
    /// A signer with one tree, which has the identifier `id`, and whose one-time keys come from `secret` (RFC
    /// 8554, appendix A). It makes the whole tree, and keeps it in memory from `alloc`, as the signatures
    /// will be.
    pub fn from_seed(
        alloc: Global,
        height: Height,
        id: [u8; 16],
        secret: [u8; 32],
    ) -> Result<Signer, AllocError>
        ensures { IfOk result (λ signer.
            signer ≡ record { height = height; bottom = None; id = id; secret = secret; next_leaf = 0 }) }
    {
        Signer::from_seed_at(alloc, height, id, secret, 0)
    }

    /// A signer with two levels, whose top tree has the identifier `id` and the seed `secret`, from which those of
    /// the bottom trees come. It makes the top tree and the first bottom tree.
    pub fn from_seed2(
        alloc: Global,
        top: Height,
        bottom: Height,
        id: [u8; 16],
        secret: [u8; 32],
    ) -> Result<Signer, AllocError>
        ensures { IfOk result (λ signer.
            signer ≡ record { height = top; bottom = Some bottom; id = id; secret = secret; next_leaf = 0 }) }
    {
        Signer::from_seed2_at(alloc, top, bottom, id, secret, 0)
    }

    /// A signer that goes on where another of its seed has stopped: the one that `from_seed` gives, once the leaves
    /// below `next_leaf` are used. It makes the whole tree, as that one does.
    ///
    /// **No leaf from `next_leaf` on may have signed, whichever signer of the seed it was.** Two messages that one
    /// leaf signed give the key away (RFC 8554, section 9.2), and no contract sees another signer: this is owed by the
    /// caller. Whoever keeps the number for the next start puts it above a leaf before that leaf's signature is given
    /// to anybody, and makes no second signer while the first one can sign.
    ///
    /// `next_leaf` is at most the number of leaves, `Height::leaf_count`, at which every leaf is used. That is required
    /// and not refused: no signer's `next_leaf` is greater, and a caller that has the number from outside can compare
    /// the two. Memory, which nobody can know of, is the only error.
    pub fn from_seed_at(
        alloc: Global,
        height: Height,
        id: [u8; 16],
        secret: [u8; 32],
        next_leaf: u32,
    ) -> Result<Signer, AllocError>
        requires { next_leaf ≤ total_of height None }
        ensures { IfOk result (λ signer. signer ≡ signer_at height None id secret next_leaf) }
    {
        let top = Tree::new(alloc, height, id, secret)?;
        Ok(Signer {
            alloc,
            top,
            bottom: None,
            present: None,
            coming: None,
            next_leaf,
        })
    }

    /// The same with two levels: the signer that `from_seed2` gives, once the leaves below `next_leaf` are used. What
    /// `from_seed_at` says of the leaves that must not have signed holds here too, and the number of leaves is
    /// `leaf_count_of`.
    ///
    /// It makes the top tree and the bottom tree that its next leaf is in, none of those before, and of the one after
    /// it as many nodes as the other signer's signatures had made.
    pub fn from_seed2_at(
        alloc: Global,
        top: Height,
        bottom: Height,
        id: [u8; 16],
        secret: [u8; 32],
        next_leaf: u32,
    ) -> Result<Signer, AllocError>
        requires { next_leaf ≤ total_of top (Some bottom) }
        ensures { IfOk result (λ signer. signer ≡ signer_at top (Some bottom) id secret next_leaf) }
    {
        let top = Tree::new(alloc, top, id, secret)?;
        let mut signer = Signer {
            alloc,
            top,
            bottom: Some(bottom),
            present: None,
            coming: None,
            next_leaf,
        };
        signer.make_bottoms(bottom)?;
        Ok(signer)
    }

    // The bottom tree of the next leaf, if one is left, and of the tree after it as many nodes as the leaves before
    // that leaf would have made.
    fn make_bottoms(&mut self, height: Height) -> Result<(), AllocError>
        requires two_levels { self.old.bottom ≡ Some height }
        ensures same { self.new ≡ self.old }
    {
        if self.leaves_left() == 0 {
            return Ok(());
        }
        let count = height.leaf_count();
        let number = self.next_leaf / count;
        self.present = Some(Bottom::new(self.alloc, &self.top, height, number)?);
        'used: for _ in 0..self.next_leaf % count {
            self.prepare(height, number + 1);
        }
        Ok(())
    }

    /// Another signer with this one's key, where neither has used a leaf. It copies the nodes.
    pub(crate) fn copy_unused(&self, alloc: Global) -> Result<Signer, AllocError>
        requires { self.now.next_leaf ≡ 0 }
        ensures { IfOk result (λ signer. signer ≡ self.now) }
    {
        let top = self.top.try_clone(alloc)?;
        let present = self.copy_present(alloc)?;
        Ok(Signer {
            alloc,
            top,
            bottom: self.bottom,
            present,
            coming: None,
            next_leaf: 0,
        })
    }

    // A copy of the bottom tree that is there.
    fn copy_present(&self, alloc: Global) -> Result<Option<Bottom>, AllocError>
        ensures { (height : Height) → self.now.bottom ≡ Some height → IfOk result (λ present. IfSome present
            (IsBelow (record { height = self.now.height; id = self.now.id; secret = self.now.secret }) height)) }
    {
        match &self.present {
            None => Ok(None),
            Some(bottom) => Ok(Some(bottom.try_clone(alloc)?)),
        }
    }

    /// The public key. It takes no memory.
    pub fn public_key(&self) -> PublicKey
        ensures { result ≡ public_key_of_signer self.now }
    {
        let top = self.top.public_key();
        match self.bottom {
            None => PublicKey::Lms(top),
            Some(_) => PublicKey::Hss(key_of_levels(&top)),
        }
    }

    /// The leaf that signs next, which is the number of signatures that were asked for so far. The leaves of all
    /// bottom trees are counted, and not those of the top tree. It takes no memory.
    pub fn next_leaf(&self) -> u32
        ensures leaf { result ≡ self.now.next_leaf }
        ensures within { result ≤ leaf_count self.now }
    {
        self.next_leaf
    }

    /// How many leaves a key has, with one tree of this height, or with bottom trees of the height `bottom` below a
    /// top tree of it: so many signatures it gives in all. It takes no memory.
    pub fn leaf_count_of(height: Height, bottom: Option<Height>) -> u32
        ensures { result ≡ total_of height bottom }
    {
        let own = height.leaf_count();
        match bottom {
            None => own,
            Some(bottom) => own * bottom.leaf_count(),
        }
    }

    /// How many leaves have not signed. It takes no memory.
    pub fn leaves_left(&self) -> u32
        ensures { self.now.next_leaf + result ≡ leaf_count self.now }
    {
        self.total() - self.next_leaf
    }

    // How many signatures the key gives in all.
    fn total(&self) -> u32
        ensures { result ≡ leaf_count self.now }
    {
        Signer::leaf_count_of(self.top.height(), self.bottom)
    }

    /// The signature of `body` by the next leaf, which is used by that (RFC 8554, sections 5.4.1 and 6.2).
    /// `Exhausted` comes where every leaf has signed, takes no memory, and leaves the signer as it was. After
    /// `Memory` the leaf counts as used, and the next leaf signs next: a bottom tree that could not be made is
    /// made by the next call. The next leaf only ever rises, so that no leaf signs twice.
    pub fn sign(&mut self, body: &[u8]) -> Result<Vec<u8>, SignFault>
        ensures signature { IfOk result (λ sig. sig.items ≡ signature_of self.old body.now) }
        ensures valid { IfOk result (λ sig.
            signature_fault (public_key_of_signer self.old) body.now sig.items ≡ None) }
        ensures length { IfOk result (λ sig. length sig.items ≡ signature_length self.old) }

        ensures exhausted { IsErrOf result SignFault.Exhausted ↔ (self.old.next_leaf ≡ leaf_count self.old) }
        ensures unchanged { IsErrOf result SignFault.Exhausted → self.new ≡ self.old }

        // A leaf is used by each call that is not refused, also where there was no memory, and the number that a
        // signature's leaves name lies below the next one from then on.
        ensures used { self.old.next_leaf < leaf_count self.old → self.new ≡ after_signing self.old }
        ensures once { IfOk result (λ sig. (signature_number self.old sig.items ≡ self.old.next_leaf)
            × (self.old.next_leaf < self.new.next_leaf)) }
    {
        let number = self.next_leaf;
        if number == self.total() {
            return Err(SignFault::Exhausted);
        }
        self.next_leaf = number + 1;
        match self.signature(number, body) {
            Ok(sig) => Ok(sig),
            Err(_) => Err(SignFault::Memory),
        }
    }

    // Signature `number`.
    fn signature(&mut self, number: u32, body: &[u8]) -> Result<Vec<u8>, AllocError>
        requires { number < leaf_count self.old }
        ensures same { self.new ≡ self.old }
        ensures signature { IfOk result (λ sig.
            sig.items ≡ signature_by self.old.height self.old.bottom self.old.id self.old.secret number body.now) }
    {
        match self.bottom {
            None => {
                let mut sig = Vec::with_capacity(self.alloc, self.top.height().signature_len())?;
                self.top.sign_onto(&mut sig, number, body)?;
                Ok(sig)
            }
            Some(height) => {
                let count = height.leaf_count();
                let bottom = self.take_bottom(height, number / count)?;
                let sig = bottom.signature(self.alloc, number % count, body);
                self.present = Some(bottom);
                self.prepare(height, number / count + 1);
                sig
            }
        }
    }

    // Bottom tree `number`: the present one, or else the next one, once the present one is let go.
    fn take_bottom(&mut self, height: Height, number: u32) -> Result<Bottom, AllocError>
        requires two_levels { self.old.bottom ≡ Some height }
        requires within { number < 2 ^ levels_of self.old.height }
        ensures same { self.new ≡ self.old }
        ensures bottom { IfOk result (λ b. (b.number ≡ number)
            × IsBelow (record { height = self.old.height; id = self.old.id; secret = self.old.secret }) height b) }
    {
        match self.present.take() {
            Some(bottom) if bottom.number == number => return Ok(bottom),
            _ => {}
        }
        self.next_bottom(height, number)
    }

    // Bottom tree `number`: the coming one, or a new one.
    fn next_bottom(&mut self, height: Height, number: u32) -> Result<Bottom, AllocError>
        requires two_levels { self.old.bottom ≡ Some height }
        requires within { number < 2 ^ levels_of self.old.height }
        ensures same { self.new ≡ self.old }
        ensures bottom { IfOk result (λ b. (b.number ≡ number)
            × IsBelow (record { height = self.old.height; id = self.old.id; secret = self.old.secret }) height b) }
    {
        match self.coming.take() {
            Some(coming) if coming.number == number => {
                return coming.finish(self.alloc, &self.top);
            }
            _ => {}
        }
        Bottom::new(self.alloc, &self.top, height, number)
    }

    // Makes a node of bottom tree `number`, if the top tree has a leaf for it. So each signature makes one, and as
    // many nodes as leaves are made when the tree's turn comes. Where memory runs out, the tree is left to that turn.
    fn prepare(&mut self, height: Height, number: u32)
        requires two_levels { self.old.bottom ≡ Some height }
        ensures same { self.new ≡ self.old }
    {
        if number >= self.top.height().leaf_count() {
            return;
        }
        if let Some(mut coming) = self.take_coming(height, number) {
            coming.grow();
            self.coming = Some(coming);
        }
    }

    // Bottom tree `number` under way: the coming one, or a new one, if there is memory for it.
    fn take_coming(&mut self, height: Height, number: u32) -> Option<Coming>
        requires two_levels { self.old.bottom ≡ Some height }
        ensures same { self.new ≡ self.old }
        ensures coming { IfSome result (λ t. IsComing
            (record { height = self.old.height; id = self.old.id; secret = self.old.secret }) height t) }
    {
        match self.coming.take() {
            Some(coming) if coming.number == number => Some(coming),
            _ => Coming::new(self.alloc, &self.top, height, number).ok(),
        }
    }
}

// The key of two levels whose top tree has this key.
fn key_of_levels(top: &[u8; 56]) -> [u8; 60]
    ensures { result ≡ u32str 2 ++ top.now }
{
    let mut key = [0u8; 60];
    put(&mut key, 0, &u32str(LEVELS));
    put(&mut key, 4, top);
    key
}
