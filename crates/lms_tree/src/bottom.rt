//! The bottom trees of a key of two levels (RFC 8554, section 6).

ghost use Rattle.std.specs.Prelude.{◌≡◌, ◌^◌, ◌<◌, ◌++◌, IfOk};
ghost use Rattle.lms_level.specs.Signature.{levels_of, signature_at};
ghost use Rattle.lms_level.specs.Ots.{u32str};
ghost use Rattle.lms_tree.specs.Levels.{signed_key};
ghost use Rattle.lms_tree.specs.Below.{IsBelow, IsComing};
ghost use Rattle.lms_tree.specs.Trees.{TreeState};
ghost use Rattle.lms_level.specs.declared.height.Height.{Height};

use crate::nodes::{bottom_id, bottom_secret};
use crate::tree::{GrowingTree, Tree};
use lms_level::{Height, u32str};
use std::alloc::{AllocError, Global};

/// The number of keys that a signature of two levels carries (RFC 8554, section 6.2).
const SIGNED_KEYS: u32 = 1;

/// The length of one tree's public key.
const KEY_LEN: usize = 56;

/// A bottom tree that is made node by node, while the one before it signs.
#[derive(Drop)]
pub(crate) struct Coming {
    /// The leaf of the top tree that will sign the key.
    pub(crate) number: u32,
    tree: GrowingTree,
}

impl Coming {
    /// Bottom tree `number` below a top tree, with no node yet.
    pub(crate) fn new(
        alloc: Global,
        top: &Tree,
        height: Height,
        number: u32,
    ) -> Result<Coming, AllocError>
        ensures { IfOk result (λ t. (t.number ≡ number) × IsComing top.now height t) }
    {
        let id = bottom_id(top.id(), top.secret(), number);
        let secret = bottom_secret(top.id(), top.secret(), number);
        let tree = GrowingTree::new(alloc, height, id, secret)?;
        Ok(Coming { number, tree })
    }

    /// Makes one more node: the leaves' come first.
    pub(crate) fn grow(&mut self)
        ensures number { self.new.number ≡ self.old.number }
        ensures same { (top : TreeState) (height : Height) → IsComing top height self.old
            → IsComing top height self.new }
    {
        self.tree.grow();
    }

    /// The bottom tree, whose missing nodes are made now. The leaf of the top tree that has its number signs its
    /// key, and nothing else.
    pub(crate) fn finish(self, alloc: Global, top: &Tree) -> Result<Bottom, AllocError>
        requires { self.number < 2 ^ levels_of top.now.height }
        ensures { (height : Height) → IsComing top.now height self →
            IfOk result (λ b. (b.number ≡ self.number) × IsBelow top.now height b) }
    {
        let number = self.number;
        let tree = self.tree.finish();
        let front = signed_key(alloc, top, number, &tree.public_key())?;
        Ok(Bottom {
            number,
            tree,
            front,
        })
    }
}

/// A bottom tree, with its key as the top tree signed it.
#[derive(Drop)]
pub(crate) struct Bottom {
    /// The leaf of the top tree that signed the key.
    pub(crate) number: u32,
    tree: Tree,
    /// What a signature has before the bottom tree's own signature.
    front: Vec<u8>,
}

impl Bottom {
    /// Bottom tree `number` below a top tree.
    pub(crate) fn new(
        alloc: Global,
        top: &Tree,
        height: Height,
        number: u32,
    ) -> Result<Bottom, AllocError>
        requires { number < 2 ^ levels_of top.now.height }
        ensures { IfOk result (λ b. (b.number ≡ number) × IsBelow top.now height b) }
    {
        Coming::new(alloc, top, height, number)?.finish(alloc, top)
    }

    /// A copy of this tree and of its signed key.
    pub(crate) fn try_clone(&self, alloc: Global) -> Result<Bottom, AllocError>
        ensures { (top : TreeState) (height : Height) → IsBelow top height self.now
            → IfOk result (λ b. (b.number ≡ self.now.number) × IsBelow top height b) }
    {
        let tree = self.tree.try_clone(alloc)?;
        let front = self.front.to_vec(alloc)?;
        Ok(Bottom {
            number: self.number,
            tree,
            front,
        })
    }

    /// The signature of `body` by a leaf of this tree.
    pub(crate) fn signature(
        &self,
        alloc: Global,
        leaf: u32,
        body: &[u8],
    ) -> Result<Vec<u8>, AllocError>
        requires { leaf < 2 ^ levels_of self.now.tree.height }
        ensures { IfOk result (λ sig. sig.items ≡ self.now.front.items
            ++ signature_at self.now.tree.height self.now.tree.id self.now.tree.secret leaf body.now) }
    {
        let own = self.tree.height().signature_len();
        let mut sig = Vec::with_capacity(alloc, self.front.len() + own)?;
        sig.extend_from_slice(&self.front)?;
        self.tree.sign_onto(&mut sig, leaf, body)?;
        Ok(sig)
    }
}

// A bottom tree's key, signed by a leaf of the top tree.
fn signed_key(alloc: Global, top: &Tree, leaf: u32, key: &[u8; 56]) -> Result<Vec<u8>, AllocError>
    requires { leaf < 2 ^ levels_of top.now.height }
    ensures { IfOk result (λ front. front.items ≡ u32str 1
        ++ signature_at top.now.height top.now.id top.now.secret leaf key.now ++ key.now) }
{
    let len = 4 + top.height().signature_len() + KEY_LEN;
    let mut front = Vec::with_capacity(alloc, len)?;
    front.extend_from_slice(&u32str(SIGNED_KEYS))?;
    top.sign_onto(&mut front, leaf, key)?;
    front.extend_from_slice(key)?;
    Ok(front)
}
