//! One tree, which is made node by node, and signs with any of its leaves (RFC 8554, sections 5.3 and 5.4).

ghost use Rattle.std.specs.Prelude.{◌≡◌, ◌==◌, ℕ, ◌+◌, ◌*◌, ◌^◌, ◌<◌, ◌≤◌, ◌-◌, ◌++◌, List, [], IfOk, OnOk, length, slice_index_or};
ghost use Rattle.lms_level.specs.Signature.{levels_of, public_key_of, signature_at};
ghost use Rattle.lms_level.specs.Tree.{path_node, sibling, tree_node};
ghost use Rattle.lms_level.specs.Ots.{concatenation};
ghost use Rattle.lms_tree.specs.Trees.{TreeState, GrowingState, HoldsNodesFrom};

use lms_level::{
    Height, TYPECODE, inner_node, leaf_node, ots_public, ots_publics, ots_sign, put, u32str,
};
use std::alloc::{AllocError, Global};
use std::marker::Model;

/// A tree some of whose nodes are missing: they are made from the last leaf's to the root.
#[derive(Drop)]
pub(crate) struct GrowingTree {
    height: Height,
    id: [u8; 16],
    secret: [u8; 32],
    /// Node r at index r. Index 0 is no node's.
    nodes: Vec<[u8; 32]>,
    /// The first node that has its turn behind it. Those from 1 up to it are missing.
    first: u32,
    /// The first node that is in the list: eight leaves' nodes are made together, at the turn of the last of them.
    made: u32,
}

impl Model for GrowingTree {
    ghost use Rattle.std.specs.Prelude.{◌-◌, ◌≤◌};
    ghost use Rattle.lms_level.specs.Signature.{levels_of};
    ghost use Rattle.lms_tree.specs.Trees.{GrowingState, HoldsNodesFrom};

    ghost Value = { GrowingState };

    ghost view = { λ t. record { height = t.height; id = t.id; secret = t.secret; missing = t.first - 1 } };

    ghost invariant = { λ t. (1 ≤ t.first) × (t.made ≤ t.first) × HoldsNodesFrom t.made (levels_of t.height) t.id t.secret t.nodes.items };
}

impl GrowingTree {
    /// A tree with no node.
    pub(crate) fn new(
        alloc: Global,
        height: Height,
        id: [u8; 16],
        secret: [u8; 32],
    ) -> Result<GrowingTree, AllocError>
        ensures { IfOk result (λ t. t ≡ record {
          height = height;
          id = id;
          secret = secret;
          missing = 2 * 2 ^ levels_of height - 1;
        }) }
    {
        let end = 2 * height.leaf_count();
        let nodes = vec![in alloc; [0u8; 32]; end as usize]?;
        Ok(GrowingTree {
            height,
            id,
            secret,
            nodes,
            first: end,
            made: end,
        })
    }

    /// Whether no node is missing.
    pub(crate) fn is_whole(&self) -> bool
        ensures { result ≡ (self.now.missing == 0) }
    {
        self.first == 1
    }

    /// Makes one more node, if one is missing.
    pub(crate) fn grow(&mut self)
        ensures { self.new ≡ record self.old { missing = self.old.missing - 1 } }
    {
        if self.is_whole() {
            return;
        }
        let r = self.first - 1;
        if self.made > r {
            self.made = make_nodes(self.height, &self.id, &self.secret, &mut self.nodes, r);
        }
        self.first = r;
    }

    /// The whole tree.
    pub(crate) fn finish(self) -> Tree
        ensures { result ≡ record { height = self.height; id = self.id; secret = self.secret } }
    {
        let mut tree = self;
        'growing: while !tree.is_whole() {
            tree.grow();
        }
        Tree {
            height: tree.height,
            id: tree.id,
            secret: tree.secret,
            nodes: tree.nodes,
        }
    }
}

// Makes node `r`, where each node behind it is made; of leaves seven more, those before it, since eight take little more time
// than one. Returns the first one of all that are made then.
fn make_nodes(
    height: Height,
    id: &[u8; 16],
    secret: &[u8; 32],
    nodes: &mut Vec<[u8; 32]>,
    r: u32,
) -> u32
    requires node { 0 < r }
    requires holds { HoldsNodesFrom (r + 1) (levels_of height) id.now secret.now nodes.old.items }
    ensures made { result ≤ r }
    ensures holds { HoldsNodesFrom result (levels_of height) id.now secret.now nodes.new.items }
{
    let count = height.leaf_count();
    if r < count + 7 {
        let node = node_of(height, id, secret, nodes, r);
        nodes[r as usize] = node;
        return r;
    }
    let first = r - 7;
    let values = ots_publics(id, first - count, secret);
    'leaves: for l in 0..8 {
        let node = first + l;
        nodes[node as usize] = leaf_node(id, node, &values[l as usize]);
    }
    first
}

// Node `r`, where each node behind it is made.
fn node_of(height: Height, id: &[u8; 16], secret: &[u8; 32], nodes: &[[u8; 32]], r: u32) -> [u8; 32]
    requires node { 0 < r }
    requires holds { HoldsNodesFrom (r + 1) (levels_of height) id.now secret.now nodes.now }
    ensures { result ≡ tree_node (levels_of height) id.now secret.now r }
{
    let count = height.leaf_count();
    if r < count {
        let children = 2 * r as usize;
        inner_node(id, r, &nodes[children], &nodes[children + 1])
    } else {
        leaf_node(id, r, &ots_public(id, r - count, secret))
    }
}

/// A tree with all its nodes.
#[derive(Drop)]
pub(crate) struct Tree {
    height: Height,
    id: [u8; 16],
    secret: [u8; 32],
    nodes: Vec<[u8; 32]>,
}

impl Model for Tree {
    ghost use Rattle.lms_tree.specs.Nodes.{IsTree};
    ghost use Rattle.lms_level.specs.Signature.{levels_of};
    ghost use Rattle.lms_tree.specs.Trees.{TreeState};

    ghost Value = { TreeState };

    ghost view = { λ t. record { height = t.height; id = t.id; secret = t.secret } };

    ghost invariant = { λ t. IsTree (levels_of t.height) t.id t.secret t.nodes.items };
}

impl Tree {
    /// The tree whose one-time keys come from `secret`.
    pub(crate) fn new(
        alloc: Global,
        height: Height,
        id: [u8; 16],
        secret: [u8; 32],
    ) -> Result<Tree, AllocError>
        ensures { IfOk result (λ t. t ≡ record { height = height; id = id; secret = secret }) }
    {
        Ok(GrowingTree::new(alloc, height, id, secret)?.finish())
    }

    /// A copy of this tree, whose nodes are not made anew.
    pub(crate) fn try_clone(&self, alloc: Global) -> Result<Tree, AllocError>
        ensures { IfOk result (λ t. t ≡ self.now) }
    {
        Ok(Tree {
            height: self.height,
            id: self.id,
            secret: self.secret,
            nodes: self.nodes.to_vec(alloc)?,
        })
    }

    pub(crate) fn height(&self) -> Height
        ensures { result ≡ self.now.height }
    {
        self.height
    }

    pub(crate) fn id(&self) -> &[u8; 16]
        ensures { result.now ≡ self.now.id }
    {
        &self.id
    }

    pub(crate) fn secret(&self) -> &[u8; 32]
        ensures { result.now ≡ self.now.secret }
    {
        &self.secret
    }

    /// The public key: the two typecodes, the identifier and the root.
    pub(crate) fn public_key(&self) -> [u8; 56]
        ensures { result ≡ public_key_of self.now.height self.now.id self.now.secret }
    {
        let mut key = [0u8; 56];
        put(&mut key, 0, &u32str(self.height.typecode()));
        put(&mut key, 4, &u32str(TYPECODE));
        put(&mut key, 8, &self.id);
        put(&mut key, 24, &self.nodes[1]);
        key
    }

    /// Appends the signature of `body` by leaf `leaf`. That a leaf signs one body alone is the caller's to see to.
    pub(crate) fn sign_onto(
        &self,
        out: &mut Vec<u8>,
        leaf: u32,
        body: &[u8],
    ) -> Result<(), AllocError>
        requires { leaf < 2 ^ levels_of self.now.height }
        ensures { OnOk result (out.new.items ≡ out.old.items
            ++ signature_at self.now.height self.now.id self.now.secret leaf body.now) }
    {
        out.extend_from_slice(&u32str(leaf))?;
        out.extend_from_slice(&ots_sign(&self.id, leaf, &self.secret, body))?;
        out.extend_from_slice(&u32str(self.height.typecode()))?;
        self.push_path(out, leaf)
    }

    // Appends the path of leaf `leaf`.
    fn push_path(&self, out: &mut Vec<u8>, leaf: u32) -> Result<(), AllocError>
        requires { leaf < 2 ^ levels_of self.now.height }
        ensures { OnOk result (let h = levels_of self.now.height in
            let first = 2 ^ h + leaf in
            out.new.items ≡ out.old.items ++ concatenation (path_node h self.now.id self.now.secret first) h) }
    {
        let first = (self.height.leaf_count() + leaf) as usize;
        'path: for i in 0..self.height.levels() {
            let sibling_node = sibling(&self.nodes, first >> i);
            out.extend_from_slice(&sibling_node)?;
        }
        Ok(())
    }
}

// The other node under the parent of the node `node`.
fn sibling(nodes: &[[u8; 32]], node: usize) -> [u8; 32]
    requires above { 0 < node }
    requires within { sibling node < length nodes.now }
    ensures { result ≡ slice_index_or nodes.now (sibling node) [] }
{
    if node % 2 == 0 {
        nodes[node + 1]
    } else {
        nodes[node - 1]
    }
}
