//! The hashes of a tree's nodes (RFC 8554, section 5.3).

ghost use Rattle.std.specs.Prelude.{◌≡◌};
ghost use Rattle.lms_level.specs.Tree.{inner_node, leaf_node, parent};

use lms_ots::hasher;
use sha2::Digest;

// D_LEAF of RFC 8554, section 5.3.
const LEAF_TAG: u16 = 0x8282;

// D_INTR of RFC 8554, section 5.3.
const INNER_TAG: u16 = 0x8383;

/// The node `node` over a leaf's public value. It takes no memory.
pub fn leaf_node(id: &[u8; 16], node: u32, value: &[u8; 32]) -> [u8; 32]
    ensures { result ≡ leaf_node id.now node value.now }
{
    let mut hasher = hasher(id, node, LEAF_TAG);
    hasher.update(value);
    hasher.finalize()
}

/// The node `node` over two nodes. It takes no memory.
pub fn inner_node(id: &[u8; 16], node: u32, left: &[u8; 32], right: &[u8; 32]) -> [u8; 32]
    ensures { result ≡ inner_node id.now node left.now right.now }
{
    let mut hasher = hasher(id, node, INNER_TAG);
    hasher.update(left);
    hasher.update(right);
    hasher.finalize()
}

// The node above the node `node`, from that one's value and its sibling's.
pub(crate) fn parent(
    id: &[u8; 16],
    node: u32,
    value: &[u8; 32],
    sibling_node: &[u8; 32],
) -> [u8; 32]
    ensures { result ≡ parent id.now node value.now sibling_node.now }
{
    if node % 2 == 0 {
        inner_node(id, node / 2, value, sibling_node)
    } else {
        inner_node(id, node / 2, sibling_node, value)
    }
}
