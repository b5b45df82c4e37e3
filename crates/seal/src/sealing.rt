//! Sealing a body with a signer.

ghost use Rattle.std.specs.Prelude.{◌≡◌, ◌⊎◌, ◌↔◌, ◌+◌, ◌≤◌, [], IsTrue, IfOk, IsErrOf, IsSomeAnd, length};
ghost use Rattle.std.specs.List.{AllByRecursion};
ghost use Rattle.lms_tree.specs.declared.fault.SignFault.{SignFault};
ghost use Rattle.lms_tree.specs.Keys.{IsKeyOf, after_signing, leaf_count};
ghost use Rattle.pbft_codec.specs.Bodies.{BodyWellFormed};
ghost use Rattle.pbft_codec.specs.Encoding.{body as encoded_body, max_bytes};
ghost use Rattle.seal.specs.Opening.{sealed_message, around_body};
ghost use Rattle.seal.specs.Parts.{nested_in};
ghost use Rattle.seal.specs.Signers.{IsAuthentic, key_of, may_sign};

use crate::checked::Checked;
use host_types::{Bytes, Config};
use lms_tree::{SignFault, Signer};
use pbft_codec::{Body, Role, Signed, signed_bytes};
use std::alloc::Global;
use std::sync::Arc;

/// A message of this body before it is signed.
pub fn with_empty_signature(alloc: Global, role: Role, id: u32, body: Body) -> Signed
    ensures { result ≡ record { role = role; id = id; body = body; sig = [] } }
{
    Signed {
        role,
        id,
        body,
        sig: Bytes::from_vec(Vec::new(alloc)),
    }
}

/// The message of this body, signed by the signer's next leaf. The caller owes a signer whose key is
/// listed for the role and the id, a body of the grammar that comes from that signer and fits in a
/// message, and nested messages that are authentic. `Exhausted` comes exactly where every leaf has signed,
/// takes no memory, and leaves the signer as it was. After `Memory` the next leaf is the old one or one
/// more.
pub fn seal(
    alloc: Global,
    config: &Arc<Config>,
    signer: &mut Signer,
    role: Role,
    id: u32,
    body: Body,
) -> Result<Checked, SignFault>
    requires key { IsSomeAnd (key_of config.now.value role id) (λ key. IsKeyOf key signer.old) }
    requires role { IsTrue (may_sign config.now.value role id body) }
    requires well_formed { BodyWellFormed body }
    requires within { length (encoded_body body) + around_body signer.old ≤ max_bytes }
    requires nested { AllByRecursion (IsAuthentic config.now.value) (nested_in body) }
    ensures signed { IfOk result (λ c. c ≡ record { config = config.now.value; message = sealed_message signer.old role id body }) }
    ensures used { IfOk result (λ _. signer.new ≡ after_signing signer.old) }
    ensures exhausted { IsErrOf result SignFault.Exhausted ↔ (signer.old.next_leaf ≡ leaf_count signer.old) }
    ensures unchanged { IsErrOf result SignFault.Exhausted → signer.new ≡ signer.old }
    ensures memory { IsErrOf result SignFault.Memory →
        (signer.new ≡ signer.old) ⊎ (signer.new ≡ after_signing signer.old) }
{
    if signer.leaves_left() == 0 {
        return Err(SignFault::Exhausted);
    }
    let unsigned = with_empty_signature(alloc, role, id, body);
    let Ok(text) = signed_bytes(alloc, &unsigned) else {
        return Err(SignFault::Memory);
    };
    let signature = signer.sign(&text)?;
    let message = Signed {
        sig: Bytes::from_vec(signature),
        ..unsigned
    };
    match Checked::encoded(alloc, config, message) {
        Ok(checked) => Ok(checked),
        Err(_) => Err(SignFault::Memory),
    }
}
