//! Four replicas, of which one may be faulty, and what they reply to client 16.

ghost use Rattle.std.specs.Prelude.{◌≡◌, IfOk};

use crate::sealing::message_of;
use host_types::{Bytes, ClientEntry, ClientId, Config, PublicKey, SeqNo, TenantId, View};
use lms_tree::{Height, Signer};
use pbft_codec::{Body, ReplyBody, Role, Signed, signed_bytes};
use seal::{Checked, open};
use std::alloc::{AllocError, Global};
use std::sync::Arc;
use std::test::Fail;

/// A signer of this number: 0 to 3 are the replicas, 16 is the client.
pub fn signer(alloc: Global, number: u8) -> Result<Signer, AllocError> {
    Signer::from_seed(alloc, Height::H5, [number; 16], [3; 32])
}

/// The signers of the replicas.
pub fn signers(alloc: Global) -> Result<Vec<Signer>, AllocError> {
    let mut signers = Vec::new(alloc);
    for number in 0..4 {
        signers.push(signer(alloc, number)?)?;
    }
    Ok(signers)
}

/// The configuration of these replicas and of client 16, which has this key.
pub fn config(alloc: Global, replicas: &[Signer], key: PublicKey) -> Result<Arc<Config>, Fail> {
    let mut keys = Vec::new(alloc);
    for signer in replicas {
        keys.push(signer.public_key())?;
    }
    let mut clients = Vec::new(alloc);
    clients.push(ClientEntry {
        id: ClientId(16),
        tenant: TenantId(1),
        key,
    })?;
    Ok(Arc::new(alloc, Config::new(1, 8, keys, clients)?)?)
}

/// The fields of a Reply, with a number and a result of one byte each.
#[derive(Clone, Copy)]
pub struct Fields {
    pub replica: u8,
    pub view: u32,
    pub client: u32,
    pub time: u64,
    pub number: u8,
    pub result: u8,
}

/// The fields of a text, in their order.
pub fn fields_of(text: &str) -> Result<Fields, Fail> {
    let mut numbers = [0u32; 6];
    for (number, word) in numbers.iter_mut().zip(text.split(' ')) {
        *number = word.parse()?;
    }
    let [replica, view, client, time, number, result] = numbers;
    Ok(Fields {
        replica: u8::try_from(replica)?,
        view,
        client,
        time: u64::from(time),
        number: u8::try_from(number)?,
        result: u8::try_from(result)?,
    })
}

/// The Reply of these fields, without a signature.
fn unsigned(alloc: Global, fields: &Fields) -> Result<Signed, AllocError> {
    let result = Bytes::from_vec(Vec::from_slice(alloc, &[fields.result])?);
    Ok(Signed {
        role: Role::Replica,
        id: u32::from(fields.replica),
        body: Body::Reply(ReplyBody {
            view: View(fields.view),
            client: ClientId(fields.client),
            time: fields.time,
            number: SeqNo(u64::from(fields.number)),
            result,
        }),
        sig: Bytes::from_vec(Vec::new(alloc)),
    })
}

/// What is signed of a Reply, and its signature: none where there is no such replica.
fn sign(
    alloc: Global,
    replicas: &mut [Signer],
    fields: &Fields,
) -> Result<(Vec<u8>, Vec<u8>), Fail> {
    let message = unsigned(alloc, fields)?;
    sign_message(
        alloc,
        replicas.get_mut(usize::from(fields.replica)),
        &message,
    )
}

fn sign_message(
    alloc: Global,
    signer: Option<&mut Signer>,
    message: &Signed,
) -> Result<(Vec<u8>, Vec<u8>), Fail> {
    let text = signed_bytes(alloc, message)?;
    let signature = match signer {
        Some(signer) => signer.sign(&text)?,
        None => Vec::new(alloc),
    };
    Ok((text, signature))
}

/// The checked Reply of a replica.
pub fn reply(
    alloc: Global,
    config: &Arc<Config>,
    replicas: &mut [Signer],
    fields: &Fields,
) -> Result<Checked, Fail>
    ensures { IfOk result (λ c. c.config ≡ config.now.value) }
{
    let (text, signature) = sign(alloc, replicas, fields)?;
    let bytes = message_of(alloc, &text, &signature)?;
    Ok(open(alloc, config, &bytes)?)
}
