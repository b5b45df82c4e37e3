//! Configurations and their first fault, sets of replicas, lists of bytes.

ghost use Rattle.std.specs.Prelude.{◌≡◌};
ghost use Rattle.host_types.specs.Configuration.{Configuration, fault_of};

use host_types::{
    Bytes, ClientEntry, ClientId, Config, ConfigFault, PublicKey, ReplicaId, ReplicaSet, TenantId,
    View,
};
use std::alloc::{AllocError, Global};
use std::sync::Arc;
use std::test::Fail;

/// So many keys, each of the bytes of its index.
fn keys(alloc: Global, count: u8) -> Result<Vec<PublicKey>, AllocError> {
    let mut keys = Vec::new(alloc);
    for index in 0..count {
        keys.push(PublicKey::Lms([index; 56]))?;
    }
    Ok(keys)
}

/// A client for each `ID:TENANT`, and where the text has `ID..ID:TENANT` for each id from the one up to the
/// other.
fn clients(alloc: Global, pairs: &str) -> Result<Vec<ClientEntry>, Fail> {
    let mut clients = Vec::new(alloc);
    for pair in pairs.split_whitespace() {
        let (ids, tenant) = pair.split_once(":").ok_or("no tenant")?;
        let (first, last) = ids.split_once("..").unwrap_or((ids, ids));
        let tenant = TenantId(tenant.parse()?);
        for id in first.parse::<u32>()?..=last.parse::<u32>()? {
            clients.push(ClientEntry {
                id: ClientId(id),
                tenant,
                key: PublicKey::Lms([7; 56]),
            })?;
        }
    }
    Ok(clients)
}

/// f, k, the number of the replicas' keys, and the clients with their tenants; and the fault, or `-`.
const CONFIGURATIONS: &str = "\
1 8 4 100:1 => -\n\
3 1 10 => -\n\
1 8 4 16:1 17:2 18:3 19:4 20:5 21:6 22:7 23:8 => -\n\
4 8 13 100:1 => BadF\n\
0 8 1 100:1 => BadF\n\
4 0 3 100:1 => BadF\n\
1 8 3 100:1 => WrongReplicaCount\n\
1 0 3 100:1 => WrongReplicaCount\n\
1 0 4 100:1 => BadInterval\n\
1 9 4 100:1 => BadInterval\n\
1 0 4 15:1 => BadInterval\n\
1 8 4 15:1 => TooMany\n\
1 8 4 16:1 17:2 18:3 19:4 20:5 21:6 22:7 23:8 24:9 => TooMany\n\
1 8 4 16:1 16:2 3:1 => TooMany\n\
1 8 4 16:1 16:2 => DuplicateClient\n\
1 8 4 16..79:1 => -\n\
1 8 4 16..80:1 => TooMany\n\
";

/// The word before a blank, and what stands behind it.
fn halves(line: &str) -> (&str, &str) {
    line.split_once(" ").unwrap_or((line, ""))
}

/// The first fault of a configuration with these parts, if it has one.
fn first_fault(f: u8, k: u8, keys: Vec<PublicKey>, clients: Vec<ClientEntry>) -> Option<ConfigFault>
    ensures { let given : Configuration = record { f = f; k = k; keys = keys.items; clients = clients.items } in result ≡ fault_of given }
{
    Config::new(f, k, keys, clients).err()
}

/// The name of the first fault of a configuration, or `-`.
fn name_of_fault(alloc: Global, text: &str) -> Result<String, Fail> {
    let (f, rest) = halves(text);
    let (k, rest) = halves(rest);
    let (count, pairs) = halves(rest);
    let keys = keys(alloc, count.parse()?)?;
    match first_fault(f.parse()?, k.parse()?, keys, clients(alloc, pairs)?) {
        Some(fault) => Ok(fault.to_string(alloc)?),
        None => Ok(String::from_str(alloc, "-")?),
    }
}

#[test]
fn the_first_fault_is_reported(rt: HostRuntime) -> Result<(), Fail> {
    for line in CONFIGURATIONS.lines() {
        let (text, wanted) = line.split_once(" => ").ok_or("no fault")?;
        assert!(rt;
            name_of_fault(rt.alloc(), text)?.as_str() == wanted,
            "{line}"
        );
    }
    Ok(())
}

fn has_its_numbers(config: &Config) -> bool {
    config.f() == 1
        && config.k() == 8
        && config.replica_count() == 4
        && config.primary(View(0)).0 == 0
        && config.primary(View(4_294_967_295)).0 == 3
}

fn has_its_keys(config: &Config) -> bool {
    config.replica_key(ReplicaId(3)).copied() == Some(PublicKey::Lms([3; 56]))
        && config.replica_key(ReplicaId(4)).is_none()
        && config.clients().len() == 4
        && config.client(ClientId(102)).is_none()
        && matches!(config.client(ClientId(101)), Some(client) if client.tenant.0 == 9)
}

fn has_its_ids(config: &Config) -> bool {
    let clients = [ClientId(16), ClientId(17), ClientId(100), ClientId(101)];
    let tenants = [TenantId(2), TenantId(4), TenantId(9)];
    config.client_ids().as_slice() == clients.as_slice()
        && config.tenant_ids().as_slice() == tenants.as_slice()
}

#[test]
fn a_configuration_has_what_it_was_given(rt: HostRuntime) -> Result<(), Fail> {
    let listed = clients(rt.alloc(), "100:9 16:2 101:9 17:4")?;
    let keys = keys(rt.alloc(), 4)?;
    let config = Config::new(1, 8, keys, listed).map_err(|fault| fault.number())?;
    assert!(rt; has_its_numbers(&config) && has_its_keys(&config) && has_its_ids(&config));
    Ok(())
}

#[test]
fn a_set_of_replicas(rt: HostRuntime) {
    let mut set = ReplicaSet::new();
    assert!(rt; set.len() == 0);
    for id in [0u8, 63, 64, 255] {
        assert!(rt; set.insert(ReplicaId(id)) && !set.insert(ReplicaId(id)));
    }
    assert!(rt; set.len() == 4);
    assert!(rt; set.contains(ReplicaId(255)) && !set.contains(ReplicaId(254)));
}

#[test]
fn bytes_are_kept(rt: HostRuntime) -> Result<(), Fail> {
    let bytes = Bytes::from_vec([1, 2, 3].to_vec(rt.alloc())?);
    assert!(rt; bytes.as_slice() == [1, 2, 3].as_slice());
    assert!(rt; bytes.into_vec(rt.alloc())?.as_slice() == [1, 2, 3].as_slice());
    Ok(())
}

#[test]
fn a_part_of_a_shared_buffer_is_kept(rt: HostRuntime) -> Result<(), Fail> {
    let buffer = Arc::new(rt.alloc(), [1, 2, 3, 4, 5].to_vec(rt.alloc())?)?;
    let part = Bytes::part(&buffer, 1, 4)?;
    assert!(rt; part.as_slice() == [2, 3, 4].as_slice());
    assert!(rt; part.into_vec(rt.alloc())?.as_slice() == [2, 3, 4].as_slice());
    assert!(rt; buffer.as_slice() == [1, 2, 3, 4, 5].as_slice());
    Ok(())
}
