//! Why a head is that of no configuration.

use host_types::limits::MAX_CLIENTS;
use std::alloc::{AllocError, Global};
use toml::{Table, Value};

/// The least id of a client.
const FIRST_CLIENT: i64 = 16;

/// The most tenants of a configuration.
const MAX_TENANTS: usize = 8;

/// Why the head of a document is that of no configuration: the first of its limits that is passed.
pub(crate) fn broken_limit(alloc: Global, document: &Table) -> Result<Option<String>, AllocError> {
    for (key, most) in [("f", 3), ("k", 8)] {
        match document.get(key) {
            Some(Value::Integer(number)) if *number < 1 || *number > most => {
                let text = format!(in alloc;
                    "{key} takes a number from 1 to {most}, and not {number}"
                )?;
                return Ok(Some(text));
            }
            _ => {}
        }
    }
    let Some(clients) = clients_of(document) else {
        return Ok(None);
    };
    broken_by_clients(alloc, clients)
}

fn clients_of(document: &Table) -> Option<&Vec<Value>> {
    document.get("client")?.as_array()
}

fn broken_by_clients(alloc: Global, clients: &[Value]) -> Result<Option<String>, AllocError> {
    let mut ids: Vec<i64> = Vec::new(alloc);
    let mut tenants: Vec<i64> = Vec::new(alloc);
    for client in clients {
        if let Some(id) = number_at(client, "id") {
            if id < FIRST_CLIENT {
                let text = format!(in alloc;
                    "the id of a client is {FIRST_CLIENT} or more, and not {id}"
                )?;
                return Ok(Some(text));
            }
            if ids.contains(&id) {
                return Ok(Some(format!(in alloc; "two clients have the id {id}")?));
            }
            ids.push(id)?;
        }
        if let Some(tenant) = number_at(client, "tenant") {
            if !tenants.contains(&tenant) {
                tenants.push(tenant)?;
            }
        }
    }
    if ids.len() > MAX_CLIENTS {
        return Ok(Some(format!(in alloc; "there are at most {MAX_CLIENTS} clients")?));
    }
    if tenants.len() > MAX_TENANTS {
        return Ok(Some(format!(in alloc; "there are at most {MAX_TENANTS} tenants")?));
    }
    Ok(None)
}

fn number_at(client: &Value, key: &str) -> Option<i64> {
    client.get(key)?.as_integer()
}
