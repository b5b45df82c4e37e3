//! A tenant's part of the state, and what a request does to it.

ghost use Rattle.std.specs.Prelude.{◌≡◌, ◌==◌, ◌≤◌, IfOk, OnOk, IfSome, All, find, position, length, map};
ghost use Rattle.std.specs.Option.{option_copied};
ghost use Rattle.std.specs.FinMap as finite;
ghost use Rattle.service_model.specs.TenantStates.{replies_of, empty_tenant};
ghost use Rattle.service_model.specs.Steps.{Executes, IsTenantStep};
ghost use Rattle.tenant_parts.specs.Procedures.{procedure_of};

use crate::operation::{Operation, perform};
use bpf_machine::Procedure;
use host_types::{Bytes, ClientId, Reply, Request, SeqNo, TenantId};
use service_model::Outcome;
use std::alloc::{AllocError, Global};
use std::marker::Model;
use tenant_maps::TenantMap;

/// A tenant's part of the state: its procedures, its map and the last replies to its clients.
#[derive(Drop)]
pub struct TenantPart {
    alloc: Global,
    tenant: TenantId,
    procedures: Vec<Procedure>,
    entries: TenantMap,
    last_replies: Vec<Reply>,
}

impl Model for TenantPart {
    ghost use Rattle.std.specs.Prelude.{◌≤◌, map, length, All};
    ghost use Rattle.service_model.specs.TenantStates.{TenantState, replies_of};
    ghost use Rattle.service_model.specs.Equality.{tenant_code};
    ghost use Rattle.tenant_parts.specs.Procedures.{procedure_of};

    ghost Value = { TenantState };

    ghost coded = { tenant_code };

    ghost view = { λ p. record { tenant = p.tenant.0; procedures = map procedure_of p.procedures.items; entries = p.entries.entries; last_replies = replies_of p.last_replies.items } };

    ghost invariant = { λ p. (length p.procedures.items ≤ 64) × All (λ reply. length reply.result ≤ 265) p.last_replies.items };
}

impl TenantPart {
    /// The part of a tenant that has nothing. It takes no memory.
    pub fn new(alloc: Global, tenant: TenantId) -> TenantPart
        ensures { result ≡ empty_tenant tenant.0 }
    {
        TenantPart {
            alloc,
            tenant,
            procedures: Vec::new(alloc),
            entries: TenantMap::new(alloc),
            last_replies: Vec::new(alloc),
        }
    }

    /// The part of a tenant with these procedures, entries and last replies.
    pub fn with(
        alloc: Global,
        tenant: TenantId,
        procedures: Vec<Procedure>,
        entries: TenantMap,
        last_replies: Vec<Reply>,
    ) -> TenantPart
        requires procedures { length procedures.items ≤ 64 }
        requires replies { All (λ reply. length reply.result ≤ 265) last_replies.items }
        ensures tenant { result.tenant ≡ tenant.0 }
        ensures procedures { result.procedures ≡ map procedure_of procedures.items }
        ensures entries { result.entries ≡ entries.entries }
        ensures replies { result.last_replies ≡ replies_of last_replies.items }
    {
        TenantPart {
            alloc,
            tenant,
            procedures,
            entries,
            last_replies,
        }
    }

    /// The tenant whose part it is.
    pub fn tenant(&self) -> TenantId
        ensures { result.0 ≡ self.now.tenant }
    {
        self.tenant
    }

    /// Its procedures, by id ascending: at most 64.
    pub fn procedures(&self) -> &[Procedure]
        ensures value { map procedure_of result.now ≡ self.now.procedures }
        ensures few { length result.now ≤ 64 }
    {
        &self.procedures
    }

    /// The entries of its map.
    pub fn entries(&self) -> &TenantMap
        ensures { result.now.entries ≡ self.now.entries }
    {
        &self.entries
    }

    /// The last reply to a client.
    pub fn last_reply(&self, client: ClientId) -> Option<&Reply>
        ensures value { option_copied result ≡ finite.get self.now.last_replies client.0 }
        ensures short { IfSome (option_copied result) (λ reply. length reply.result ≤ 265) }
    {
        find_reply(&self.last_replies, client)
    }

    /// Takes a request of one of the tenant's clients as this number: what a state's `apply` does to the part, and
    /// what it answers. When it runs out of memory the part is unusable: it has its tenant, and nothing else is
    /// promised of it.
    pub fn apply_at(&mut self, number: SeqNo, request: &Request) -> Result<Outcome, AllocError>
        ensures step { IfOk result (λ outcome. IsTenantStep number.0 self.old request.now self.new outcome.reply outcome.kept × (outcome.number ≡ number)) }
        ensures tenant { self.new.tenant ≡ self.old.tenant }
    {
        let Some(last) = find_reply(&self.last_replies, request.client) else {
            return self.execute(number, request);
        };
        if request.time < last.time {
            return Ok(Outcome {
                number,
                reply: None,
                kept: false,
            });
        }
        if request.time == last.time {
            let reply = copy_of(self.alloc, last)?;
            return Ok(Outcome {
                number,
                reply: Some(reply),
                kept: true,
            });
        }
        self.execute(number, request)
    }

    /// Does the request's operation, and keeps the reply.
    fn execute(&mut self, number: SeqNo, request: &Request) -> Result<Outcome, AllocError>
        ensures executes { IfOk result (λ outcome. Executes number.0 self.old request.now self.new outcome.reply outcome.kept × (outcome.number ≡ number)) }
        ensures tenant { self.new.tenant ≡ self.old.tenant }
    {
        let result = perform(
            self.alloc,
            &mut self.procedures,
            &mut self.entries,
            request.client,
            Operation::read(request.op.as_slice()),
        )?;
        let reply = Reply {
            client: request.client,
            time: request.time,
            number,
            result: Bytes::from_vec(result),
        };
        let copy = copy_of(self.alloc, &reply)?;
        store_reply(&mut self.last_replies, reply)?;
        Ok(Outcome {
            number,
            reply: Some(copy),
            kept: false,
        })
    }
}

/// The last reply to a client among these.
fn find_reply(replies: &[Reply], client: ClientId) -> Option<&Reply>
    ensures { option_copied result ≡ find (λ reply. reply.client.0 == client.0) replies.now }
{
    replies.iter().find(|reply| reply.client.0 == client.0)
}

/// The index of the last reply to a client among these.
fn reply_index(replies: &[Reply], client: ClientId) -> Option<usize>
    ensures { result ≡ position (λ reply. reply.client.0 == client.0) replies.now }
{
    replies.iter().position(|reply| reply.client.0 == client.0)
}

/// A copy of a reply.
pub fn copy_of(alloc: Global, reply: &Reply) -> Result<Reply, AllocError>
    ensures { IfOk result (λ copy. copy ≡ reply.now) }
{
    Ok(Reply {
        client: reply.client,
        time: reply.time,
        number: reply.number,
        result: Bytes::from_vec(reply.result.as_slice().to_vec(alloc)?),
    })
}

/// Stores a reply as its client's last one.
fn store_reply(replies: &mut Vec<Reply>, reply: Reply) -> Result<(), AllocError>
    ensures stored { OnOk result (replies_of replies.new.items ≡ finite.insert (replies_of replies.old.items) reply.client.0 reply) }
    ensures short { length reply.result ≤ 265 → All (λ last. length last.result ≤ 265) replies.old.items → All (λ last. length last.result ≤ 265) replies.new.items }
{
    match reply_index(replies, reply.client) {
        Some(index) => {
            replies[index] = reply;
        }
        None => {
            replies.push(reply)?;
        }
    }
    Ok(())
}
