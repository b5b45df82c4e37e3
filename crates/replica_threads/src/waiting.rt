//! Whether a replica waits for a request.

use byz_world::{Done, Input, Row};
use host_types::ClientId;
use pbft_codec::{Body, Role};
use std::alloc::Global;

/// The greatest time of each client's requests that came, and of those that were answered.
#[derive(Drop)]
pub(crate) struct Waiting {
    clients: Vec<Times>,
}

#[derive(Clone, Copy, Debug, PartialEq, Eq)]
struct Times {
    client: ClientId,
    asked: u64,
    answered: u64,
}

impl Waiting {
    pub(crate) fn new(alloc: Global) -> Waiting {
        Waiting {
            clients: Vec::new(alloc),
        }
    }

    /// The replica waits for nothing.
    pub(crate) fn clear(&mut self) {
        self.clients.clear();
    }

    /// Whether a request has come that was not answered.
    pub(crate) fn is_waiting(&self) -> bool {
        self.clients
            .iter()
            .any(|times| times.asked > times.answered)
    }

    /// A replica gave a row: a request came, or some were answered. A state that was installed is taken to answer all that
    /// came before, since a replica that lags must not leave its view for what the others have executed.
    pub(crate) fn note(&mut self, row: &Row) {
        if let Input::Message(message) = row.input() {
            if let (Body::Request(request), (Role::Client, id)) = (
                message.body(),
                message.signer(),
            ) {
                self.ask(ClientId(id), request.time);
            }
        }
        for output in row.outputs() {
            if let Body::Reply(reply) = output.message.body() {
                self.answer(reply.client, reply.time);
            }
        }
        if row
            .done()
            .iter()
            .any(|done| matches!(done, Done::Installed { .. }))
        {
            self.answer_all();
        }
    }

    fn ask(&mut self, client: ClientId, time: u64) {
        for times in self.clients.iter_mut() {
            if times.client == client {
                times.asked = times.asked.max(time);
                return;
            }
        }
        let _ = self.clients.push(Times {
            client,
            asked: time,
            answered: 0,
        });
    }

    fn answer(&mut self, client: ClientId, time: u64) {
        for times in self.clients.iter_mut() {
            if times.client == client {
                times.answered = times.answered.max(time);
            }
        }
    }

    fn answer_all(&mut self) {
        for times in self.clients.iter_mut() {
            times.answered = times.asked;
        }
    }
}
