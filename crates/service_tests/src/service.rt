//! A service that is asked line by line: what clients get, and states as bytes.

use crate::answers::FULL_STATE;
use crate::asked::{bytes_of, config, halves, request_of};
use hex::encode;
use host_types::{ClientId, Config, Request};
use service_core::{Outcome, State};
use sha2::{Digest, Sha256};
use std::alloc::Global;
use std::sync::Arc;
use std::test::Fail;

/// A service under a configuration.
#[derive(Drop)]
pub(crate) struct Service {
    pub(crate) alloc: Global,
    pub(crate) config: Arc<Config>,
    pub(crate) state: State,
}

impl Service {
    /// The first state under a configuration.
    pub(crate) fn new(alloc: Global, pairs: &str) -> Result<Service, Fail> {
        let config = config(alloc, pairs)?;
        let state = State::genesis(alloc, config.clone()?)?;
        Ok(Service {
            alloc,
            config,
            state,
        })
    }

    /// Applies a request, or the null request, where the conditions hold.
    pub(crate) fn apply(&mut self, request: Option<&Request>) -> Result<Outcome, Fail> {
        let is_listed = match request {
            Some(request) => self.state.is_listed(request.client),
            None => true,
        };
        if self.state.number().0 > 10_000 || !is_listed {
            return Err(Fail::new("can't be applied"));
        }
        Ok(self.state.apply(request)?)
    }

    /// What a client gets for an operation at a time: a number and a result, whether it was kept; or `-`.
    fn asked(&mut self, client: &str, rest: &str) -> Result<String, Fail> {
        let request = request_of(self.alloc, client, rest)?;
        let Outcome { reply, kept, .. } = self.apply(Some(&request))?;
        let Some(reply) = reply else {
            return Ok(String::from_str(self.alloc, "-")?);
        };
        let kept = if kept { "kept " } else { "" };
        let number = reply.number.0;
        let result = encode(self.alloc, reply.result.as_slice())?;
        Ok(format!(in self.alloc; "{kept}{number} {result}")?)
    }

    /// The state as bytes, which are read back as this state.
    fn bytes(&self) -> Result<String, Fail> {
        let bytes = self.state.to_bytes()?;
        if self.state.digest().0 != <Sha256 as Digest>::digest(bytes.as_slice()) {
            return Err(Fail::new("another digest"));
        }
        Ok(encode(self.alloc, bytes.as_slice())?)
    }

    /// Wants the state read back from its bytes, with its bytes, digest and number.
    pub(crate) fn read_again(&self) -> Result<(), Fail> {
        let bytes = self.state.to_bytes()?;
        let read = State::from_bytes(self.alloc, self.config.clone()?, &bytes)?;
        let is_same = read.to_bytes()?.as_slice() == bytes.as_slice()
            && read.digest().0 == self.state.digest().0
            && read.number().0 == self.state.number().0;
        if is_same {
            Ok(())
        } else {
            Err(Fail::new("another state is read"))
        }
    }

    /// Asks for an operation so many times as client 100, at the times from 1 on.
    fn times(&mut self, rest: &str) -> Result<(), Fail> {
        let (count, op) = halves(rest);
        for time in 1..=count.parse::<u32>()? {
            let asked = format!(in self.alloc; "{time} {op}")?;
            self.asked("100", &asked)?;
        }
        Ok(())
    }

    /// Puts entries by procedure 0 as client 100: from 0 on, each key with its number in the first four
    /// bytes. Each has to answer 0.
    fn fill(&mut self, count: &str) -> Result<(), Fail> {
        for number in 0..count.parse::<u32>()? {
            let time = u64::from(number) + 1;
            let asked = format!(in self.alloc; "{time} call 0 {number:08x}")?;
            let found = self.asked("100", &asked)?;
            if !found.ends_with(" 000000000000000000") {
                return Err(Fail::new("an entry is refused"));
            }
        }
        Ok(())
    }

    /// What is known of a client: `last` its last reply's number, `time` its last time.
    fn known(&self, what: &str, client: &str) -> Result<String, Fail> {
        let client = ClientId(client.parse()?);
        let known = if what == "last" {
            self.state.last_reply(client).map(|reply| reply.number.0)
        } else {
            self.state.last_time(client)
        };
        match known {
            Some(known) => Ok(format!(in self.alloc; "{known}")?),
            None => Ok(String::from_str(self.alloc, "-")?),
        }
    }

    /// The answer to a line.
    fn answer(&mut self, asked: &str) -> Result<String, Fail> {
        let (verb, rest) = halves(asked);
        if verb == "number" {
            let number = self.state.number().0;
            Ok(format!(in self.alloc; "{number}")?)
        } else if verb == "bytes" {
            self.bytes()
        } else if verb == "length" {
            let length = self.state.to_bytes()?.len();
            Ok(format!(in self.alloc; "{length}")?)
        } else if verb == "last" || verb == "time" {
            self.known(verb, rest)
        } else {
            self.asked(verb, rest)
        }
    }

    /// Takes the state of these bytes.
    fn read(&mut self, text: &str) -> Result<(), Fail> {
        let bytes = bytes_of(self.alloc, text)?;
        self.state = State::from_bytes(self.alloc, self.config.clone()?, &bytes)?;
        Ok(())
    }

    /// Takes the null request, which has no reply.
    fn take_null(&mut self) -> Result<(), Fail> {
        let outcome = self.apply(None)?;
        if outcome.reply.is_some() || outcome.kept {
            return Err(Fail::new("a reply to the null request"));
        }
        Ok(())
    }

    /// Does what a line says that has no answer.
    fn act(&mut self, line: &str) -> Result<(), Fail> {
        let (verb, rest) = halves(line);
        if verb == "clients" {
            *self = Service::new(self.alloc, rest)?;
            Ok(())
        } else if verb == "read" {
            self.read(rest)
        } else if verb == "null" {
            self.take_null()
        } else if verb == "fill" {
            self.fill(rest)
        } else if verb == "times" {
            self.times(rest)
        } else {
            Err(Fail::new("no such line"))
        }
    }

    /// Does what a line says, and returns whether its answer is the one that it wants, if it wants one.
    pub(crate) fn line(&mut self, line: &str) -> Result<bool, Fail> {
        let Some((asked, wanted)) = line.split_once(" => ") else {
            self.act(line)?;
            return Ok(true);
        };
        let wanted = if wanted == "full" { FULL_STATE } else { wanted };
        let found = self.answer(asked)?;
        self.read_again()?;
        Ok(found.as_str() == wanted)
    }

    /// Takes a client's request, or the null request, whatever its answer.
    pub(crate) fn take(&mut self, line: &str) -> Result<(), Fail> {
        if line == "null" {
            return self.take_null();
        }
        let (client, rest) = halves(line);
        self.asked(client, rest)?;
        Ok(())
    }
}
