//! What steps make of the queue, and changed copies of bytes.

ghost use Rattle.std.specs.Prelude.{◌≡◌, ◌++◌, bytes_eq, IfOk, OnOk, filter as kept, find, map, not};
ghost use Rattle.std.specs.Option.{option_map};
ghost use Rattle.world_queue.specs.declared.named.Named.{Named as NamedMessage};
ghost use Rattle.world_queue.specs.Changes.{changed, cut, damaged, flipped, mangled};
ghost use Rattle.world_queue.specs.Letters.{is_meant};

use crate::named::Named;
use crate::queue::{Letter, Queue};
use host_types::Bytes;
use script_text::{Damage, Filter, MessageName};
use std::alloc::{AllocError, Global};
use std::sync::Arc;

impl Queue {
    /// Removes the letters that are meant.
    pub fn discard(&mut self, filter: &Filter)
        ensures { self.new ≡ kept (λ l. not (is_meant filter.now l)) self.old }
    {
        self.letters.retain(|letter| !letter.is_meant_by(filter));
    }

    /// Queues each letter that is meant once more.
    pub fn repeat(&mut self, filter: &Filter) -> Result<(), AllocError>
        ensures { OnOk result (self.new ≡ self.old ++ kept (is_meant filter.now) self.old) }
    {
        for index in 0..self.letters.len() {
            if let Some(letter) = self.letters.get(index) {
                if letter.is_meant_by(filter) {
                    let letter = letter.copy_to(letter.to)?;
                    self.push(letter)?;
                }
            }
        }
        Ok(())
    }

    /// Queues a changed copy of each letter that is meant.
    pub fn mangle(&mut self, filter: &Filter, damage: Damage) -> Result<(), AllocError>
        ensures { OnOk result (self.new ≡ self.old ++ map (mangled damage) (kept (is_meant filter.now) self.old)) }
    {
        for index in 0..self.letters.len() {
            if let Some(letter) = self.letters.get(index) {
                if letter.is_meant_by(filter) {
                    let letter = letter.mangled(self.alloc, damage)?;
                    self.push(letter)?;
                }
            }
        }
        Ok(())
    }
}

impl Letter {
    /// The same letter with changed bytes.
    fn mangled(&self, alloc: Global, damage: Damage) -> Result<Letter, AllocError>
        ensures { IfOk result (λ l. l ≡ mangled damage self.now) }
    {
        let bytes = damaged(alloc, self.bytes(), damage)?;
        Ok(Letter {
            to: self.to,
            from: self.from,
            kind: self.kind,
            bytes: Arc::new(alloc, Bytes::from_vec(bytes))?,
        })
    }
}

/// A changed copy of bytes. Where there are too few of them it is the same.
fn damaged(alloc: Global, bytes: &[u8], damage: Damage) -> Result<Vec<u8>, AllocError>
    ensures { IfOk result (λ v. v.items ≡ damaged damage bytes.now) }
{
    match damage {
        Damage::Cut(many) => Vec::from_slice(alloc, without_last(bytes, many)),
        Damage::Flip(places) => {
            let mut copy = Vec::from_slice(alloc, bytes)?;
            flip(&mut copy, places);
            Ok(copy)
        }
    }
}

/// A copy of bytes, changed where this says how.
pub fn changed(alloc: Global, bytes: &[u8], change: Option<Damage>) -> Result<Vec<u8>, AllocError>
    ensures { IfOk result (λ v. v.items ≡ changed change bytes.now) }
{
    match change {
        Some(damage) => damaged(alloc, bytes, damage),
        None => Vec::from_slice(alloc, bytes),
    }
}

/// Bytes without so many of the last ones.
fn without_last(bytes: &[u8], many: u64) -> &[u8]
    ensures { result.now ≡ cut many bytes.now }
{
    match usize::try_from(many) {
        Ok(many) if many <= bytes.len() => &bytes[..bytes.len() - many],
        _ => bytes,
    }
}

/// Flips the lowest bit of the byte so many places before the last one.
fn flip(bytes: &mut [u8], places: u64)
    ensures { bytes.new ≡ flipped places bytes.old }
{
    if let Ok(places) = usize::try_from(places) {
        if places < bytes.len() {
            let index = bytes.len() - 1 - places;
            bytes[index] ^= 1;
        }
    }
}

/// The message of a name.
pub fn find_named<'a>(named: &'a [Named], name: &MessageName) -> Option<&'a Named>
    ensures { option_map (λ n. n.now) result ≡ find (λ (n : NamedMessage). bytes_eq n.name name.now) named.now }
{
    named
        .iter()
        .find(|named| named.name.as_slice() == name.as_slice())
}
