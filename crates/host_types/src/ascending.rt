//! Lists in ascending order without repeats.

ghost use Rattle.std.specs.Prelude.{◌≡◌, ◌≢◌, ◌<◌, ℕ, MatchBool, length, slice_index_or, take_while, nat_lt};
ghost use Rattle.host_types.specs.Configuration.{insert_sorted};

use crate::{ClientId, TenantId};
use arrayvec::ArrayVec;

/// A value that lists keep in the order of its number.
pub(crate) trait Numbered: Copy {
    ghost number: { Self → ℕ };

    fn number(&self) -> u32
        ensures { result ≡ number self.now };
}

impl Numbered for TenantId {
    ghost number = { λ tenant. tenant.0 };

    fn number(&self) -> u32 {
        self.0
    }
}

impl Numbered for ClientId {
    ghost number = { λ client. client.0 };

    fn number(&self) -> u32 {
        self.0
    }
}

/// The index of this one among ascending ones: how many are below it.
fn index_of<T: Numbered>(all: &[T], one: T) -> usize
    ensures { result ≡ length (take_while (λ held. nat_lt (T.number held) (T.number one)) all.now) }
{
    all.iter()
        .take_while(|held| held.number() < one.number())
        .count()
}

/// Whether this one is at the index.
fn is_at<T: Numbered>(all: &[T], at: usize, one: T) -> bool
    ensures { MatchBool result ((at < length all.now) × (T.number (slice_index_or all.now at one) ≡ T.number one)) (at < length all.now → T.number (slice_index_or all.now at one) ≢ T.number one) }
{
    at < all.len() && all[at].number() == one.number()
}

/// Inserts this one among ascending ones, unless it is there; false where there is no room.
pub(crate) fn insert_sorted<T: Numbered, const N: usize>(all: &mut ArrayVec<T, N>, one: T) -> bool
    ensures { MatchBool result (all.new.items ≡ insert_sorted T.number one all.old.items) (N < length (insert_sorted T.number one all.old.items)) }
{
    let at = index_of(all.as_slice(), one);
    if is_at(all.as_slice(), at, one) {
        return true;
    }
    if all.is_full() {
        return false;
    }
    all.insert(at, one);
    true
}
