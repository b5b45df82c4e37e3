//! Signers that go on where another one of their seed has stopped, beside that one and another implementation's.

use crate::cases::{Case, array, halves, valid_case};
use crate::signers::{height, signs_alike, signs_as};
use lms_tree::{Height, SignFault, Signer, verify};
use std::alloc::Global;
use std::test::Fail;

/// What a signer is made of.
#[derive(Clone, Copy)]
struct Seed {
    height: Height,
    bottom: Option<Height>,
    identifier: [u8; 16],
    secret: [u8; 32],
}

impl Seed {
    /// The heights of the one tree, or of the top tree, and of the bottom trees, `-` for none, an identifier and a
    /// secret.
    fn parse(text: &str) -> Result<Seed, Fail> {
        let (top, rest) = halves(text);
        let (bottom, rest) = halves(rest);
        let (identifier, secret) = halves(rest);
        Ok(Seed {
            height: height(top)?.ok_or("no height")?,
            bottom: height(bottom)?,
            identifier: array(identifier)?,
            secret: array(secret)?,
        })
    }

    /// The signer that has used no leaf.
    fn signer(&self, alloc: Global) -> Result<Box<Signer>, Fail> {
        let signer = match self.bottom {
            None => Signer::from_seed(alloc, self.height, self.identifier, self.secret)?,
            Some(bottom) => {
                Signer::from_seed2(alloc, self.height, bottom, self.identifier, self.secret)?
            }
        };
        Ok(Box::new(alloc, signer)?)
    }

    /// The signer that goes on at this leaf, which is at most the number of leaves.
    fn signer_at(&self, alloc: Global, leaf: u32) -> Result<Box<Signer>, Fail> {
        let (height, identifier, secret) = (self.height, self.identifier, self.secret);
        if leaf > Signer::leaf_count_of(height, self.bottom) {
            return Err(Fail::new("no such leaf"));
        }
        let signer = match self.bottom {
            None => Signer::from_seed_at(alloc, height, identifier, secret, leaf)?,
            Some(bottom) => {
                Signer::from_seed2_at(alloc, height, bottom, identifier, secret, leaf)?
            }
        };
        Ok(Box::new(alloc, signer)?)
    }
}

/// Leaves from which signers go on, ascending, of each seed: the first and the last of a tree, the next tree's, the
/// end of all.
const LEAVES: &str = "\
0 1 31 32 => 5 - 000102030405060708090a0b0c0d0e0f 1111111111111111111111111111111111111111111111111111111111111111\n\
0 1 31 32 1023 1024 => 10 - 000102030405060708090a0b0c0d0e0f 1111111111111111111111111111111111111111111111111111111111111111\n\
0 1 31 32 33 1023 1024 => 5 5 000102030405060708090a0b0c0d0e0f 2222222222222222222222222222222222222222222222222222222222222222\n\
0 31 1023 1024 1025 => 5 10 000102030405060708090a0b0c0d0e0f 2222222222222222222222222222222222222222222222222222222222222222\n\
0 1 31 32 33 => 10 5 000102030405060708090a0b0c0d0e0f 2222222222222222222222222222222222222222222222222222222222222222\n\
0 1 1023 1024 1025 => 10 10 000102030405060708090a0b0c0d0e0f 2222222222222222222222222222222222222222222222222222222222222222\n\
";

/// Whether two signers have one key, this leaf next, and so many left.
fn stand_alike(one: &Signer, other: &Signer, leaf: u32) -> bool {
    one.public_key() == other.public_key()
        && one.next_leaf() == leaf
        && other.next_leaf() == leaf
        && one.leaves_left() == other.leaves_left()
}

/// A signer's next signature, if it has a leaf for it.
fn next_of(signer: &mut Signer) -> Result<Option<Vec<u8>>, SignFault> {
    match signer.sign(b"a message") {
        Ok(sig) => Ok(Some(sig)),
        Err(SignFault::Exhausted) => Ok(None),
        Err(fault) => Err(fault),
    }
}

/// Whether two signers answer alike, with one signature or with none.
fn answer_alike(one: &mut Signer, other: &mut Signer) -> Result<bool, SignFault> {
    let (own, wanted) = (next_of(one)?, next_of(other)?);
    Ok(own.as_deref() == wanted.as_deref())
}

/// Whether the signer that goes on at each of these leaves signs as the one that began at leaf 0, up to the next of
/// the leaves, and behind the last of them once more, if a leaf is left.
fn go_on_alike(alloc: Global, line: &str) -> Result<bool, Fail> {
    let (leaves, seed) = line.split_once(" => ").ok_or("no seed")?;
    let seed = Seed::parse(seed)?;
    let mut first = seed.signer(alloc)?;
    let mut later = seed.signer_at(alloc, 0)?;
    for leaf in leaves.split(" ") {
        let leaf = leaf.parse::<u32>()?;
        let many = leaf.saturating_sub(first.next_leaf());
        let alike = signs_alike(&mut later, &mut first, many)?;
        later = seed.signer_at(alloc, leaf)?;
        if !alike || !stand_alike(&later, &first, leaf) {
            return Ok(false);
        }
    }
    Ok(answer_alike(&mut later, &mut first)?)
}

#[test]
fn signers_that_go_on_sign_as_those_that_began_at_leaf_0(rt: HostRuntime) -> Result<(), Fail> {
    for line in LEAVES.lines() {
        assert!(rt; go_on_alike(rt.alloc(), line)?, "{line}");
    }
    Ok(())
}

/// Cases of another implementation: the case's name, the leaf that signed, and the seed.
const CASES: &str = "\
first 1 5 - 31c635aa95ecf2d28e39f18b79fdd758 45b171b720630b2e1424a6ae17e1359039813d92c98f4c4b6b7564c0cbf708ed\n\
five 31 5 - 31c635aa95ecf2d28e39f18b79fdd758 45b171b720630b2e1424a6ae17e1359039813d92c98f4c4b6b7564c0cbf708ed\n\
5/5:0 0 5 5 6bc6532a25c954af70b5a6fd30598b16 069eb785c371e5ccd35ec3ac60415a1804af98240ba358da8e70b97cd080c1fb\n\
5/5:1023 1023 5 5 6bc6532a25c954af70b5a6fd30598b16 069eb785c371e5ccd35ec3ac60415a1804af98240ba358da8e70b97cd080c1fb\n\
5/10:1024 1024 5 10 5f030a95bfb844172579dd390947ff98 0ff810360b83d29a13e47e7f3c6f655876b0d8321dab2daed779b5a4914b90af\n\
10/5:1024 1024 10 5 000102030405060708090a0b0c0d0e0f 2222222222222222222222222222222222222222222222222222222222222222\n\
";

/// Whether the signer that goes on at a leaf has the case's key, and signs its message so.
fn signs_case(alloc: Global, case: &Case, text: &str) -> Result<bool, Fail> {
    let (leaf, seed) = halves(text);
    let mut signer = Seed::parse(seed)?.signer_at(alloc, leaf.parse::<u32>()?)?;
    Ok(signer.public_key() == case.key && signs_as(&mut signer, case)?)
}

#[test]
fn signers_that_go_on_beside_another_implementation(rt: HostRuntime) -> Result<(), Fail> {
    for line in CASES.lines() {
        let (name, rest) = halves(line);
        let case = valid_case(rt.alloc(), name)?;
        assert!(rt; signs_case(rt.alloc(), &case, rest)?, "{line}");
    }
    Ok(())
}

/// How many leaves a key has, and its seed.
const ENDS: &str = "\
32 5 - 000102030405060708090a0b0c0d0e0f 1111111111111111111111111111111111111111111111111111111111111111\n\
1024 5 5 000102030405060708090a0b0c0d0e0f 2222222222222222222222222222222222222222222222222222222222222222\n\
32768 5 10 000102030405060708090a0b0c0d0e0f 2222222222222222222222222222222222222222222222222222222222222222\n\
32768 10 5 000102030405060708090a0b0c0d0e0f 2222222222222222222222222222222222222222222222222222222222222222\n\
1048576 10 10 000102030405060708090a0b0c0d0e0f 2222222222222222222222222222222222222222222222222222222222222222\n\
";

/// Whether a signer's next signature is valid.
fn signs_well(signer: &mut Signer) -> Result<bool, SignFault> {
    let sig = signer.sign(b"a message")?;
    Ok(verify(&signer.public_key(), b"a message", &sig) == Ok(()))
}

/// Whether a signer has no leaf left of so many.
fn is_used_up(signer: &mut Signer, count: u32) -> Result<bool, SignFault> {
    let is_at_end = signer.next_leaf() == count && signer.leaves_left() == 0;
    Ok(is_at_end && next_of(signer)?.is_none())
}

/// Whether the last of so many leaves signs, and none behind it.
fn goes_on_to_the_end(alloc: Global, line: &str) -> Result<bool, Fail> {
    let (count, seed) = halves(line);
    let count = count.parse::<u32>()?;
    let seed = Seed::parse(seed)?;
    let mut last = seed.signer_at(alloc, count.saturating_sub(1))?;
    let mut end = seed.signer_at(alloc, count)?;
    Ok(signs_well(&mut last)? && is_used_up(&mut last, count)? && is_used_up(&mut end, count)?)
}

#[test]
fn signers_that_go_on_at_the_last_leaf(rt: HostRuntime) -> Result<(), Fail> {
    for line in ENDS.lines() {
        assert!(rt; goes_on_to_the_end(rt.alloc(), line)?, "{line}");
    }
    Ok(())
}
