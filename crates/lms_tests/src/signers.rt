//! Keys and signatures that signers make, beside those of another implementation.

use crate::cases::{Case, array, halves, key_of, valid_case};
use host_types::PublicKey;
use lms_ots::digits;
use lms_tree::{Height, KeySource, SignFault, Signer, verify};
use std::alloc::{AllocError, Global};
use std::test::Fail;

/// The heights of the top tree and of the bottom trees, `-` for none, an identifier, a seed and the key over them.
const KEYS: &str = "\
5 5 \
000102030405060708090a0b0c0d0e0f \
2222222222222222222222222222222222222222222222222222222222222222 \
000000020000000500000003000102030405060708090a0b0c0d0e0ff8700e5ada347d7e9bbee5f0dfb2a4e6d94bd8856519a669bac3d061eed4f415\n\
5 5 \
6bc6532a25c954af70b5a6fd30598b16 \
069eb785c371e5ccd35ec3ac60415a1804af98240ba358da8e70b97cd080c1fb \
0000000200000005000000036bc6532a25c954af70b5a6fd30598b1681ab6cfe2855537a32b5700010a4daebc1c1bfea83785b27f1a81db0527fe86f\n\
5 10 \
000102030405060708090a0b0c0d0e0f \
2222222222222222222222222222222222222222222222222222222222222222 \
000000020000000500000003000102030405060708090a0b0c0d0e0ff8700e5ada347d7e9bbee5f0dfb2a4e6d94bd8856519a669bac3d061eed4f415\n\
10 5 \
000102030405060708090a0b0c0d0e0f \
2222222222222222222222222222222222222222222222222222222222222222 \
000000020000000600000003000102030405060708090a0b0c0d0e0f51284c545277537a0cc7352b07269b5925b8ee4bfd605703b08655e0820ae6ad\n\
5 - \
00000000000000000000000000000000 \
0000000000000000000000000000000000000000000000000000000000000000 \
0000000500000003000000000000000000000000000000007e14ed0d8b44b61918a5647b0567a49e969e0454cb0f14df2a62b1ca787edcb0\n\
5 - \
000102030405060708090a0b0c0d0e0f \
1111111111111111111111111111111111111111111111111111111111111111 \
0000000500000003000102030405060708090a0b0c0d0e0f2cdd4a5bf162e109fc106952210cafed891e470667f100962c910a33cac7afc4\n\
5 - \
31c635aa95ecf2d28e39f18b79fdd758 \
45b171b720630b2e1424a6ae17e1359039813d92c98f4c4b6b7564c0cbf708ed \
000000050000000331c635aa95ecf2d28e39f18b79fdd758c4bad6fbbcf0a0d4fb83d6a9d67369c87e67453be8a541ec1083e7904542d27d\n\
5 - \
354b4087b88b37f5c0529baab950a363 \
b2dfbb0deece7479444346ce9820fc2cfb82ae8dab8786bfabf5ef578e55c25c \
0000000500000003354b4087b88b37f5c0529baab950a363d2e9139f3225a86c546e9f3633b5747863111ef040d7e11e5a12162bb8fdf731\n\
5 - \
48c10cad86b416fae1bc02d0d460f3db \
756780b9fb119fdce5d2c188f11fc4c9aac2265d9e9c8f189338e0ac1c1c1b95 \
000000050000000348c10cad86b416fae1bc02d0d460f3db22c3f1e44f9892944924507669b7578abe9f6c1791bd3455f0b93c0b742274f4\n\
5 - \
6e41d77279bf5bd8c687069e87769e95 \
46243ec8dcc1eca2c44931eeca88321849c1991785f9b8cf5371f951ddd28d1b \
00000005000000036e41d77279bf5bd8c687069e87769e95d22a4217f63ff9086a0857c8b5eebba952f7177308e4724acd709f45733c71be\n\
5 - \
0a037b8aaf7425703a1b94a0435bb812 \
81e4a5f580421aff7199167a36f4577dd6a121801ebe93d95e348792063a0bd1 \
00000005000000030a037b8aaf7425703a1b94a0435bb812e4d27c28549f6640f49f6b16722936fbe916e8b9cdc49764d8ccaa1850a5ba4b\n\
5 - \
356066ac17ab6adb73dbbdef973a032e \
85a51bcdfd5fac55fc7439dc685a9a903e5386f9bb1878095a8bd879636370cb \
0000000500000003356066ac17ab6adb73dbbdef973a032ec61ab59b5a4a0100febaaccc0d8f495cc00af6f6766251b557c3b3cdc6d5978b\n\
";

/// A height by its number; `-` is none.
pub(crate) fn height(text: &str) -> Result<Option<Height>, Fail> {
    if text == "-" {
        Ok(None)
    } else if text == "5" {
        Ok(Some(Height::H5))
    } else if text == "10" {
        Ok(Some(Height::H10))
    } else {
        Err(Fail::new("no such height"))
    }
}

/// A signer of one tree, or with bottom trees. The seeds are parameters, so that a proof computes nothing of them; a box
/// is dropped in one step of a proof.
fn signer(
    alloc: Global,
    top: Height,
    bottom: Option<Height>,
    identifier: [u8; 16],
    seed: [u8; 32],
) -> Result<Box<Signer>, AllocError> {
    let signer = match bottom {
        None => Signer::from_seed(alloc, top, identifier, seed)?,
        Some(bottom) => Signer::from_seed2(alloc, top, bottom, identifier, seed)?,
    };
    Ok(Box::new(alloc, signer)?)
}

/// The signer of a line of `KEYS`, and the public key that it should have.
fn signer_of(alloc: Global, line: &str) -> Result<(Box<Signer>, PublicKey), Fail> {
    let (top, rest) = halves(line);
    let (bottom, rest) = halves(rest);
    let (identifier, rest) = halves(rest);
    let (seed, key) = halves(rest);
    let key = key_of(key)?;
    let top = height(top)?.ok_or("no height")?;
    let signer = signer(
        alloc,
        top,
        height(bottom)?,
        array(identifier)?,
        array(seed)?,
    )?;
    Ok((signer, key))
}

/// Whether the signer of a line of `KEYS` has the key there.
fn has_its_key(alloc: Global, line: &str) -> Result<bool, Fail> {
    let (signer, key) = signer_of(alloc, line)?;
    Ok(signer.public_key() == key)
}

#[test]
fn public_keys_of_another_implementation(rt: HostRuntime) -> Result<(), Fail> {
    for line in KEYS.lines() {
        assert!(rt; has_its_key(rt.alloc(), line)?, "{line}");
    }
    Ok(())
}

#[test]
fn digits_of_zeros_and_of_ones(rt: HostRuntime) {
    let mut want = [0u8; 67];
    want[64] = 3;
    want[65] = 12;
    assert!(rt; digits(&[0; 32]).as_slice() == want.as_slice());
    let mut want = [15u8; 67];
    want[64] = 0;
    want[65] = 0;
    want[66] = 0;
    assert!(rt; digits(&[0xff; 32]).as_slice() == want.as_slice());
}

/// Whether the signer is at this leaf of its one tree, and signs with it.
fn signs(signer: &mut Signer, key: &PublicKey, leaf: u32) -> Result<bool, SignFault> {
    let is_there = signer.next_leaf() == leaf && signer.leaves_left() == 32u32.saturating_sub(leaf);
    let body = leaf.to_be_bytes();
    let sig = signer.sign(&body)?;
    Ok(is_there && verify(key, &body, &sig) == Ok(()))
}

/// Whether each of its 32 leaves signs once.
fn signs_32_times(signer: &mut Signer) -> Result<bool, SignFault> {
    let key = signer.public_key();
    let mut right = true;
    for leaf in 0..32u32 {
        right = signs(signer, &key, leaf)? && right;
    }
    let refused = signer.sign(b"once more").err() == Some(SignFault::Exhausted);
    Ok(right && refused && signer.next_leaf() == 32)
}

#[test]
fn a_tree_of_height_5_signs_32_times(rt: HostRuntime) -> Result<(), Fail> {
    let mut signer = signer(rt.alloc(), Height::H5, None, [7; 16], [9; 32])?;
    assert!(rt; signs_32_times(&mut signer)?);
    Ok(())
}

/// Whether a case's key is this signer's, and its signature the second that the signer makes of its message.
fn is_second_of(case: &Case, signer: &mut Signer) -> Result<bool, SignFault> {
    signer.sign(&case.message)?;
    let second = signer.sign(&case.message)?;
    Ok(signer.public_key() == case.key && second.as_slice() == case.signature.as_slice())
}

#[test]
fn signatures_of_another_implementation(rt: HostRuntime) -> Result<(), Fail> {
    let case = valid_case(rt.alloc(), "first")?;
    let line = KEYS.lines().nth(6).ok_or("no third key of one tree")?;
    let (mut signer, _) = signer_of(rt.alloc(), line)?;
    assert!(rt; is_second_of(&case, &mut signer)?);
    Ok(())
}

/// The leaves that a signature of heights 5 and 5 names: the top tree's and the bottom tree's.
fn leaves(sig: &[u8]) -> Option<(&[u8], &[u8])> {
    Some((sig.get(4..8)?, sig.get(2408..2412)?))
}

/// Numbers of signatures at heights 5 and 5 with the leaves that they name, in hex.
const LEAVES: &str = "\
0 00000000 00000000\n\
31 00000000 0000001f\n\
32 00000001 00000000\n\
1023 0000001f 0000001f\n\
";

/// Whether the signature of this number names the leaves that `LEAVES` says, if it has the number.
fn names_its_leaves(number: u32, sig: &[u8]) -> Result<bool, Fail> {
    for line in LEAVES.lines() {
        let (own, rest) = halves(line);
        let (top, bottom) = halves(rest);
        if own.parse::<u32>()? == number {
            let named = leaves(sig).ok_or("too short")?;
            return Ok(
                named.0 == array::<4>(top)?.as_slice() && named.1 == array::<4>(bottom)?.as_slice(),
            );
        }
    }
    Ok(true)
}

/// Whether a signature is that of the valid case of its number at heights 5 and 5, where there is one.
fn is_as_listed(alloc: Global, number: u32, sig: &[u8]) -> Result<bool, Fail> {
    let name = match number {
        0 => "5/5:0",
        1023 => "5/5:1023",
        _ => return Ok(true),
    };
    Ok(valid_case(alloc, name)?.signature.as_slice() == sig)
}

/// Whether a signer's next signature has this number, and is as it should be.
fn signs_next(alloc: Global, signer: &mut Signer, number: u32) -> Result<bool, Fail> {
    let left = 1024u32.saturating_sub(number);
    let is_next = signer.next_leaf() == number && signer.leaves_left() == left;
    let sig = signer.sign(b"")?;
    Ok(is_next && names_its_leaves(number, &sig)? && is_as_listed(alloc, number, &sig)?)
}

/// Whether a signer refuses to sign, since no leaf is left.
fn is_exhausted(signer: &mut Signer) -> bool {
    signer.sign(b"").err() == Some(SignFault::Exhausted)
        && signer.next_leaf() == 1024
        && signer.leaves_left() == 0
}

#[test]
fn heights_5_and_5_to_the_end(rt: HostRuntime) -> Result<(), Fail> {
    let line = KEYS.lines().nth(1).ok_or("no second key")?;
    let (mut signer, _) = signer_of(rt.alloc(), line)?;
    for number in 0..1024u32 {
        assert!(rt; signs_next(rt.alloc(), &mut signer, number)?, "{number}");
    }
    assert!(rt; is_exhausted(&mut signer) && is_exhausted(&mut signer));
    Ok(())
}

/// Cases whose signature is their signer's 1,025th, the first of another bottom tree: the case's name, and then what
/// a line of `KEYS` has.
const ACROSS: &str = "\
5/10:1024 5 10 \
5f030a95bfb844172579dd390947ff98 \
0ff810360b83d29a13e47e7f3c6f655876b0d8321dab2daed779b5a4914b90af \
0000000200000005000000035f030a95bfb844172579dd390947ff98dc6245832ff70ada05db785342d5efa4d5c7625b645af0747925d4157c8aff9a\n\
10/5:1024 10 5 \
000102030405060708090a0b0c0d0e0f \
2222222222222222222222222222222222222222222222222222222222222222 \
000000020000000600000003000102030405060708090a0b0c0d0e0f51284c545277537a0cc7352b07269b5925b8ee4bfd605703b08655e0820ae6ad\n\
";

/// Uses so many leaves of a signer.
fn use_leaves(signer: &mut Signer, many: u32) -> Result<(), SignFault> {
    for _ in 0..many {
        let _sig = signer.sign(b"")?;
    }
    Ok(())
}

/// Whether a signer's next signature of a case's message is the case's.
pub(crate) fn signs_as(signer: &mut Signer, case: &Case) -> Result<bool, Fail> {
    Ok(signer.sign(&case.message)?.as_slice() == case.signature.as_slice())
}

/// Whether the 1,025th signature of a line's signer is its case's.
fn changes_trees(alloc: Global, line: &str) -> Result<bool, Fail> {
    let (name, rest) = halves(line);
    let case = valid_case(alloc, name)?;
    let (mut signer, key) = signer_of(alloc, rest)?;
    let is_same_key = signer.public_key() == key && key == case.key;
    use_leaves(&mut signer, 1024)?;
    Ok(is_same_key && signs_as(&mut signer, &case)? && signer.next_leaf() == 1025)
}

#[test]
fn heights_5_and_10_across_a_change_of_trees(rt: HostRuntime) -> Result<(), Fail> {
    for line in ACROSS.lines() {
        assert!(rt; changes_trees(rt.alloc(), line)?, "{line}");
    }
    Ok(())
}

/// A source and a signer of one seed.
fn source_and_signer(
    alloc: Global,
    bottom: Option<Height>,
    identifier: [u8; 16],
    seed: [u8; 32],
) -> Result<(Box<KeySource>, Box<Signer>), AllocError> {
    let source = KeySource::from_seed(alloc, Height::H5, bottom, identifier, seed)?;
    let source = Box::new(alloc, source)?;
    let signer = signer(alloc, Height::H5, bottom, identifier, seed)?;
    Ok((source, signer))
}

/// A source and a signer of the identifier and the seed of a line of `KEYS`.
fn source_and_signer_of(
    alloc: Global,
    line: &str,
    bottom: Option<Height>,
) -> Result<(Box<KeySource>, Box<Signer>), Fail> {
    let (_, rest) = halves(line);
    let (_, rest) = halves(rest);
    let (identifier, rest) = halves(rest);
    let (seed, _) = halves(rest);
    Ok(source_and_signer(alloc, bottom, array(identifier)?, array(seed)?)?)
}

/// Whether a signer gives so many signatures of another's, byte for byte.
pub(crate) fn signs_alike(
    signer: &mut Signer,
    other: &mut Signer,
    many: u32,
) -> Result<bool, Fail> {
    for _ in 0..many {
        if signer.sign(b"a message")?.as_slice() != other.sign(b"a message")?.as_slice() {
            return Ok(false);
        }
    }
    Ok(true)
}

/// Whether a new signer of a source gives so many signatures of another's that has used no leaf.
fn begins_alike(
    alloc: Global,
    source: &KeySource,
    other: &mut Signer,
    many: u32,
) -> Result<bool, Fail> {
    let mut signer = Box::new(alloc, source.signer(alloc)?)?;
    Ok(
        other.next_leaf() == 0
            && signer.public_key() == other.public_key()
            && signs_alike(&mut signer, other, many)?,
    )
}

/// Whether new signers of a source begin as each of two others does.
fn begin_alike(
    alloc: Global,
    source: &KeySource,
    one: &mut Signer,
    other: &mut Signer,
    many: u32,
) -> Result<bool, Fail> {
    Ok(begins_alike(alloc, source, one, many)? && begins_alike(alloc, source, other, many)?)
}

/// Whether signers of a source sign as the seed's own signer does, also one that began before another signed, and one
/// that begins behind it.
fn sources_sign_alike(alloc: Global, bottom: Option<Height>, many: u32) -> Result<bool, Fail> {
    let line = KEYS.lines().nth(1).ok_or("no second key")?;
    let (source, mut signer) = source_and_signer_of(alloc, line, bottom)?;
    let mut early = Box::new(alloc, source.signer(alloc)?)?;
    begin_alike(alloc, &source, &mut signer, &mut early, many)
}

#[test]
fn signers_of_a_source_sign_as_those_of_its_seed(rt: HostRuntime) -> Result<(), Fail> {
    assert!(rt; sources_sign_alike(rt.alloc(), None, 32)?);
    assert!(rt; sources_sign_alike(rt.alloc(), Some(Height::H5), 33)?);
    Ok(())
}
