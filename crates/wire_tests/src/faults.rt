//! Names and numbers of faults.

use client_session::SessionFault;
use host_types::ConfigFault;
use lms_tree::{SigFault, SignFault};
use pbft_codec::CodecFault;
use seal::SealFault;
use std::alloc::{AllocError, Global};
use std::test::Fail;

const CONFIG: &str = "BadF 1 WrongReplicaCount 2 BadInterval 3 DuplicateClient 4 TooMany 6 ";

fn config_faults(alloc: Global) -> Result<String, AllocError> {
    let mut text = String::new(alloc);
    for fault in [
        ConfigFault::BadF,
        ConfigFault::WrongReplicaCount,
        ConfigFault::BadInterval,
        ConfigFault::DuplicateClient,
        ConfigFault::TooMany,
    ] {
        let number = fault.number();
        text.push_str(&format!(in alloc; "{fault} {number} ")?)?;
    }
    Ok(text)
}

const CODEC: &str = "\
Truncated 1 Trailing 2 BadKind 3 BadField 4 TooLong 5 NotAscending 6 Memory 7 ";

fn codec_faults(alloc: Global) -> Result<String, AllocError> {
    let mut text = String::new(alloc);
    for fault in [
        CodecFault::Truncated,
        CodecFault::Trailing,
        CodecFault::BadKind,
        CodecFault::BadField,
        CodecFault::TooLong,
        CodecFault::NotAscending,
        CodecFault::Memory,
    ] {
        let number = fault.number();
        text.push_str(&format!(in alloc; "{fault} {number} ")?)?;
    }
    Ok(text)
}

const SIGNATURES: &str = "Length 1 WrongType 2 Leaf 3 Mismatch 4 Exhausted Memory 2";

fn signature_faults(alloc: Global) -> Result<String, AllocError> {
    let mut text = String::new(alloc);
    for fault in [
        SigFault::Length,
        SigFault::WrongType,
        SigFault::Leaf,
        SigFault::Mismatch,
    ] {
        let number = fault.number();
        text.push_str(&format!(in alloc; "{fault} {number} ")?)?;
    }
    let (exhausted, memory, number) = (
        SignFault::Exhausted,
        SignFault::Memory,
        SignFault::Memory.number(),
    );
    text.push_str(&format!(in alloc; "{exhausted} {memory} {number}")?)?;
    Ok(text)
}

const SEAL: &str = "\
Truncated 1 NotAscending 1 UnknownSigner 2 BadSignature 3 WrongRole 4 Memory 5 ";

fn seal_faults(alloc: Global) -> Result<String, AllocError> {
    let mut text = String::new(alloc);
    for fault in [
        SealFault::Codec(CodecFault::Truncated),
        SealFault::Codec(CodecFault::NotAscending),
        SealFault::UnknownSigner,
        SealFault::BadSignature,
        SealFault::WrongRole,
        SealFault::Memory,
    ] {
        let number = fault.number();
        text.push_str(&format!(in alloc; "{fault} {number} ")?)?;
    }
    Ok(text)
}

const SESSION: &str = "Exhausted 1 NoQuorum 2 Closed 3 Memory 4 ";

fn session_faults(alloc: Global) -> Result<String, AllocError> {
    let mut text = String::new(alloc);
    for fault in [
        SessionFault::Exhausted,
        SessionFault::NoQuorum,
        SessionFault::Closed,
        SessionFault::Memory,
    ] {
        let number = fault.number();
        text.push_str(&format!(in alloc; "{fault} {number} ")?)?;
    }
    Ok(text)
}

/// Whether a text, which took memory, is the one that is wanted.
fn is(text: Result<String, AllocError>, wanted: &str) -> Result<bool, AllocError> {
    Ok(text?.as_str() == wanted)
}

#[test]
fn faults_have_names_and_numbers(rt: HostRuntime) -> Result<(), Fail> {
    assert!(rt; is(config_faults(rt.alloc()), CONFIG)?);
    assert!(rt; is(codec_faults(rt.alloc()), CODEC)?);
    assert!(rt; is(signature_faults(rt.alloc()), SIGNATURES)?);
    assert!(rt; is(seal_faults(rt.alloc()), SEAL)?);
    assert!(rt; is(session_faults(rt.alloc()), SESSION)?);
    Ok(())
}
