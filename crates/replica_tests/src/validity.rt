//! Which ViewChanges and NewViews are valid, and the first fault of others.
//!
//! A ViewChange is its view and low mark, its Checkpoints (signer, number and digest each), and its certificates:
//! view, number and digest of the PrePrepare, and the Prepares (signer and digest each). A NewView is its view, its
//! ViewChanges behind their signers, and its PrePrepares. The digest 0 is that of no bytes.

use crate::view_messages::{change, checked, fault_name, new_view_of, replicas};
use host_types::Config;
use lms_tree::Signer;
use pbft_codec::Body;
use std::alloc::Global;
use std::process::Abort;
use std::sync::Arc;
use std::test::Fail;
use view_change::ViewFault;

/// The low mark and its proof.
const PROOFS: &str = "\
change 1 low 0 => -\n\
change 1 low 8, proof 0:8:5 1:8:5 3:8:5 => -\n\
change 1 low 0, proof 0:0:5 1:0:5 2:0:5 => -\n\
change 1 low 8 => Proof\n\
change 1 low 8, proof 0:8:5 1:8:5 3:8:6 => Proof\n\
change 1 low 8, proof 0:8:5 1:8:5 => Proof\n\
change 1 low 8, proof 0:8:5 1:8:5 2:8:5 3:8:5 => Proof\n\
change 1 low 8, proof 0:16:5 1:16:5 3:16:5 => Proof\n\
change 1 low 0, proof 0:0:5 1:0:5 => Proof\n\
";

/// The view and those of the certificates, and the Prepares; two faults at once.
const CERTIFICATES: &str = "\
change 0 low 0 => View\n\
change 1 low 0, 0/1/7 by 1:7 2:7 => -\n\
change 1 low 0, 1/1/7 by 0:7 2:7 => View\n\
change 1 low 0, 0/1/7 by 1:7 => Certificate\n\
change 1 low 0, 0/1/7 by 1:7 2:8 => Certificate\n\
change 1 low 0, 0/1/7 by 1:7 2:7 3:7 => Certificate\n\
change 0 low 8 => View\n\
change 1 low 8, 0/9/7 by 1:7 => Proof\n\
change 1 low 0, 0/17/7 by 1:7 => Certificate\n\
";

/// The numbers, above the low mark 0 and at most 16 above it.
const NUMBERS: &str = "\
change 1 low 0, 0/1/7 by 1:7 2:7, 0/3/7 by 1:7 2:7, 0/16/7 by 1:7 2:7 => -\n\
change 1 low 0, 0/17/7 by 1:7 2:7 => Order\n\
change 1 low 0, 0/0/7 by 1:7 2:7 => Order\n\
change 1 low 0, 0/2/7 by 1:7 2:7, 0/1/7 by 1:7 2:7 => Order\n\
change 1 low 0, 0/2/7 by 1:7 2:7, 0/2/7 by 1:7 2:7 => Order\n\
";

/// The numbers, above the low mark 8.
const NUMBERS_ABOVE_8: &str = "\
change 1 low 8, proof 0:8:5 1:8:5 3:8:5, 0/9/7 by 1:7 2:7, 0/24/7 by 1:7 2:7 => -\n\
change 1 low 8, proof 0:8:5 1:8:5 3:8:5, 0/8/7 by 1:7 2:7 => Order\n\
change 1 low 8, proof 0:8:5 1:8:5 3:8:5, 0/25/7 by 1:7 2:7 => Order\n\
";

/// How many ViewChanges there are, their views, and what is wrong with one; two faults at once.
const CHANGES: &str = "\
new-view 1; 0 1 low 0; 1 1 low 0; 2 1 low 0 => -\n\
new-view 1; 0 1 low 0; 1 1 low 0; 2 2 low 0 => View\n\
new-view 1; 0 1 low 0; 1 1 low 0 => Proof\n\
new-view 1; 0 1 low 0; 1 1 low 8; 2 1 low 0 => Proof\n\
new-view 1; 0 1 low 0; 1 1 low 0, 0/1/7 by 1:7; 2 1 low 0 => Certificate\n\
new-view 1; 0 1 low 0; 2 2 low 0 => View\n\
new-view 1; 0 1 low 0; 2 1 low 0, 0/1/7 by 1:7 => Proof\n\
";

/// Two faults at once, in one ViewChange, in two of them, or in one and in the proposals: the first of View, Proof,
/// Certificate and Order is reported, wherever it stands.
const TWO_FAULTS: &str = "\
new-view 1; 0 1 low 8; 1 1 low 0; 2 2 low 0 => View\n\
new-view 1; 0 1 low 0, 0/1/7 by 1:7; 1 1 low 8; 2 1 low 0 => Proof\n\
new-view 1; 0 1 low 0; 1 1 low 0, 0/17/7 by 1:7; 2 1 low 0 => Certificate\n\
new-view 1; 0 1 low 0, 0/17/7 by 1:7 2:7; 1 1 low 0, 0/1/7 by 1:7; 2 1 low 0 => Certificate\n\
new-view 1; 0 1 low 0, 0/1/7 by 1:7; 1 1 low 0; 2 1 low 0; with 1/1/0 => Certificate\n\
new-view 1; 0 1 low 0; 1 1 low 8; 2 1 low 0; with 1/1/0 => Proof\n\
";

/// The proposals, where one ViewChange has a certificate at 2.
const PROPOSALS: &str = "\
new-view 1; 0 1 low 0; 1 1 low 0, 0/2/7 by 1:7 2:7; 2 1 low 0; with 1/1/0 1/2/7 => -\n\
new-view 1; 0 1 low 0; 1 1 low 0, 0/2/7 by 1:7 2:7; 2 1 low 0; with 1/1/0 1/2/0 => Order\n\
new-view 1; 0 1 low 0; 1 1 low 0, 0/2/7 by 1:7 2:7; 2 1 low 0; with 1/1/0 => Order\n\
new-view 1; 0 1 low 0; 1 1 low 0, 0/2/7 by 1:7 2:7; 2 1 low 0; with 1/1/0 1/2/7 1/3/0 => Order\n\
new-view 1; 0 1 low 0; 1 1 low 0, 0/2/7 by 1:7 2:7; 2 1 low 0; with 5/1/0 5/2/7 => Order\n\
new-view 1; 0 1 low 0; 1 1 low 0, 0/17/7 by 1:7 2:7; 2 1 low 0 => Order\n\
";

/// The certificate of the highest view, the first of those of one view, and the greatest low mark.
const CHOICES: &str = "\
new-view 5; 0 5 low 0, 0/1/7 by 1:7 2:7; 1 5 low 0, 2/1/9 by 0:9 1:9; 2 5 low 0; with 5/1/9 => -\n\
new-view 5; 0 5 low 0, 0/1/7 by 1:7 2:7; 1 5 low 0, 2/1/9 by 0:9 1:9; 2 5 low 0; with 5/1/7 => Order\n\
new-view 1; 0 1 low 0, 0/1/8 by 1:8 2:8; 1 1 low 0, 0/1/7 by 1:7 2:7; 2 1 low 0; with 1/1/8 => -\n\
new-view 1; 0 1 low 0, 0/1/8 by 1:8 2:8; 1 1 low 0, 0/1/7 by 1:7 2:7; 2 1 low 0; with 1/1/7 => Order\n\
new-view 1; 0 1 low 0, 0/3/7 by 1:7 2:7; 1 1 low 8, proof 0:8:5 1:8:5 3:8:5; 2 1 low 0 => -\n\
";

/// The body of a message, and who sends it: a ViewChange of replica 2, or a NewView of replica 1.
fn body_of(alloc: Global, signers: &mut [Signer], text: &str) -> Result<(u8, Body), Fail> {
    let (kind, said) = text.split_once(" ").ok_or("no message")?;
    if kind == "change" {
        Ok((2, Body::ViewChange(change(alloc, signers, said)?)))
    } else {
        Ok((1, Body::NewView(new_view_of(alloc, signers, said)?)))
    }
}

/// Whether a message has the fault that a line says.
fn has_its_fault(
    alloc: Global,
    config: &Arc<Config>,
    signers: &mut [Signer],
    line: &str,
) -> Result<bool, Fail> {
    let (text, wanted) = line.split_once(" => ").ok_or("no fault")?;
    let (id, body) = body_of(alloc, signers, text)?;
    let message = checked(alloc, config, signers, id, body)?;
    Ok(fault_name(alloc, config, &message)?.as_str() == wanted)
}

/// Wants the faults of a table, whose replicas have keys of this secret.
fn wants<R: Abort + AllocGlobal>(rt: &R, secret: u8, table: &str) -> Result<(), Fail> {
    let (mut signers, config) = replicas(rt.alloc(), secret)?;
    for line in table.lines() {
        let holds = has_its_fault(rt.alloc(), &config, &mut signers, line)?;
        assert!(rt; holds, "{line}");
    }
    Ok(())
}

#[test]
fn view_changes_have_their_faults(rt: HostRuntime) -> Result<(), Fail> {
    wants(&rt, 6, PROOFS)?;
    wants(&rt, 7, CERTIFICATES)?;
    wants(&rt, 8, NUMBERS)?;
    wants(&rt, 15, NUMBERS_ABOVE_8)
}

#[test]
fn new_views_have_their_faults(rt: HostRuntime) -> Result<(), Fail> {
    wants(&rt, 9, CHANGES)?;
    wants(&rt, 16, TWO_FAULTS)?;
    wants(&rt, 10, PROPOSALS)?;
    wants(&rt, 11, CHOICES)
}

#[test]
fn faults_have_numbers_and_names(rt: HostRuntime) -> Result<(), Fail> {
    let mut text = String::new(rt.alloc());
    for fault in [
        ViewFault::Proof,
        ViewFault::Certificate,
        ViewFault::View,
        ViewFault::Order,
        ViewFault::Memory,
    ] {
        let number = fault.number();
        text.push_str(&format!(in rt.alloc(); "{fault} {number} ")?)?;
    }
    assert!(rt; text.as_str() == "Proof 1 Certificate 2 View 3 Order 4 Memory 5 ");
    Ok(())
}
