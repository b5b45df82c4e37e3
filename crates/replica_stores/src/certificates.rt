//! The certificates that a replica keeps of views it has left.

ghost use Rattle.std.specs.Prelude.{◌≡◌, [], map, IfOk, OnOk, OnErr};
ghost use Rattle.host_types.specs.Configuration.{Configuration};
ghost use Rattle.pbft_model.specs.Tables.{entries_in, is_above, keep, number_key, with_entry};
ghost use Rattle.pbft_model.specs.Words.{Certificate};
ghost use Rattle.view_change.specs.Log.{as_checked};
ghost use Rattle.replica_stores.specs.Certificates.{AreCheckedCertificates, certificate_in, certificates_in};

use host_types::{Config, SeqNo};
use std::alloc::{AllocError, Global};
use std::collections::BTreeMap;
use std::marker::Model;
use std::sync::Arc;
use view_change::CheckedCertificate;

/// The certificates of views that were left, by number. Contracts see them as the protocol's core keeps
/// them.
#[derive(Drop)]
pub struct Certificates {
    alloc: Global,
    config: Arc<Config>,
    kept: BTreeMap<u64, CheckedCertificate>,
}

impl Model for Certificates {
    ghost use Rattle.replica_stores.specs.Certificates.{AreCheckedCertificates, certificates_in};
    ghost use Rattle.replica_stores.specs.Stores.{KeptCertificates};

    ghost Value = { KeptCertificates };

    ghost view = { λ t. record { config = t.config.value; kept = certificates_in t.kept } };

    ghost invariant = { λ t. AreCheckedCertificates t.config.value t.kept.entries };
}

impl Certificates {
    /// No certificate. It is refused only where the count of the configuration's handles is full.
    pub fn new(alloc: Global, config: &Arc<Config>) -> Result<Certificates, AllocError>
        ensures { IfOk result (λ t. t ≡ record { config = config.now.value; kept = [] }) }
    {
        Ok(Certificates {
            alloc,
            config: Arc::try_clone(config)?,
            kept: BTreeMap::new(alloc),
        })
    }

    /// Keeps a number's certificate in place of the one that it has. The caller owes a certificate under
    /// the same configuration. Where memory runs out, nothing changes.
    pub fn keep(&mut self, number: SeqNo, certificate: CheckedCertificate) -> Result<(), AllocError>
        requires { (x : Certificate) × (certificate ≡ as_checked self.old.config x) }
        ensures kept { (x : Certificate) → certificate ≡ as_checked self.old.config x → OnOk result (self.new ≡ record self.old { kept = with_entry self.old.kept (number_key number.0) x }) }
        ensures unchanged { OnErr result (self.new ≡ self.old) }
    {
        put(&mut self.kept, number, certificate)
    }

    /// Discards the certificates of the numbers up to this one. It takes no memory.
    pub fn discard_to(&mut self, number: SeqNo)
        ensures { self.new ≡ record self.old { kept = keep (is_above number.0) self.old.kept } }
    {
        drop_to(&mut self.kept, number);
    }

    /// The certificates, numbers ascending. Handles alone are copied.
    pub fn list(&self) -> Result<Vec<CheckedCertificate>, AllocError>
        ensures { IfOk result (λ l. l.items ≡ map (as_checked self.now.config) (entries_in self.now.kept)) }
    {
        let mut list = Vec::new(self.alloc);
        for certificate in self.kept.values() {
            list.push(certificate.copy()?)?;
        }
        Ok(list)
    }
}

fn put(
    kept: &mut BTreeMap<u64, CheckedCertificate>,
    number: SeqNo,
    certificate: CheckedCertificate,
) -> Result<(), AllocError>
    ensures kept { OnOk result (certificates_in kept.new ≡ with_entry (certificates_in kept.old) (number_key number.0) (certificate_in certificate)) }
    ensures checked { OnOk result ((c : Configuration) → certificate ≡ as_checked c (certificate_in certificate) → AreCheckedCertificates c kept.old.entries → AreCheckedCertificates c kept.new.entries) }
    ensures unchanged { OnErr result (kept.new.entries ≡ kept.old.entries) }
{
    kept.insert(number.0, certificate)?;
    Ok(())
}

fn drop_to(kept: &mut BTreeMap<u64, CheckedCertificate>, number: SeqNo)
    ensures kept { certificates_in kept.new ≡ keep (is_above number.0) (certificates_in kept.old) }
    ensures checked { (c : Configuration) → AreCheckedCertificates c kept.old.entries → AreCheckedCertificates c kept.new.entries }
{
    kept.retain(|at, _| *at > number.0);
}
