ghost use Rattle.std.specs.Prelude.{◌≡◌};
ghost use Rattle.nz_cert.specs.declared.refusal.CertTextRefusal.TheVariants as variants;

use nz_vec::NoMemory;

/// Why a text is not read.
#[derive(Clone, Copy, Debug, Drop, PartialEq, Eq)]
pub enum CertTextRefusal {
    /// It is the text of no certificate.
    Bad,
    NoMemory,
}

impl From<NoMemory> for CertTextRefusal {
    ghost from_gives = { λ _ e. e ≡ variants.NoMemory };

    fn from(_no_memory: NoMemory) -> CertTextRefusal {
        CertTextRefusal::NoMemory
    }
}
