//! Certificates of Hilbert bases: lists from which anyone can check that a list is that of the irreducible elements of a monoid.
//! Its contract: `read_cert` gives the certificate of a text, and Bad exactly where the text is one of none; `write_cert` the text with single spaces, which is read back as the same certificate.
//! Below it stand the lists of `nz_vec`, and the definitions and laws of certificates of `nz_further`; the numbers are printed by `itoa`.
//! Nothing uses it yet; runs that store a certificate, or check one, are to stand on it.
//! Start reading at `specs/Readings.antt`, then `read_cert`; a reader of words is seen as the list of the words that are left.
#![tactic(auto)]

mod certificate;
mod fields;
mod generating;
mod laws;
mod lists;
mod monoid;
mod numbers;
mod order;
mod ordering;
mod reader;
mod reduction;
mod refusal;
mod scan;
mod sizes;
mod stages;
mod tables;
mod writing;

pub use certificate::Certificate;
pub use laws::written_certificates_are_read_back;
pub use nz_vec::NoMemory;
pub use reader::read_cert;
pub use refusal::CertTextRefusal;
pub use writing::write_cert;
