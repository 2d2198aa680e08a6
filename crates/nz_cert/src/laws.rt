//! The law of texts of certificates: the function says it, and does nothing.
ghost use Rattle.nz_cert.specs.Laws.{WrittenIsRead};

/// The text that is written of a certificate is a text of it, and of no other.
pub fn written_certificates_are_read_back()
    ensures { WrittenIsRead }
{}
