//! A text read.
ghost use Rattle.std.specs.Prelude.{◌≡◌, Err, IfOk, MatchResult};
ghost use Rattle.nz_further.specs.Certificates.{CertificateData, HasShape};
ghost use Rattle.nz_further.specs.CertificateTexts.{words_of, IsTextOf};
ghost use Rattle.nz_cert.specs.Readings.{IsReading};

use crate::lists::{take_named_list, take_rays};
use crate::order::take_order;
use crate::scan::Words;
use crate::sizes::take_sizes;
use crate::stages::take_stages;
use crate::{CertTextRefusal, Certificate};
use std::alloc::Global;

// Takes the words of a certificate.
fn take_certificate(alloc: Global, words: &mut Words<'_>) -> Result<Certificate, CertTextRefusal>
    ensures { IsReading HasShape words_of words.old words.new result }
{
    let sizes = match take_sizes(words) {
        Some(sizes) => sizes,
        None => return Err(CertTextRefusal::Bad),
    };
    let width = sizes.width as usize;
    let rank = sizes.rank as u64;
    let order = match take_order(alloc, words, sizes.rows) {
        Ok(order) => order,
        Err(refusal) => return Err(refusal),
    };
    let rays = match take_rays(alloc, words, width, rank) {
        Ok(rays) => rays,
        Err(refusal) => return Err(refusal),
    };
    let points = match take_named_list(alloc, words, b"points".as_slice(), width) {
        Ok(points) => points,
        Err(refusal) => return Err(refusal),
    };
    let first = match take_named_list(alloc, words, b"first".as_slice(), width) {
        Ok(first) => first,
        Err(refusal) => return Err(refusal),
    };
    let stages = match take_stages(alloc, words, width, rank, sizes.rows) {
        Ok(stages) => stages,
        Err(refusal) => return Err(refusal),
    };
    Ok(Certificate {
        width: sizes.width,
        rank: sizes.rank,
        order,
        rays,
        points,
        first,
        plus: stages.plus,
        minus: stages.minus,
    })
}

/// The certificate of which this is a text. The time is linear in the length of the text.
pub fn read_cert(alloc: Global, text: &[u8]) -> Result<Certificate, CertTextRefusal>
    ensures ok { IfOk result (λ c. IsTextOf c text.now) }
    ensures same { (c : CertificateData) → IsTextOf c text.now → MatchResult result (λ d. d ≡ c) (λ e. e ≡ CertTextRefusal.NoMemory) }
    ensures bad { result ≡ Err CertTextRefusal.Bad → (c : CertificateData) → ¬ IsTextOf c text.now }
{
    let mut words = Words::of(text);
    let certificate = match take_certificate(alloc, &mut words) {
        Ok(certificate) => certificate,
        Err(refusal) => return Err(refusal),
    };
    match words.take_word() {
        Some(_) => Err(CertTextRefusal::Bad),
        None => Ok(certificate),
    }
}
