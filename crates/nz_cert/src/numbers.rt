//! The numbers that words write.
ghost use Rattle.std.specs.Prelude.{◌≡◌, ℕ, ℤ, ◌+◌, ◌-◌, ◌*◌, ◌^◌, ◌<◌, ◌≤◌, Some, length, drop, IfSome, MatchOption};
ghost use Rattle.std.specs.Bool.{MatchBool};
ghost use Rattle.nz_further.specs.Certificates.{IsHeldNumber};
ghost use Rattle.nz_further.specs.CertificateTexts.{IsDigit, WritesNumber, WritesInteger};
ghost use Rattle.nz_cert.specs.Words.{signed_by, BeginsWithMinus};

use crate::scan::behind;

fn is_digit(byte: u8) -> bool
    ensures { MatchBool result (IsDigit byte) (¬ IsDigit byte) }
{
    48 <= byte && byte <= 57
}

// The number with one digit more.
fn with_digit(total: u64, digit: u8) -> Option<u64>
    ensures { MatchOption result (2 ^ 64 ≤ total * 10 + (digit - 48)) (λ n. n ≡ total * 10 + (digit - 48)) }
{
    let tens = match total.checked_mul(10) {
        Some(tens) => tens,
        None => return None,
    };
    tens.checked_add(digit.saturating_sub(48) as u64)
}

/// The number that a word writes, where it is less than 2^64.
pub fn number(word: &[u8]) -> Option<u64>
    ensures sound { IfSome result (λ n. WritesNumber n word.now) }
    ensures whole { (n : ℕ) → n < 2 ^ 64 → WritesNumber n word.now → result ≡ Some n }
{
    if word.is_empty() {
        return None;
    }
    let mut total = 0;
    for byte in word {
        if !is_digit(*byte) {
            return None;
        }
        total = match with_digit(total, *byte) {
            Some(more) => more,
            None => return None,
        };
    }
    Some(total)
}

// The number that a word writes, where a certificate may hold it.
fn size(word: &[u8]) -> Option<u64>
    ensures sound { IfSome result (λ n. (n ≤ 2 ^ 62) × WritesNumber n word.now) }
    ensures whole { (n : ℕ) → n ≤ 2 ^ 62 → WritesNumber n word.now → result ≡ Some n }
{
    match number(word) {
        Some(size) if size <= 4_611_686_018_427_387_904 => Some(size),
        _ => None,
    }
}

fn signed(negative: bool, size: u64) -> i128
    ensures { result ≡ signed_by negative size }
{
    if negative {
        -(size as i128)
    } else {
        size as i128
    }
}

fn is_negative(word: &[u8]) -> bool
    ensures { MatchBool result (BeginsWithMinus word.now) (¬ BeginsWithMinus word.now) }
{
    if word.is_empty() {
        false
    } else {
        word[0] == b'-'
    }
}

/// The integer that a word writes, where a certificate may hold it.
pub fn integer(word: &[u8]) -> Option<i128>
    ensures sound { IfSome result (λ a. IsHeldNumber a × WritesInteger a word.now) }
    ensures whole { (a : ℤ) → IsHeldNumber a → WritesInteger a word.now → result ≡ Some a }
{
    let negative = is_negative(word);
    let digits = if negative { behind(word, 1) } else { word };
    match size(digits) {
        Some(size) => Some(signed(negative, size)),
        None => None,
    }
}
