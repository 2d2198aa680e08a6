//! How long a number is, without its text.
ghost use Rattle.std.specs.Prelude.{◌≡◌, length, decimal};
ghost use Rattle.std.specs.Fmt.{signed_decimal};

// The number of digits.
fn digits_of(number: u64) -> usize
    ensures { result ≡ length (decimal number) }
{
    let mut rest = number;
    let mut digits = 1usize;
    'rests: while rest >= 10 {
        rest /= 10;
        digits += 1;
    }
    digits
}

// The number of digits. Division at 128 bits is slow, so it ends where 64 bits suffice.
fn digits_of_wide(number: u128) -> usize
    ensures { result ≡ length (decimal number) }
{
    let mut rest = number;
    let mut digits = 0usize;
    'rests: while rest > 18_446_744_073_709_551_615 {
        rest /= 10;
        digits += 1;
    }
    digits + digits_of(rest as u64)
}

/// The length of the number's text.
pub fn text_length(number: i128) -> usize
    ensures { result ≡ length (signed_decimal number) }
{
    let digits = digits_of_wide(number.unsigned_abs());
    if number < 0 { digits + 1 } else { digits }
}
