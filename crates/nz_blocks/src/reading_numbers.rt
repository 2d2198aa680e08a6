//! Numbers at a place of a text.
ghost use Rattle.std.specs.Prelude.{◌≡◌, ℕ, ℤ, ◌+◌, ◌-◌, ◌*◌, ◌<◌, ◌≤◌, ◌^◌, ◌++◌, Option, Some, drop, length, MatchOption, IfSome, FitsSigned};
ghost use Rattle.std.specs.Bool.{MatchBool};
ghost use Rattle.std.specs.Int.{w128};
ghost use Rattle.std.specs.Fmt.{decimal, signed_decimal};
ghost use Rattle.nz_vec.specs.Texts.{Text};
ghost use Rattle.nz_blocks.specs.Beginnings.{First, IsDigit, IsOpening, IsRun, IsLarge, unspaced};
ghost use Rattle.nz_blocks.specs.Readings.{signed_by};

/// What stands at a place of a text, and the place behind it.
#[derive(Drop)]
pub struct Found<T> {
    pub value: T,
    pub next: usize,
}

/// Whether this byte stands there.
pub fn is_at(text: &[u8], place: usize, byte: u8) -> bool
    ensures { MatchBool result (First (λ b. b ≡ byte) (drop place text.now)) (¬ First (λ b. b ≡ byte) (drop place text.now)) }
{
    if place < text.len() {
        text[place] == byte
    } else {
        false
    }
}

/// Whether a digit stands there.
pub fn is_digit_at(text: &[u8], place: usize) -> bool
    ensures { MatchBool result (First IsDigit (drop place text.now)) (¬ First IsDigit (drop place text.now)) }
{
    if place < text.len() {
        let byte = text[place];
        48 <= byte && byte <= 57
    } else {
        false
    }
}

/// The place behind all spaces.
pub fn behind_spaces(text: &[u8], from: usize) -> usize
    ensures rest { drop result text.now ≡ unspaced (drop from text.now) }
    ensures forward { from ≤ result }
{
    let mut place = from;
    'spaces: while is_at(text, place, b' ') {
        place += 1;
    }
    place
}

// The number with one digit more.
fn pushed(total: u128, digit: u8) -> Option<u128>
    ensures { MatchOption result (2 ^ 128 ≤ total * 10 + (digit - 48)) (λ n. n ≡ total * 10 + (digit - 48)) }
{
    let tens = match total.checked_mul(10) {
        Some(tens) => tens,
        None => return None,
    };
    tens.checked_add(digit.saturating_sub(48) as u128)
}

/// The number that all digits from there on write.
pub fn digits(text: &[u8], from: usize) -> Option<Found<u128>>
    ensures run { MatchOption result (IsLarge (drop from text.now)) (λ f. IsRun text.now from f.next f.value) }
    ensures forward { IfSome result (λ f. from ≤ f.next) }
    ensures some { First IsDigit (drop from text.now) → IfSome result (λ f. from < f.next) }
{
    let mut total = 0u128;
    let mut place = from;
    'digits: while is_digit_at(text, place) {
        total = match pushed(total, text[place]) {
            Some(more) => more,
            None => return None,
        };
        place += 1;
    }
    Some(Found {
        value: total,
        next: place,
    })
}

// The number of this sign and size.
fn signed(negative: bool, size: u128) -> Option<i128>
    ensures { (z : ℤ) → FitsSigned w128 z → z ≡ signed_by negative size → result ≡ Some z }
{
    if size < 170_141_183_460_469_231_731_687_303_715_884_105_728 {
        let number = size as i128;
        return Some(if negative { -number } else { number });
    }
    if negative { Some(i128::MIN) } else { None }
}

// The number of this sign, whose digits stand there.
fn sized(text: &[u8], from: usize, negative: bool) -> Option<Found<i128>>
    ensures whole { (z : ℤ) (n : ℕ) (s : Text) → FitsSigned w128 z → z ≡ signed_by negative n → n < 2 ^ 128 → ¬ First IsDigit s → drop from text.now ≡ decimal n ++ s → MatchOption result ⊥ (λ f. (f.value ≡ z) × (drop f.next text.now ≡ s)) }
    ensures forward { IfSome result (λ f. from ≤ f.next) }
    ensures some { First IsDigit (drop from text.now) → IfSome result (λ f. from < f.next) }
{
    let size = match digits(text, from) {
        Some(size) => size,
        None => return None,
    };
    match signed(negative, size.value) {
        Some(value) => Some(Found {
            value,
            next: size.next,
        }),
        None => None,
    }
}

/// The number that stands there, without spaces in front.
pub fn number(text: &[u8], from: usize) -> Option<Found<i128>>
    ensures whole { (z : ℤ) (s : Text) → FitsSigned w128 z → ¬ First IsDigit s → drop from text.now ≡ signed_decimal z ++ s → MatchOption result ⊥ (λ f. (f.value ≡ z) × (drop f.next text.now ≡ s)) }
    ensures forward { First IsOpening (drop from text.now) → IfSome result (λ f. from < f.next) }
{
    if is_at(text, from, b'-') {
        sized(text, from + 1, true)
    } else {
        sized(text, from, false)
    }
}
