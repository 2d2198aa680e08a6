ghost use Rattle.std.specs.Prelude.{◌≡◌, MatchOption, ℕ};
ghost use Rattle.nz_words.specs.Orders.{IsNumber};

/// The number that the text is, in 1 to 9 decimal digits, where it lies within the bounds.
pub(crate) fn number(text: &str, low: u32, high: u32) -> Option<u32>
    ensures { MatchOption result ((n : ℕ) → ¬ IsNumber low high text.now n) (λ n. IsNumber low high text.now n) }
{
    if text.len() > 9 {
        return None;
    }
    if text.starts_with('+') {
        return None;
    }
    match text.parse::<u32>() {
        Ok(n) => {
            if n < low {
                return None;
            }
            if n > high {
                return None;
            }
            Some(n)
        }
        Err(_) => None,
    }
}
