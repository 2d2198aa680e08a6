//! Line and column of a place.
ghost use Rattle.std.specs.Prelude.{◌≡◌, ◌≤◌, length};
ghost use Rattle.nz_text.specs.Places.{line_at, column_at};

/// Line and column behind so many bytes, both from 1.
pub fn place(text: &[u8], at: usize) -> (u64, u64)
    requires { at ≤ length text.now }
    ensures line { result.0 ≡ line_at text.now at }
    ensures column { result.1 ≡ column_at text.now at }
{
    let before = &text[..at];
    let mut line: u64 = 1;
    let mut column: u64 = 1;
    for b in before {
        if *b == b'\n' {
            line += 1;
            column = 1;
        } else {
            column += 1;
        }
    }
    (line, column)
}
