//! The words of a text, one by one.
ghost use Rattle.std.specs.Prelude.{◌≡◌, ℕ, ◌≤◌, ◌∷◌, [], List, length, take, drop, MatchOption};
ghost use Rattle.std.specs.Bool.{MatchBool};
ghost use Rattle.nz_cert.specs.Words.{is_blank, words_behind, text_words, IsEdge};

use std::marker::Model;

/// The words of a text that are still to come.
#[derive(Drop)]
pub struct Words<'a> {
    rest: &'a [u8],
}

impl<'a> Model for Words<'a> {
    ghost use Rattle.std.specs.Prelude.{List, ℕ};
    ghost use Rattle.nz_cert.specs.Words.{text_words};

    ghost Value = { List (List ℕ) };

    ghost view = { λ w. text_words w.rest.now };
}

fn is_blank(byte: u8) -> bool
    ensures { result ≡ is_blank byte }
{
    byte == b' ' || byte == b'\t' || byte == b'\n' || byte == b'\r'
}

// How many blanks stand in front.
fn gap(text: &[u8]) -> usize
    ensures within { result ≤ length text.now }
    ensures same { text_words (drop result text.now) ≡ text_words text.now }
    ensures end { IsEdge (drop result text.now) → drop result text.now ≡ [] }
{
    let mut at = 0;
    while at < text.len() && is_blank(text[at]) {
        at += 1;
    }
    at
}

// How many bytes the word in front has.
fn run(text: &[u8]) -> usize
    ensures within { result ≤ length text.now }
    ensures same { text_words text.now ≡ words_behind (take result text.now) (drop result text.now) }
    ensures edge { IsEdge (drop result text.now) }
{
    let mut at = 0;
    while at < text.len() && !is_blank(text[at]) {
        at += 1;
    }
    at
}

/// What stands behind so many bytes.
pub fn behind(text: &[u8], count: usize) -> &[u8]
    requires { count ≤ length text.now }
    ensures { result.now ≡ drop count text.now }
{
    &text[count..]
}

impl<'a> Words<'a> {
    /// All words of a text.
    pub fn of(text: &'a [u8]) -> Words<'a>
        ensures { result ≡ text_words text.now }
    {
        Words { rest: text }
    }

    /// The next word.
    pub fn take_word(&mut self) -> Option<&'a [u8]>
        ensures { MatchOption result (self.old ≡ []) (λ word. self.old ≡ word.now ∷ self.new) }
    {
        let begun = behind(self.rest, gap(self.rest));
        let size = run(begun);
        if size == 0 {
            return None;
        }
        self.rest = behind(begun, size);
        Some(&begun[..size])
    }
}
