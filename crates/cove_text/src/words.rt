ghost use Rattle.std.specs.Prelude.{◌≡◌, ◌<◌, [], ◌∷◌, length, position, MatchOption, not};
ghost use Rattle.cove_base.specs.Text.{is_blank, text_words};

use std::marker::Model;

/// The words of a line.
#[derive(Drop)]
pub struct WordIter<'a> {
    rest: &'a [u8],
}

impl<'a> Model for WordIter<'a> {
    ghost use Rattle.std.specs.Prelude.{ℕ, List};
    ghost use Rattle.cove_base.specs.Text.{text_words};

    ghost Value = { List (List ℕ) };

    ghost view = { λ a. text_words a.rest.now };
}

impl<'a> Iterator for WordIter<'a> {
    ghost use Rattle.std.specs.Iterator.{YieldsFirstRef, item_count};

    type Item = &'a [u8];

    ghost next_gives = { YieldsFirstRef (λ words. words) };

    ghost remaining = { item_count (λ words. words) };

    fn next(&mut self) -> Option<&'a [u8]> {
        let (word, rest) = first_word(self.rest)?;
        self.rest = rest;
        Some(word)
    }
}

/// The words of a line: the pieces between spaces, tabs and carriage returns, none of them empty.
pub fn split_words(line: &[u8]) -> WordIter<'_>
    ensures { result ≡ text_words line.now }
{
    WordIter { rest: line }
}

// The first word of a line, and the line after it.
fn first_word(line: &[u8]) -> Option<(&[u8], &[u8])>
    ensures { MatchOption result (text_words line.now ≡ [])
        (λ parts. text_words line.now ≡ parts.0.now ∷ text_words parts.1.now) }
{
    let start = word_start(line)?;
    let word = &line[start..];
    Some(word.split_at(word_end(word).unwrap_or(word.len())))
}

// The place of the first byte that is no blank.
fn word_start(line: &[u8]) -> Option<usize>
    ensures { result ≡ position (λ byte. not (is_blank byte)) line.now }
{
    line.iter().position(|byte| !is_blank(*byte))
}

// The place of the first blank.
fn word_end(line: &[u8]) -> Option<usize>
    ensures { result ≡ position is_blank line.now }
{
    line.iter().position(|byte| is_blank(*byte))
}

// Whether a byte parts words.
fn is_blank(byte: u8) -> bool
    ensures { result ≡ is_blank byte }
{
    byte == b' ' || byte == b'\t' || byte == b'\r'
}
