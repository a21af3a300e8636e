ghost use Rattle.std.specs.Prelude.{◌≡◌, ◌+◌, ◌<◌, [], ◌∷◌, length, position, MatchOption};
ghost use Rattle.std.specs.List.{enumerate_from};
ghost use Rattle.cove_base.specs.Text.{is_line_end, text_lines};

use std::marker::Model;

/// The lines of a text, each with its number from 1 and without its line feed.
#[derive(Drop)]
pub struct LineIter<'a> {
    rest: &'a [u8],
    passed: usize,
}

impl<'a> Model for LineIter<'a> {
    ghost use Rattle.std.specs.Prelude.{ℕ, ◌+◌, ◌^◌, ◌<◌, List, length};
    ghost use Rattle.std.specs.List.{enumerate_from};
    ghost use Rattle.cove_base.specs.Text.{text_lines};

    ghost Value = { List (ℕ × List ℕ) };

    ghost view = { λ a. enumerate_from (a.passed + 1) (text_lines a.rest.now) };

    ghost invariant = { λ a. a.passed + length a.rest.now < 2 ^ 64 };
}

impl<'a> Iterator for LineIter<'a> {
    ghost use Rattle.std.specs.Iterator.{YieldsFirstBy, item_count};

    type Item = (usize, &'a [u8]);

    ghost next_gives = { YieldsFirstBy (λ line. (line.0, line.1.now)) (λ lines. lines) };

    ghost remaining = { item_count (λ lines. lines) };

    fn next(&mut self) -> Option<(usize, &'a [u8])> {
        let (line, rest) = first_line(self.rest)?;
        self.rest = rest;
        self.passed += 1;
        Some((self.passed, line))
    }
}

/// The lines of a text, each with its number from 1. A line ends at a line feed; a last piece without one is a
/// line where it isn't empty.
pub fn split_lines(text: &[u8]) -> LineIter<'_>
    ensures { result ≡ enumerate_from 1 (text_lines text.now) }
{
    LineIter {
        rest: text,
        passed: 0,
    }
}

// The first line of a text, and the text after its end.
fn first_line(text: &[u8]) -> Option<(&[u8], &[u8])>
    ensures lines { MatchOption result (text_lines text.now ≡ [])
        (λ parts. text_lines text.now ≡ parts.0.now ∷ text_lines parts.1.now) }
    ensures shorter { MatchOption result (text.now ≡ []) (λ parts. length parts.1.now < length text.now) }
{
    if text.is_empty() {
        return None;
    }
    match line_end(text) {
        Some(end) => Some((&text[..end], &text[end + 1..])),
        None => Some((text, &[])),
    }
}

// The place of the first line feed.
fn line_end(text: &[u8]) -> Option<usize>
    ensures { result ≡ position is_line_end text.now }
{
    text.iter().position(|byte| *byte == b'\n')
}
