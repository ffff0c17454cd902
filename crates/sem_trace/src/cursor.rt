// The lines of a text and the words of a line, read from the front.
ghost use Rattle.std.specs.Prelude.{◌≡◌, ◌≤◌, [], ◌∷◌, length, MatchOption, IfOk, IfErr};
ghost use Rattle.sem_trace.specs.TextLines.{lines_of, words_of};
ghost use Rattle.sem_trace.specs.Forms.{Place, form_fault};
ghost use Rattle.sem_trace.specs.Places.{Fails, told_fault, fault_after};

use crate::fault::{Cause, LineFault};
use crate::text_lines::{next_line, next_word};
use std::marker::Model;

// How many words the line has.
fn word_count(line: &[u8]) -> u64
    ensures number { result ≡ length (words_of line.now) }
    ensures few { result ≤ 9223372036854775808 }
{
    let mut rest = line;
    let mut number = 0;
    while let Some((_, behind)) = next_word(rest) {
        rest = behind;
        number += 1;
    }
    number
}

/// The lines of a text that are not read yet, each without its line end. No call of it takes
/// memory.
#[derive(Drop)]
pub struct Lines<'a> {
    text: &'a [u8],
}

impl<'a> Model for Lines<'a> {
    ghost use Rattle.std.specs.Prelude.{ℕ, List};
    ghost use Rattle.sem_trace.specs.TextLines.{lines_of};

    ghost Value = { List (List ℕ) };

    ghost view = { λ l. lines_of l.text.now };
}

impl<'a> Lines<'a> {
    /// All lines of the text. They are no more than its bytes.
    pub fn of(text: &'a [u8]) -> Lines<'a>
        ensures lines { result ≡ lines_of text.now }
        ensures few { length result ≤ length text.now }
    {
        Lines { text }
    }

    /// The next line; none if no line is left.
    pub fn next_line(&mut self) -> Option<&'a [u8]>
        ensures { MatchOption result ((self.old ≡ []) × (self.new ≡ [])) (λ line. self.old
            ≡ line.now ∷ self.new) }
    {
        let (line, rest) = next_line(self.text)?;
        self.text = rest;
        Some(line)
    }
}

/// The words of a line that are not read yet. After an error they are those after the faulty one. No
/// call of it takes memory.
#[derive(Drop)]
pub struct Words<'a> {
    line: &'a [u8],
}

impl<'a> Model for Words<'a> {
    ghost use Rattle.std.specs.Prelude.{ℕ, List};
    ghost use Rattle.sem_trace.specs.TextLines.{words_of};

    ghost Value = { List (List ℕ) };

    ghost view = { λ w. words_of w.line.now };
}

impl<'a> Words<'a> {
    /// All words of the line.
    pub fn of(line: &'a [u8]) -> Words<'a>
        ensures { result ≡ words_of line.now }
    {
        Words { line }
    }

    /// The next word; none if no word is left.
    pub fn next_word(&mut self) -> Option<&'a [u8]>
        ensures { MatchOption result ((self.old ≡ []) × (self.new ≡ [])) (λ word. self.old
            ≡ word.now ∷ self.new) }
    {
        let (word, rest) = next_word(self.line)?;
        self.line = rest;
        Some(word)
    }

    /// The next word; an error if no word is left.
    pub fn word(&mut self) -> Result<&'a [u8], Cause>
        ensures ok { IfOk result (λ word. self.old ≡ word.now ∷ self.new) }
        ensures err { IfErr result (λ cause. (place : Place) →
            Fails (place ∷ []) self.old self.new cause) }
    {
        self.next_word().ok_or(Cause::Missing)
    }

    /// Refuses if a word is left.
    pub fn no_more(&mut self) -> Result<(), Cause>
        ensures { form_fault [] self.old ≡ told_fault result self.new }
    {
        match self.next_word() {
            Some(_) => Err(Cause::TooMany),
            None => Ok(()),
        }
    }

    /// The fault of that cause in the line, if these words are left after the faulty one. Takes no
    /// memory.
    pub fn fault_in(&self, line: &[u8], cause: Cause) -> LineFault
        ensures { result ≡ fault_after cause (words_of line.now) self.now }
    {
        let left = match cause {
            Cause::Missing => 0,
            _ => word_count(self.line) + 1,
        };
        LineFault {
            cause,
            word: Some(word_count(line).saturating_sub(left)),
        }
    }
}
