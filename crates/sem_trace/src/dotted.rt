// Keys and places: numbers with points between.
ghost use Rattle.std.specs.Prelude.{◌≡◌, ℕ, ◌≤◌, ◌==◌, true, false, length, List, [], ◌∷◌, decimal};
ghost use Rattle.std.specs.Prelude.{IfOk, IfErr, MatchOption};
ghost use Rattle.std.specs.List.{position_or_len};
ghost use Rattle.std.specs.Result.{result_err};
ghost use Rattle.sem_key.specs.KeyName.{kind_number};
ghost use Rattle.sem_trace.specs.Words.{key_word, place_word};
ghost use Rattle.sem_trace.specs.Forms.{place_fault, parts_of, are_numbers, is_between};
ghost use Rattle.sem_trace.specs.Forms.{key as key_spec, key_place};
ghost use Rattle.sem_text.specs.Number.{is_number as is_number_spec};
ghost use Rattle.sem_trace.specs.declared.fault.Cause.TheVariants.{BadNumber, OutOfRange};
ghost use Rattle.sem_trace.specs.Ranges.{IsKeyInText, IsPlaceInText};
ghost use Rattle.sem_trace.specs.Places.{Reads, IsWithin, bounds};

use crate::cursor::Words;
use crate::fault::Cause;
use crate::forms::{Range, node, number_in};
use sem_key::{Key, Kind, NUMBERS, Place};
use sem_text::is_number;

/// The number of a kind.
const KIND: Range = Range { least: 1, most: 5 };

/// A number that a VPE has drawn.
const DRAWN: Range = Range {
    least: 0,
    most: NUMBERS as u64 - 1,
};

// How many bytes come before the first point, or all if there is none.
fn front_len(text: &[u8]) -> usize
    ensures within { result ≤ length text.now }
    ensures first { result ≡ position_or_len (λ b. b == 46) text.now }
{
    text.iter().take_while(|byte| **byte != b'.').count()
}

// The text before the first point and the text after it.
fn split_point(text: &[u8]) -> Option<(&[u8], &[u8])>
    ensures { MatchOption result (parts_of text.now ≡ text.now ∷ []) (λ p. parts_of text.now
        ≡ p.0.now ∷ parts_of p.1.now) }
{
    let end = front_len(text);
    if end == text.len() {
        return None;
    }
    let (front, rest) = text.split_at(end);
    let (_, behind) = rest.split_at(1);
    Some((front, behind))
}

// The number before the first point, and the text after it.
fn first_part(text: &[u8]) -> Result<(&[u8], &[u8]), Cause>
    ensures parts { IfOk result (λ p. parts_of text.now ≡ p.0.now ∷ parts_of p.1.now) }
    ensures number { IfOk result (λ p. is_number_spec p.0.now ≡ true) }
    ensures cause { IfErr result (λ cause. cause ≡ BadNumber) }
    ensures err { IfErr result (λ _. (a b : ℕ × ℕ) (ranges : List (ℕ × ℕ)) →
        are_numbers (a ∷ b ∷ ranges) (parts_of text.now) ≡ false) }
{
    let Some((part, rest)) = split_point(text) else {
        return Err(Cause::BadNumber);
    };
    if is_number(part) {
        Ok((part, rest))
    } else {
        Err(Cause::BadNumber)
    }
}

// The last number.
fn last_part(text: &[u8]) -> Result<&[u8], Cause>
    ensures part { IfOk result (λ part. parts_of text.now ≡ part.now ∷ []) }
    ensures number { IfOk result (λ part. is_number_spec part.now ≡ true) }
    ensures cause { IfErr result (λ cause. cause ≡ BadNumber) }
    ensures err { IfErr result (λ _. (a : ℕ × ℕ) →
        are_numbers (a ∷ []) (parts_of text.now) ≡ false) }
{
    if is_number(text) {
        Ok(text)
    } else {
        Err(Cause::BadNumber)
    }
}

// The number of a part, if it is in its range.
fn part_in(part: &[u8], range: Range) -> Result<u64, Cause>
    requires { is_number_spec part.now ≡ true }
    ensures ok { IfOk result (λ _. is_between (bounds range) part.now ≡ true) }
    ensures within { IfOk result (λ value. IsWithin range value) }
    ensures printed { IfOk result (λ value. part.now ≡ decimal value) }
    ensures cause { IfErr result (λ cause. cause ≡ OutOfRange) }
    ensures err { IfErr result (λ _. is_between (bounds range) part.now ≡ false) }
{
    number_in(part, range)
}

// The kind of that number, 1 to 5.
fn kind(number: u64) -> Kind
    requires least { 1 ≤ number }
    requires most { number ≤ 5 }
    ensures { kind_number result ≡ number }
{
    match number {
        1 => Kind::Mem,
        2 => Kind::Recv,
        3 => Kind::Send,
        4 => Kind::Serv,
        _ => Kind::Sess,
    }
}

/// The key that the word is, in a text of the version. Takes no memory.
#[tactic(auto, unfolding(crate::specs::Forms::are_numbers, crate::specs::Forms::are_within))]
pub fn read_key(word: &[u8], version: u8) -> Result<Key, Cause>
    ensures fault { place_fault (key_spec version) word.now ≡ result_err result }
    ensures printed { IfOk result (λ k. word.now ≡ key_word k) }
    ensures told { IfOk result (IsKeyInText version) }
{
    let (pe, rest) = first_part(word)?;
    let (vpe, rest) = first_part(rest)?;
    let (kind_number, rest) = first_part(rest)?;
    let number = last_part(rest)?;
    let node = node(version);
    Ok(Key {
        pe: part_in(pe, node)? as u8,
        vpe: part_in(vpe, node)? as u16,
        kind: kind(part_in(kind_number, KIND)?),
        number: part_in(number, DRAWN)? as u16,
    })
}

// The place that the word is, in a text of the version.
#[tactic(auto, unfolding(crate::specs::Forms::are_numbers, crate::specs::Forms::are_within))]
fn place(word: &[u8], version: u8) -> Result<Place, Cause>
    ensures fault { place_fault (key_place version) word.now ≡ result_err result }
    ensures printed { IfOk result (λ p. word.now ≡ place_word p) }
    ensures told { IfOk result (IsPlaceInText version) }
{
    let (pe, rest) = first_part(word)?;
    let (vpe, rest) = first_part(rest)?;
    let number = last_part(rest)?;
    let node = node(version);
    Ok(Place {
        pe: part_in(pe, node)? as u8,
        vpe: part_in(vpe, node)? as u16,
        number: part_in(number, DRAWN)? as u16,
    })
}

impl Words<'_> {
    /// The next word, a key of a text of the version.
    pub fn key(&mut self, version: u8) -> Result<Key, Cause>
        ensures reads { Reads (key_spec version ∷ []) (λ k. key_word k ∷ []) self.old self.new
            result }
        ensures told { IfOk result (IsKeyInText version) }
    {
        let word = self.word()?;
        read_key(word, version)
    }

    /// The next word, the place of a key, in a text of the version.
    pub fn place(&mut self, version: u8) -> Result<Place, Cause>
        ensures reads { Reads (key_place version ∷ []) (λ p. place_word p ∷ []) self.old self.new
            result }
        ensures told { IfOk result (IsPlaceInText version) }
    {
        let word = self.word()?;
        place(word, version)
    }
}
