ghost use Rattle.std.specs.Prelude.{◌≡◌, ◌+◌, ◌*◌, ◌<◌, ◌≤◌, [], ◌∷◌, ◌++◌, nat_lt, decimal, OnOk};
ghost use Rattle.std.specs.Prelude.{OnErr, Ok, Err, if◌then◌else◌};
ghost use Rattle.std.specs.List.{list_all};
ghost use Rattle.std.specs.Vec.{vec_len, vec_capacity};
ghost use Rattle.sem_text.specs.Number.{number_of, is_digit, three_digits};
ghost use Rattle.sem_text.specs.Number.{is_number as is_number_spec};
ghost use Rattle.sem_text.specs.declared.numbers.NumberFault.TheVariants.{Range};

use itoa::Buffer;
use std::alloc::AllocError as OutOfMemory;
use thiserror::Error;

/// Why a word is not a number up to the limit.
#[derive(Clone, Copy, Debug, PartialEq, Eq, Error)]
pub enum NumberFault {
    #[error("not a number")]
    Bad,
    #[error("the number is out of its range")]
    Range,
}

/// The number that the word is, if it is one and at most `most`. A number is `0`, or a digit 1 to 9
/// followed by digits. Takes no memory.
// Most numbers have one digit, and their way is inlined.
#[inline(always)]
pub fn number(word: &[u8], most: u64) -> Result<u64, NumberFault>
    ensures { result ≡ number_of word.now most }
{
    match word {
        [ones] => one_digit(*ones, most),
        _ => number_of_digits(word, most),
    }
}

#[inline(never)]
fn number_of_digits(word: &[u8], most: u64) -> Result<u64, NumberFault>
    ensures { result ≡ number_of word.now most }
{
    match word {
        [tens, ones] => two_digits(*tens, *ones, most),
        _ => long_number(word, most),
    }
}

#[inline]
fn one_digit(ones: u8, most: u64) -> Result<u64, NumberFault>
    ensures { result ≡ number_of (ones ∷ []) most }
{
    if !ones.is_ascii_digit() {
        return Err(NumberFault::Bad);
    }
    up_to(u64::from(ones - b'0'), most)
}

#[inline]
fn two_digits(tens: u8, ones: u8, most: u64) -> Result<u64, NumberFault>
    ensures { result ≡ number_of (tens ∷ ones ∷ []) most }
{
    if !tens.is_ascii_digit() || !ones.is_ascii_digit() || tens == b'0' {
        return Err(NumberFault::Bad);
    }
    up_to(u64::from(tens - b'0') * 10 + u64::from(ones - b'0'), most)
}

// The value, if it is at most `most`.
#[inline]
fn up_to(value: u64, most: u64) -> Result<u64, NumberFault>
    ensures { result ≡ (if nat_lt most value then Err Range else Ok value) }
{
    if value <= most {
        Ok(value)
    } else {
        Err(NumberFault::Range)
    }
}

fn long_number(word: &[u8], most: u64) -> Result<u64, NumberFault>
    ensures { result ≡ number_of word.now most }
{
    if !is_number(word) {
        return Err(NumberFault::Bad);
    }
    let mut value = 0u64;
    for byte in word {
        value = with_digit(value, *byte - b'0', most)?;
    }
    Ok(value)
}

/// Whether the word is a number, however large. Takes no memory.
pub fn is_number(word: &[u8]) -> bool
    ensures { result ≡ is_number_spec word.now }
{
    match word {
        [] => false,
        [b'0', _, ..] => false,
        digits => all_digits(digits),
    }
}

fn all_digits(bytes: &[u8]) -> bool
    ensures { result ≡ list_all is_digit bytes.now }
{
    bytes.iter().all(|byte| byte.is_ascii_digit())
}

// The value with one more digit after it, if that is at most `most`.
fn with_digit(value: u64, digit: u8, most: u64) -> Result<u64, NumberFault>
    requires { digit < 10 }
    ensures { result ≡ (if nat_lt most (value * 10 + digit) then Err Range
        else Ok (value * 10 + digit)) }
{
    match value
        .checked_mul(10)
        .and_then(|tens| tens.checked_add(u64::from(digit)))
    {
        Some(next) if next <= most => Ok(next),
        _ => Err(NumberFault::Range),
    }
}

/// Appends the decimal text of the number. If memory is refused, `out` is as before.
pub fn push_number(out: &mut Vec<u8>, value: u64) -> Result<(), OutOfMemory>
    ensures ok { OnOk result (out.new.items ≡ out.old.items ++ decimal value) }
    ensures err { OnErr result (out.new.items ≡ out.old.items) }
{
    if value > u64::from(u32::MAX) {
        return push_long(out, value);
    }
    out.reserve(10)?;
    put_number(out, value as u32);
    Ok(())
}

/// Appends the byte, and then the decimal text of the number. If memory is refused, a part may be
/// there.
pub fn push_number_behind(out: &mut Vec<u8>, byte: u8, value: u64) -> Result<(), OutOfMemory>
    ensures ok { OnOk result (out.new.items ≡ out.old.items ++ byte ∷ decimal value) }
{
    if value > u64::from(u32::MAX) {
        out.push(byte)?;
        return push_long(out, value);
    }
    out.reserve(11)?;
    put_number_behind(out, byte, value as u32);
    Ok(())
}

// Appends the decimal text of the number, of any length.
#[inline(never)]
fn push_long(out: &mut Vec<u8>, value: u64) -> Result<(), OutOfMemory>
    ensures ok { OnOk result (out.new.items ≡ out.old.items ++ decimal value) }
    ensures err { OnErr result (out.new.items ≡ out.old.items) }
{
    out.extend_from_slice(Buffer::new().format(value).as_bytes())
}

/// Appends the decimal text of the number. There must be room for it.
// Most numbers have one digit, and their way is inlined.
#[inline(always)]
pub fn put_number(out: &mut Vec<u8>, value: u32)
    requires room { vec_len out.old + 10 ≤ vec_capacity out.old }
    ensures items { out.new.items ≡ out.old.items ++ decimal value }
    ensures len { vec_len out.new ≤ vec_len out.old + 10 }
    ensures capacity { vec_capacity out.new ≡ vec_capacity out.old }
{
    if value < 10 {
        put_digit(out, value as u8);
    } else {
        put_digits(out, value);
    }
}

/// Appends the byte, and then the decimal text of the number. There must be room for it.
#[inline(always)]
pub fn put_number_behind(out: &mut Vec<u8>, byte: u8, value: u32)
    requires room { vec_len out.old + 11 ≤ vec_capacity out.old }
    ensures items { out.new.items ≡ out.old.items ++ byte ∷ decimal value }
    ensures len { vec_len out.new ≤ vec_len out.old + 11 }
    ensures capacity { vec_capacity out.new ≡ vec_capacity out.old }
{
    out.push_reserved(byte);
    put_number(out, value);
}

/// Appends the decimal text of a number below 10,000. There must be room for it.
#[inline(always)]
pub fn put_small_number(out: &mut Vec<u8>, value: u32)
    requires few { value < 10000 }
    requires room { vec_len out.old + 4 ≤ vec_capacity out.old }
    ensures items { out.new.items ≡ out.old.items ++ decimal value }
    ensures len { vec_len out.new ≤ vec_len out.old + 4 }
    ensures capacity { vec_capacity out.new ≡ vec_capacity out.old }
{
    if value < 10 {
        put_digit(out, value as u8);
    } else {
        put_four_digits(out, value);
    }
}

// Appends the decimal text of the number. There must be room for it.
#[inline(never)]
fn put_digits(out: &mut Vec<u8>, value: u32)
    requires room { vec_len out.old + 10 ≤ vec_capacity out.old }
    ensures items { out.new.items ≡ out.old.items ++ decimal value }
    ensures len { vec_len out.new ≤ vec_len out.old + 10 }
    ensures capacity { vec_capacity out.new ≡ vec_capacity out.old }
{
    if value < 1000 {
        put_three_digits(out, value);
    } else if value < 1_000_000 {
        put_three_digits(out, value / 1000);
        put_last_digits(out, value % 1000);
    } else {
        put_four_digits(out, value / 1_000_000);
        put_last_digits(out, value / 1000 % 1000);
        put_last_digits(out, value % 1000);
    }
}

// Appends the decimal text of a number below 10,000. There must be room for it.
#[inline(never)]
fn put_four_digits(out: &mut Vec<u8>, value: u32)
    requires few { value < 10000 }
    requires room { vec_len out.old + 4 ≤ vec_capacity out.old }
    ensures items { out.new.items ≡ out.old.items ++ decimal value }
    ensures len { vec_len out.new ≤ vec_len out.old + 4 }
    ensures capacity { vec_capacity out.new ≡ vec_capacity out.old }
{
    if value < 1000 {
        put_three_digits(out, value);
    } else {
        put_digit(out, (value / 1000) as u8);
        put_last_digits(out, value % 1000);
    }
}

// Appends the last three digits of a number. There must be room for them.
fn put_last_digits(out: &mut Vec<u8>, value: u32)
    requires few { value < 1000 }
    requires room { vec_len out.old + 3 ≤ vec_capacity out.old }
    ensures items { out.new.items ≡ out.old.items ++ three_digits value }
    ensures len { vec_len out.new ≤ vec_len out.old + 3 }
    ensures capacity { vec_capacity out.new ≡ vec_capacity out.old }
{
    put_digit(out, (value / 100) as u8);
    put_digit(out, (value / 10 % 10) as u8);
    put_digit(out, (value % 10) as u8);
}

// Appends the decimal text of a number below 1,000. There must be room for it.
#[inline(always)]
fn put_three_digits(out: &mut Vec<u8>, value: u32)
    requires few { value < 1000 }
    requires room { vec_len out.old + 3 ≤ vec_capacity out.old }
    ensures items { out.new.items ≡ out.old.items ++ decimal value }
    ensures len { vec_len out.new ≤ vec_len out.old + 3 }
    ensures capacity { vec_capacity out.new ≡ vec_capacity out.old }
{
    if value < 10 {
        put_digit(out, value as u8);
    } else {
        put_two_digits(out, value / 10);
        put_digit(out, (value % 10) as u8);
    }
}

// Appends the decimal text of a number below 100. There must be room for it.
fn put_two_digits(out: &mut Vec<u8>, value: u32)
    requires few { value < 100 }
    requires room { vec_len out.old + 2 ≤ vec_capacity out.old }
    ensures items { out.new.items ≡ out.old.items ++ decimal value }
    ensures len { vec_len out.new ≤ vec_len out.old + 2 }
    ensures capacity { vec_capacity out.new ≡ vec_capacity out.old }
{
    if value < 10 {
        put_digit(out, value as u8);
    } else {
        put_digit(out, (value / 10) as u8);
        put_digit(out, (value % 10) as u8);
    }
}

// Appends a digit. There must be room for it.
fn put_digit(out: &mut Vec<u8>, digit: u8)
    requires digit { digit < 10 }
    requires room { vec_len out.old < vec_capacity out.old }
    ensures items { out.new.items ≡ out.old.items ++ decimal digit }
    ensures byte { out.new.items ≡ out.old.items ++ (48 + digit) ∷ [] }
    ensures len { vec_len out.new ≡ vec_len out.old + 1 }
    ensures capacity { vec_capacity out.new ≡ vec_capacity out.old }
{
    out.push_reserved(b'0' + digit);
}
