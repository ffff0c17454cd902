// Words of a line. If memory is refused, each of these functions may have appended a part.
ghost use Rattle.std.specs.Prelude.{◌≡◌, ◌∷◌, ◌++◌, map, decimal, OnOk};
ghost use Rattle.sem_text.specs.Lines.{behind_blanks};
ghost use Rattle.sem_trace.specs.Words.{key_word, place_word, object_words, call_words};

use crate::put::{put_call, put_key, put_key_word, put_object, put_place, put_place_word};
use sem_key::{Key, Object, OutOfMemory, Place};
use sem_msg::Call;
use sem_text::push_number_behind;

/// Appends a blank and the word.
#[inline(always)]
pub fn push_word(out: &mut Vec<u8>, word: &[u8]) -> Result<(), OutOfMemory>
    ensures ok { OnOk result (out.new.items ≡ out.old.items ++ 32 ∷ word.now) }
{
    out.push(b' ')?;
    out.extend_from_slice(word)
}

/// Appends a blank and the number.
#[inline(always)]
pub fn push_number_word(out: &mut Vec<u8>, value: u64) -> Result<(), OutOfMemory>
    ensures ok { OnOk result (out.new.items ≡ out.old.items ++ 32 ∷ decimal value) }
{
    push_number_behind(out, b' ', value)
}

/// Appends the numbers, each after a blank.
#[inline(always)]
pub fn push_numbers(out: &mut Vec<u8>, values: &[u64]) -> Result<(), OutOfMemory>
    ensures ok { OnOk result (out.new.items ≡ out.old.items
        ++ behind_blanks (map decimal values.now)) }
{
    for value in values {
        push_number_word(out, *value)?;
    }
    Ok(())
}

/// Appends the name and then the numbers, each after a blank.
#[inline(always)]
pub fn push_named(out: &mut Vec<u8>, name: &[u8], values: &[u64]) -> Result<(), OutOfMemory>
    ensures ok { OnOk result (out.new.items ≡ out.old.items
        ++ behind_blanks (name.now ∷ map decimal values.now)) }
{
    push_word(out, name)?;
    push_numbers(out, values)
}

/// Appends the key.
pub fn push_key(out: &mut Vec<u8>, key: &Key) -> Result<(), OutOfMemory>
    ensures ok { OnOk result (out.new.items ≡ out.old.items ++ key_word key.now) }
{
    out.reserve(19)?;
    put_key(out, key);
    Ok(())
}

/// Appends a blank and the key.
pub fn push_key_word(out: &mut Vec<u8>, key: &Key) -> Result<(), OutOfMemory>
    ensures ok { OnOk result (out.new.items ≡ out.old.items ++ 32 ∷ key_word key.now) }
{
    out.reserve(20)?;
    put_key_word(out, key);
    Ok(())
}

/// Appends the place.
pub fn push_place(out: &mut Vec<u8>, place: &Place) -> Result<(), OutOfMemory>
    ensures ok { OnOk result (out.new.items ≡ out.old.items ++ place_word place.now) }
{
    out.reserve(14)?;
    put_place(out, place);
    Ok(())
}

/// Appends a blank and the place.
pub fn push_place_word(out: &mut Vec<u8>, place: &Place) -> Result<(), OutOfMemory>
    ensures ok { OnOk result (out.new.items ≡ out.old.items ++ 32 ∷ place_word place.now) }
{
    out.reserve(15)?;
    put_place_word(out, place);
    Ok(())
}

/// Appends the words of the object, each after a blank.
pub fn push_object(out: &mut Vec<u8>, object: &Object) -> Result<(), OutOfMemory>
    ensures ok { OnOk result (out.new.items ≡ out.old.items
        ++ behind_blanks (object_words object.now)) }
{
    out.reserve(47)?;
    put_object(out, object);
    Ok(())
}

/// Appends the words of the call, each after a blank.
pub fn push_call(out: &mut Vec<u8>, call: &Call) -> Result<(), OutOfMemory>
    ensures ok { OnOk result (out.new.items ≡ out.old.items
        ++ behind_blanks (call_words call.now)) }
{
    out.reserve(64)?;
    put_call(out, call);
    Ok(())
}
