// Words of reports as texts.
use sem_key::{Object, OutOfMemory, Place};
use sem_trace::push_object;
use std::alloc::Global;

/// The words of the object.
pub fn object_words(alloc: Global, object: &Object) -> Result<String, OutOfMemory> {
    let mut words = Vec::new(alloc);
    push_object(&mut words, object)?;
    text_of(alloc, words.as_slice())
}

/// The word of the place.
pub fn place_word(alloc: Global, place: Place) -> Result<String, OutOfMemory> {
    let (pe, vpe, number) = (place.pe, place.vpe, place.number);
    format!(in alloc; "{pe}.{vpe}.{number}")
}

/// The printed words, which are all ASCII, as a text without a blank before the first.
pub fn text_of(alloc: Global, bytes: &[u8]) -> Result<String, OutOfMemory> {
    let mut text = String::new(alloc);
    for (at, byte) in bytes.iter().enumerate() {
        if at > 0 || *byte != b' ' {
            text.push(char::from(*byte))?;
        }
    }
    Ok(text)
}
