// Tables of records of messages: on a line the eight words of a record in hexadecimal, and on the
// next line its message, or what is wrong with it.
use sem_journal::push_message;
use sem_wire::{RECORD, decode, encode};
use std::alloc::{AllocError, Global};

/// How many records of a table are told as it tells them, and how many are not.
pub fn count_records(alloc: Global, table: &[u8]) -> Result<(u64, u64), AllocError> {
    let mut passed = 0u64;
    let mut differ = 0u64;
    let mut record = [0u8; RECORD];
    for (at, line) in str::from_utf8(table).unwrap_or("").lines().enumerate() {
        if at % 2 == 0 {
            record = record_of(line);
        } else if is_told(alloc, &record, line)? {
            passed = passed.saturating_add(1);
        } else {
            differ = differ.saturating_add(1);
        }
    }
    Ok((passed, differ))
}

// The bytes of the eight words of a line. A word that is no number in hexadecimal is taken for 0.
fn record_of(line: &str) -> [u8; RECORD] {
    let mut bytes = [0u8; RECORD];
    for (part, digits) in bytes.chunks_exact_mut(8).zip(line.split(' ')) {
        let word = u64::from_str_radix(digits, 16).unwrap_or(0);
        part.copy_from_slice(&word.to_be_bytes());
    }
    bytes
}

// Whether the record is that of the message with these words, or has that fault.
fn is_told(alloc: Global, record: &[u8; RECORD], told: &str) -> Result<bool, AllocError> {
    match decode(record) {
        Ok(message) => {
            let mut words = Vec::new(alloc);
            push_message(&mut words, &message)?;
            let want = format!(in alloc; " {told}")?;
            Ok(words.as_slice() == want.as_bytes() && encode(&message) == *record)
        }
        Err(fault) => {
            let words = format!(in alloc; "{fault:?}")?;
            Ok(words.as_str() == told)
        }
    }
}
