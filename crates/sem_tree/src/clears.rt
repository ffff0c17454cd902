// The clears that begin at a key.
use sem_key::{Key, same_key};
use sem_msg::{Call, Detail, Entry};

/// The last clear that began at the key.
pub fn clear_of(entries: &[Entry], key: Key) -> Option<usize> {
    let mut last = None;
    for (number, entry) in entries.iter().enumerate() {
        if let Some(root) = entry.cut
            && same_key(&root, &key)
            && is_clear(entry)
        {
            last = Some(number);
        }
    }
    last
}

fn is_clear(entry: &Entry) -> bool {
    match entry.detail {
        Detail::Called {
            call: Call::Clear { .. },
            ..
        } => true,
        _ => false,
    }
}
