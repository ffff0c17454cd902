// Tells where a key is.
ghost use Rattle.std.specs.Prelude.{◌≡◌, ◌∷◌, ◌++◌, codes, decimal, OnOk, OnErr};
ghost use Rattle.sem_msg.specs.Setup.{Setup as SetupData};
ghost use Rattle.sem_text.specs.Lines.{line};
ghost use Rattle.sem_query.specs.HolderText.{holder_words, holder_text};
ghost use Rattle.sem_query.specs.Sightings.{IsSeen};

use crate::holder::Holder;
use crate::sighting::Sighting;
use sem_key::OutOfMemory;
use sem_msg::Journal;
use sem_trace::{push_number_word, push_word};
use std::alloc::Global;

/// Appends the line that tells where the key, followed along the journal, is after the first
/// `count` entries. If there are fewer, the line is `none`. If memory is refused, `out` is as
/// before.
pub fn push_whereabouts(
    alloc: Global,
    sighting: &Sighting,
    journal: &Journal,
    out: &mut Vec<u8>,
) -> Result<(), OutOfMemory>
    ensures ok { (T : SetupData) → IsSeen T journal.now.entries sighting.now → OnOk result
        (out.new.items ≡ out.old.items
        ++ holder_text T journal.now.entries sighting.now.key sighting.now.count) }
    ensures err { OnErr result (out.new.items ≡ out.old.items) }
{
    let holder = sighting.holder(journal.len() as u64);
    let mut line = Vec::new(alloc);
    push_holder(&mut line, holder)?;
    out.extend_from_slice(&line)
}

// Appends the line of a holder.
fn push_holder(out: &mut Vec<u8>, holder: Holder) -> Result<(), OutOfMemory>
    ensures { OnOk result (out.new.items ≡ out.old.items ++ line (holder_words holder)) }
{
    match holder {
        Holder::Marked(sel) => push_held(out, sel, b"marked")?,
        Holder::Unmarked(sel) => push_held(out, sel, b"unmarked")?,
        Holder::Way => out.extend_from_slice(b"way")?,
        Holder::No => out.extend_from_slice(b"none")?,
    }
    Ok(out.push(b'\n')?)
}

// Appends the words of a held key, without the end of their line.
fn push_held(out: &mut Vec<u8>, sel: u8, mark: &[u8]) -> Result<(), OutOfMemory>
    ensures { OnOk result (out.new.items ≡ out.old.items
        ++ (codes "held" ++ 32 ∷ decimal sel ++ 32 ∷ mark.now)) }
{
    out.extend_from_slice(b"held")?;
    push_number_word(out, u64::from(sel))?;
    push_word(out, mark)
}
