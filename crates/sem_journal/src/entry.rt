// An entry as words. If memory is refused, each of these functions leaves `out` as it was.
ghost use Rattle.std.specs.Prelude.{◌≡◌, ◌∷◌, ◌++◌, OnOk, OnErr};
ghost use Rattle.sem_text.specs.Lines.{behind_blanks, line};
ghost use Rattle.sem_journal.specs.EntryText.{target_words, message_words, act_words};
ghost use Rattle.sem_journal.specs.EntryText.{consent_word, detail_words, grant_words, cut_words};
ghost use Rattle.sem_journal.specs.EntryText.{reply_words, entry_words, entry_line};
ghost use Rattle.sem_journal.specs.SpacedWords.{spaced};

use crate::put::{
    MOST_LINE, put_act, put_consent, put_cut, put_detail, put_entry, put_entry_words, put_grant,
    put_message, put_reply, put_target,
};
use sem_key::{Key, OutOfMemory};
use sem_msg::{Act, Consent, Detail, Entry, Message, Reply, Target};
use std::alloc::Global;

/// Appends the words of the target, each after a blank.
pub fn push_target(out: &mut Vec<u8>, target: &Target) -> Result<(), OutOfMemory>
    ensures ok { OnOk result
        (out.new.items ≡ out.old.items ++ behind_blanks (target_words target.now)) }
{
    out.reserve(37)?;
    put_target(out, target);
    Ok(())
}

/// Appends the words of the message, each after a blank.
pub fn push_message(out: &mut Vec<u8>, message: &Message) -> Result<(), OutOfMemory>
    ensures ok { OnOk result
        (out.new.items ≡ out.old.items ++ behind_blanks (message_words message.now)) }
{
    out.reserve(107)?;
    put_message(out, message);
    Ok(())
}

/// Appends the words of the act, each after a blank. The kernel of a fetch or a flush is not among
/// them.
pub fn push_act(out: &mut Vec<u8>, act: &Act) -> Result<(), OutOfMemory>
    ensures ok { OnOk result (out.new.items ≡ out.old.items ++ behind_blanks (act_words act.now)) }
{
    out.reserve(18)?;
    put_act(out, act);
    Ok(())
}

/// Appends a blank and the answer.
pub fn push_consent(out: &mut Vec<u8>, answer: &Consent) -> Result<(), OutOfMemory>
    ensures ok { OnOk result (out.new.items ≡ out.old.items ++ 32 ∷ consent_word answer.now) }
{
    out.reserve(5)?;
    put_consent(out, answer);
    Ok(())
}

/// Appends the words that say what an event was about, each after a blank.
pub fn push_detail(out: &mut Vec<u8>, detail: &Detail) -> Result<(), OutOfMemory>
    ensures ok { OnOk result
        (out.new.items ≡ out.old.items ++ behind_blanks (detail_words detail.now)) }
{
    out.reserve(118)?;
    put_detail(out, detail);
    Ok(())
}

/// Appends the words of the grant, each after a blank; nothing if there is none.
pub fn push_grant(out: &mut Vec<u8>, grant: &Option<(Key, Key)>) -> Result<(), OutOfMemory>
    ensures ok { OnOk result
        (out.new.items ≡ out.old.items ++ behind_blanks (grant_words grant.now)) }
{
    out.reserve(46)?;
    put_grant(out, grant);
    Ok(())
}

/// Appends the words of the cut, each after a blank; nothing if there is none.
pub fn push_cut(out: &mut Vec<u8>, cut: &Option<Key>) -> Result<(), OutOfMemory>
    ensures ok { OnOk result (out.new.items ≡ out.old.items ++ behind_blanks (cut_words cut.now)) }
{
    out.reserve(24)?;
    put_cut(out, cut);
    Ok(())
}

/// Appends the words of the reply, each after a blank; nothing if there is none.
pub fn push_reply(out: &mut Vec<u8>, reply: &Option<Reply>) -> Result<(), OutOfMemory>
    ensures ok { OnOk result
        (out.new.items ≡ out.old.items ++ behind_blanks (reply_words reply.now)) }
{
    out.reserve(28)?;
    put_reply(out, reply);
    Ok(())
}

/// Appends the words of the entry, separated by blanks.
pub fn push_entry_words(out: &mut Vec<u8>, entry: &Entry) -> Result<(), OutOfMemory>
    ensures ok { OnOk result (out.new.items ≡ out.old.items ++ spaced (entry_words entry.now)) }
{
    out.reserve(244)?;
    put_entry_words(out, entry);
    Ok(())
}

/// Appends the line of the entry.
pub fn push_entry(out: &mut Vec<u8>, entry: &Entry) -> Result<(), OutOfMemory>
    ensures ok { OnOk result (out.new.items ≡ out.old.items ++ line (entry_words entry.now)) }
{
    out.reserve(MOST_LINE)?;
    put_entry(out, entry);
    Ok(())
}

/// Appends the line of the entry. If memory is refused, `out` is as before.
pub fn print_entry(alloc: Global, entry: &Entry, out: &mut Vec<u8>) -> Result<(), OutOfMemory>
    ensures ok { OnOk result (out.new.items ≡ out.old.items ++ entry_line entry.now) }
    ensures err { OnErr result (out.new.items ≡ out.old.items) }
{
    let mut text = Vec::new(alloc);
    push_entry(&mut text, entry)?;
    out.extend_from_slice(&text)
}
