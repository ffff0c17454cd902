// An entry as words, where there is room for them.
ghost use Rattle.std.specs.Prelude.{◌≡◌, ◌+◌, ◌<◌, ◌≤◌, [], ◌∷◌, ◌++◌, length, decimal};
ghost use Rattle.std.specs.Prelude.{vec_len, vec_capacity};
ghost use Rattle.sem_msg.specs.declared.message.Message.TheVariants.{ObtainReq, ObtainNo};
ghost use Rattle.sem_msg.specs.declared.message.Message.TheVariants.{DelegateReq, Ack};
ghost use Rattle.sem_text.specs.Lines.{behind_blanks, line};
ghost use Rattle.sem_trace.specs.MessageForms.{messages, message_row, name_at};
ghost use Rattle.sem_trace.specs.Words.{key_word};
ghost use Rattle.sem_journal.specs.declared.put.TheConstants.{MOST_LINE as MOST_LINE_LEM};
ghost use Rattle.sem_journal.specs.EntryText.{target_words, yes_or_no, message_words, act_words};
ghost use Rattle.sem_journal.specs.EntryText.{consent_word, detail_words, grant_words, cut_words};
ghost use Rattle.sem_journal.specs.EntryText.{reply_words, entry_words};
ghost use Rattle.sem_journal.specs.PartValues.{target_kind};
ghost use Rattle.sem_journal.specs.SpacedWords.{spaced};

use sem_key::{Key, Object, Place};
use sem_msg::{Act, Consent, Detail, Entry, Message, Reply, Target};
use sem_text::put_number;
use sem_trace::{
    Form, MessageKind, TargetKind, put_call, put_key_word, put_number_word, put_numbers,
    put_object, put_place_word, put_word,
};

/// The most bytes of an entry's line, with its line end.
pub const MOST_LINE: usize = 256;

// Appends the name and two keys, each after a blank.
#[inline(always)]
fn put_keys(out: &mut Vec<u8>, name: &[u8], parent: &Key, key: &Key)
    requires room { vec_len out.old + length name.now + 40 < vec_capacity out.old }
    ensures items { out.new.items ≡ out.old.items
        ++ behind_blanks (name.now ∷ key_word parent.now ∷ key_word key.now ∷ []) }
    ensures len { vec_len out.new ≤ vec_len out.old + length name.now + 41 }
    ensures capacity { vec_capacity out.new ≡ vec_capacity out.old }
{
    put_word(out, name);
    put_key_word(out, parent);
    put_key_word(out, key);
}

// Appends the word and the number, each after a blank.
#[inline(always)]
fn put_word_and_number(out: &mut Vec<u8>, word: &[u8], number: u32)
    requires room { vec_len out.old + length word.now + 11 < vec_capacity out.old }
    ensures items { out.new.items ≡ out.old.items
        ++ behind_blanks (word.now ∷ decimal number ∷ []) }
    ensures len { vec_len out.new ≤ vec_len out.old + length word.now + 12 }
    ensures capacity { vec_capacity out.new ≡ vec_capacity out.old }
{
    put_word(out, word);
    put_number_word(out, number);
}

// Appends the name, the key and the number, each after a blank.
#[inline(always)]
fn put_key_and_number(out: &mut Vec<u8>, name: &[u8], key: &Key, number: u32)
    requires room { vec_len out.old + length name.now + 31 < vec_capacity out.old }
    ensures items { out.new.items ≡ out.old.items
        ++ behind_blanks (name.now ∷ key_word key.now ∷ decimal number ∷ []) }
    ensures len { vec_len out.new ≤ vec_len out.old + length name.now + 32 }
    ensures capacity { vec_capacity out.new ≡ vec_capacity out.old }
{
    put_word(out, name);
    put_key_word(out, key);
    put_number_word(out, number);
}

/// Appends the words of the target, each after a blank. There must be room for them.
#[tactic(auto, unfolding(sem_trace::specs::MessageForms::targets))]
pub(crate) fn put_target(out: &mut Vec<u8>, target: &Target)
    requires room { vec_len out.old + 37 ≤ vec_capacity out.old }
    ensures items { out.new.items ≡ out.old.items ++ behind_blanks (target_words target.now) }
    ensures len { vec_len out.new ≤ vec_len out.old + 37 }
    ensures capacity { vec_capacity out.new ≡ vec_capacity out.old }
{
    put_word(out, Form::of_target(kind_of(target)).name.as_bytes());
    match target {
        Target::Sel { vpe, sel } => put_numbers(out, &[u32::from(*vpe), u32::from(*sel)]),
        Target::Serv { service } => put_key_word(out, service),
        Target::Offer { service, index } => {
            put_key_word(out, service);
            put_number_word(out, u32::from(*index));
        }
    }
}

// What the target is.
#[inline]
fn kind_of(target: &Target) -> TargetKind
    ensures { result ≡ target_kind target.now }
{
    match target {
        Target::Sel { .. } => TargetKind::Sel,
        Target::Serv { .. } => TargetKind::Serv,
        Target::Offer { .. } => TargetKind::Offer,
    }
}

// Appends a blank and yes or no.
fn put_yes_or_no(out: &mut Vec<u8>, yes: bool)
    requires room { vec_len out.old + 4 ≤ vec_capacity out.old }
    ensures items { out.new.items ≡ out.old.items ++ 32 ∷ yes_or_no yes }
    ensures len { vec_len out.new ≤ vec_len out.old + 4 }
    ensures capacity { vec_capacity out.new ≡ vec_capacity out.old }
{
    if yes {
        put_word(out, b"yes");
    } else {
        put_word(out, b"no");
    }
}

// The name of the messages of that kind.
#[inline(always)]
fn name_of(kind: MessageKind) -> &'static [u8]
    ensures name { result.now ≡ name_at (messages 1 []) (message_row kind) }
    ensures short { length result.now ≤ 17 }
{
    Form::of_message(kind).name.as_bytes()
}

// Appends the words of a request to obtain, each after a blank.
#[inline(always)]
#[tactic(auto, unfolding(sem_trace::specs::MessageForms::messages))]
fn put_obtain_req(out: &mut Vec<u8>, place: &Place, target: &Target)
    requires room { vec_len out.old + 107 ≤ vec_capacity out.old }
    ensures items { out.new.items ≡ out.old.items
        ++ behind_blanks (message_words (ObtainReq place.now target.now)) }
    ensures len { vec_len out.new ≤ vec_len out.old + 107 }
    ensures capacity { vec_capacity out.new ≡ vec_capacity out.old }
{
    put_word(out, name_of(MessageKind::ObtainReq));
    put_place_word(out, place);
    put_target(out, target);
}

// Appends the words of a refusal to obtain, each after a blank.
#[inline(always)]
#[tactic(auto, unfolding(sem_trace::specs::MessageForms::messages))]
fn put_obtain_no(out: &mut Vec<u8>, place: &Place, code: u8)
    requires room { vec_len out.old + 107 ≤ vec_capacity out.old }
    ensures items { out.new.items ≡ out.old.items
        ++ behind_blanks (message_words (ObtainNo place.now code)) }
    ensures len { vec_len out.new ≤ vec_len out.old + 107 }
    ensures capacity { vec_capacity out.new ≡ vec_capacity out.old }
{
    put_word(out, name_of(MessageKind::ObtainNo));
    put_place_word(out, place);
    put_number_word(out, u32::from(code));
}

// Appends the words of a request to delegate, each after a blank.
#[inline(always)]
#[tactic(auto, unfolding(sem_trace::specs::MessageForms::messages))]
fn put_delegate_req(out: &mut Vec<u8>, parent: &Key, object: &Object, vpe: u16, sel: u8)
    requires room { vec_len out.old + 107 ≤ vec_capacity out.old }
    ensures items { out.new.items ≡ out.old.items
        ++ behind_blanks (message_words (DelegateReq parent.now object.now vpe sel)) }
    ensures len { vec_len out.new ≤ vec_len out.old + 107 }
    ensures capacity { vec_capacity out.new ≡ vec_capacity out.old }
{
    put_word(out, name_of(MessageKind::DelegateReq));
    put_key_word(out, parent);
    put_object(out, object);
    put_numbers(out, &[u32::from(vpe), u32::from(sel)]);
}

// Appends the words of an acknowledgement, each after a blank.
#[inline(always)]
#[tactic(auto, unfolding(sem_trace::specs::MessageForms::messages))]
fn put_ack(out: &mut Vec<u8>, key: &Key, yes: bool)
    requires room { vec_len out.old + 107 ≤ vec_capacity out.old }
    ensures items { out.new.items ≡ out.old.items
        ++ behind_blanks (message_words (Ack key.now yes)) }
    ensures len { vec_len out.new ≤ vec_len out.old + 107 }
    ensures capacity { vec_capacity out.new ≡ vec_capacity out.old }
{
    put_word(out, name_of(MessageKind::Ack));
    put_key_word(out, key);
    put_yes_or_no(out, yes);
}

/// Appends the words of the message, each after a blank. There must be room for them.
#[tactic(auto, unfolding(sem_trace::specs::MessageForms::messages))]
pub(crate) fn put_message(out: &mut Vec<u8>, message: &Message)
    requires room { vec_len out.old + 107 ≤ vec_capacity out.old }
    ensures items { out.new.items ≡ out.old.items ++ behind_blanks (message_words message.now) }
    ensures len { vec_len out.new ≤ vec_len out.old + 107 }
    ensures capacity { vec_capacity out.new ≡ vec_capacity out.old }
{
    match message {
        Message::ObtainReq { place, target } => put_obtain_req(out, place, target),
        Message::ObtainOk {
            parent,
            key,
            object,
        } => {
            put_keys(out, name_of(MessageKind::ObtainOk), parent, key);
            put_object(out, object);
        }
        Message::ObtainNo { place, code } => put_obtain_no(out, place, *code),
        Message::DelegateReq {
            parent,
            object,
            vpe,
            sel,
        } => put_delegate_req(out, parent, object, *vpe, *sel),
        Message::DelegatePrepared { parent, key } => {
            put_keys(out, name_of(MessageKind::DelegatePrepared), parent, key)
        }
        Message::DelegateNo { parent, code } => {
            let name = name_of(MessageKind::DelegateNo);
            put_key_and_number(out, name, parent, u32::from(*code))
        }
        Message::Ack { key, yes } => put_ack(out, key, *yes),
        Message::Orphan { parent, key } => {
            put_keys(out, name_of(MessageKind::Orphan), parent, key)
        }
        Message::RevokeReq { key, job } => {
            put_key_and_number(out, name_of(MessageKind::RevokeReq), key, *job)
        }
        Message::RevokeDone { job } => {
            put_word_and_number(out, name_of(MessageKind::RevokeDone), *job)
        }
        Message::Unlink { parent, key } => {
            put_keys(out, name_of(MessageKind::Unlink), parent, key)
        }
    }
}

/// Appends the words of the act, each after a blank. There must be room for them.
#[inline(always)]
pub(crate) fn put_act(out: &mut Vec<u8>, act: &Act)
    requires room { vec_len out.old + 18 ≤ vec_capacity out.old }
    ensures items { out.new.items ≡ out.old.items ++ behind_blanks (act_words act.now) }
    ensures len { vec_len out.new ≤ vec_len out.old + 18 }
    ensures capacity { vec_capacity out.new ≡ vec_capacity out.old }
{
    match act {
        Act::Call { vpe } => put_word_and_number(out, b"call", u32::from(*vpe)),
        Act::Fetch { .. } => put_word(out, b"fetch"),
        Act::Handle => put_word(out, b"handle"),
        Act::Upcall { vpe } => put_word_and_number(out, b"upcall", u32::from(*vpe)),
        Act::Resume { vpe } => put_word_and_number(out, b"resume", u32::from(*vpe)),
        Act::Flush { .. } => put_word(out, b"flush"),
        Act::Kill { vpe } => put_word_and_number(out, b"kill", u32::from(*vpe)),
    }
}

/// Appends a blank and the answer. There must be room for them.
pub(crate) fn put_consent(out: &mut Vec<u8>, answer: &Consent)
    requires room { vec_len out.old + 5 ≤ vec_capacity out.old }
    ensures items { out.new.items ≡ out.old.items ++ 32 ∷ consent_word answer.now }
    ensures len { vec_len out.new ≤ vec_len out.old + 5 }
    ensures capacity { vec_capacity out.new ≡ vec_capacity out.old }
{
    match answer {
        Consent::Yes => put_word(out, b"yes"),
        Consent::No => put_word(out, b"no"),
        Consent::Dropped => put_word(out, b"drop"),
    }
}

/// Appends the words of the detail, each after a blank. There must be room for them.
#[inline(always)]
pub(crate) fn put_detail(out: &mut Vec<u8>, detail: &Detail)
    requires room { vec_len out.old + 118 ≤ vec_capacity out.old }
    ensures items { out.new.items ≡ out.old.items ++ behind_blanks (detail_words detail.now) }
    ensures len { vec_len out.new ≤ vec_len out.old + 118 }
    ensures capacity { vec_capacity out.new ≡ vec_capacity out.old }
{
    match detail {
        Detail::Called { index, call } => {
            put_number_word(out, *index);
            put_call(out, call);
        }
        Detail::Carried { peer, message } => {
            put_number_word(out, *peer);
            put_message(out, message);
        }
        Detail::Asked { asker, answer } => {
            put_number_word(out, u32::from(*asker));
            put_consent(out, answer);
        }
        Detail::Nothing => {}
    }
}

/// Appends the words of the grant, each after a blank; nothing if there is none. There must be
/// room for them.
#[inline(always)]
pub(crate) fn put_grant(out: &mut Vec<u8>, grant: &Option<(Key, Key)>)
    requires room { vec_len out.old + 46 ≤ vec_capacity out.old }
    ensures items { out.new.items ≡ out.old.items ++ behind_blanks (grant_words grant.now) }
    ensures len { vec_len out.new ≤ vec_len out.old + 46 }
    ensures capacity { vec_capacity out.new ≡ vec_capacity out.old }
{
    match grant {
        Some((parent, child)) => put_keys(out, b"grant", parent, child),
        None => {}
    }
}

/// Appends the words of the cut, each after a blank; nothing if there is none. There must be room
/// for them.
#[inline(always)]
pub(crate) fn put_cut(out: &mut Vec<u8>, cut: &Option<Key>)
    requires room { vec_len out.old + 24 ≤ vec_capacity out.old }
    ensures items { out.new.items ≡ out.old.items ++ behind_blanks (cut_words cut.now) }
    ensures len { vec_len out.new ≤ vec_len out.old + 24 }
    ensures capacity { vec_capacity out.new ≡ vec_capacity out.old }
{
    match cut {
        Some(key) => {
            put_word(out, b"cut");
            put_key_word(out, key);
        }
        None => {}
    }
}

/// Appends the words of the reply, each after a blank; nothing if there is none. There must be
/// room for them.
#[inline(always)]
pub(crate) fn put_reply(out: &mut Vec<u8>, reply: &Option<Reply>)
    requires room { vec_len out.old + 28 ≤ vec_capacity out.old }
    ensures items { out.new.items ≡ out.old.items ++ behind_blanks (reply_words reply.now) }
    ensures len { vec_len out.new ≤ vec_len out.old + 28 }
    ensures capacity { vec_capacity out.new ≡ vec_capacity out.old }
{
    match reply {
        Some(reply) => {
            put_word_and_number(out, b"reply", u32::from(reply.vpe));
            put_number_word(out, u32::from(reply.code));
        }
        None => {}
    }
}

/// Appends the words of the entry, separated by blanks. There must be room for them.
#[inline(always)]
pub(crate) fn put_entry_words(out: &mut Vec<u8>, entry: &Entry)
    requires room { vec_len out.old + 244 ≤ vec_capacity out.old }
    ensures items { out.new.items ≡ out.old.items ++ spaced (entry_words entry.now) }
    ensures len { vec_len out.new ≤ vec_len out.old + 244 }
    ensures capacity { vec_capacity out.new ≡ vec_capacity out.old }
{
    put_number(out, entry.event.kernel);
    put_act(out, &entry.event.act);
    put_detail(out, &entry.detail);
    put_grant(out, &entry.grant);
    put_cut(out, &entry.cut);
    put_reply(out, &entry.reply);
}

/// Appends the line of the entry. There must be room for it.
pub fn put_entry(out: &mut Vec<u8>, entry: &Entry)
    requires room { vec_len out.old + MOST_LINE_LEM ≤ vec_capacity out.old }
    ensures items { out.new.items ≡ out.old.items ++ line (entry_words entry.now) }
    ensures len { vec_len out.new ≤ vec_len out.old + MOST_LINE_LEM }
    ensures capacity { vec_capacity out.new ≡ vec_capacity out.old }
{
    put_entry_words(out, entry);
    out.push_reserved(b'\n');
}
