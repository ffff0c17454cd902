// An entry of a journal as the members of a JSON object.
use crate::messages::MessageMembers;
use sem_chart::vpe_of;
use sem_hint::key_text;
use sem_key::OutOfMemory;
use sem_msg::{Act, Consent, Detail, Entry, act_number};
use sem_names::{EVENTS, code_name};
use sem_waits::call_words;
use serde::Serialize;
use std::alloc::Global;

/// The line of an entry.
#[derive(Debug, Drop, Serialize)]
pub struct EntryLine {
    line: &'static str,
    entry: u64,
    kernel: u32,
    event: &'static str,
    #[serde(skip_serializing_if = "Option::is_none")]
    vpe: Option<u16>,
    #[serde(skip_serializing_if = "Option::is_none")]
    peer: Option<u32>,
    #[serde(skip_serializing_if = "Option::is_none")]
    call: Option<CallMembers>,
    #[serde(skip_serializing_if = "Option::is_none")]
    message: Option<MessageMembers>,
    #[serde(skip_serializing_if = "Option::is_none")]
    ask: Option<Ask>,
    #[serde(skip_serializing_if = "Option::is_none")]
    grant: Option<Grant>,
    #[serde(skip_serializing_if = "Option::is_none")]
    cut: Option<String>,
    #[serde(skip_serializing_if = "Option::is_none")]
    reply: Option<ReplyMembers>,
}

#[derive(Debug, Drop, Serialize)]
struct CallMembers {
    number: u32,
    words: String,
}

#[derive(Clone, Copy, Debug, Serialize)]
struct Ask {
    asker: u16,
    answer: &'static str,
}

#[derive(Debug, Drop, Serialize)]
struct Grant {
    parent: String,
    key: String,
}

#[derive(Clone, Copy, Debug, Serialize)]
struct ReplyMembers {
    vpe: u16,
    number: u8,
    code: &'static str,
}

impl EntryLine {
    /// What the entry of that number tells.
    pub fn of(alloc: Global, number: usize, entry: &Entry) -> Result<EntryLine, OutOfMemory> {
        let mut line = EntryLine::of_event(number, entry);
        match &entry.detail {
            Detail::Called { index, call } => {
                line.call = Some(CallMembers {
                    number: *index,
                    words: call_words(alloc, call)?,
                });
            }
            Detail::Carried { peer, message } => {
                line.peer = Some(*peer);
                line.message = Some(MessageMembers::of(alloc, message)?);
            }
            Detail::Asked { asker, answer } => {
                line.ask = Some(Ask {
                    asker: *asker,
                    answer: answer_name(*answer),
                });
            }
            Detail::Nothing => {}
        }
        if let Some((parent, key)) = &entry.grant {
            line.grant = Some(Grant {
                parent: key_text(alloc, parent)?,
                key: key_text(alloc, key)?,
            });
        }
        if let Some(key) = &entry.cut {
            line.cut = Some(key_text(alloc, key)?);
        }
        Ok(line)
    }

    // What the event and the reply tell.
    fn of_event(number: usize, entry: &Entry) -> EntryLine {
        EntryLine {
            line: "entry",
            entry: number as u64,
            kernel: entry.event.kernel,
            event: event_name(entry.event.act),
            vpe: vpe_of(entry.event.act),
            peer: None,
            call: None,
            message: None,
            ask: None,
            grant: None,
            cut: None,
            reply: match entry.reply {
                Some(reply) => Some(ReplyMembers {
                    vpe: reply.vpe,
                    number: reply.code,
                    code: code_name(reply.code),
                }),
                None => None,
            },
        }
    }
}

/// The name of the event.
pub fn event_name(act: Act) -> &'static str {
    let place = usize::from(act_number(act)).saturating_sub(1);
    EVENTS.get(place).copied().unwrap_or("event")
}

// What a VPE said.
fn answer_name(answer: Consent) -> &'static str {
    match answer {
        Consent::Yes => "yes",
        Consent::No => "no",
        Consent::Dropped => "drop",
    }
}
