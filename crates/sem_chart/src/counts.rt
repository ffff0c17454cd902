// What is counted in a journal.
ghost use Rattle.std.specs.Prelude.{◌≡◌};
ghost use Rattle.sem_chart.specs.Counts.{count_of, is_event as is_event_spec, sends as sends_spec};
ghost use Rattle.sem_chart.specs.Counts.{sends_between as sends_between_spec};
ghost use Rattle.sem_chart.specs.Counts.{answers as answers_spec};
ghost use Rattle.sem_chart.specs.Counts.{message_number as message_number_spec};

use sem_msg::{Act, Detail, Entry, Message, act_number};

/// The number of a message, 1 to 11 in the order of `Message`.
pub fn message_number(message: &Message) -> u8
    ensures { result ≡ message_number_spec message.now }
{
    match message {
        Message::ObtainReq { .. } => 1,
        Message::ObtainOk { .. } => 2,
        Message::ObtainNo { .. } => 3,
        Message::DelegateReq { .. } => 4,
        Message::DelegatePrepared { .. } => 5,
        Message::DelegateNo { .. } => 6,
        Message::Ack { .. } => 7,
        Message::Orphan { .. } => 8,
        Message::RevokeReq { .. } => 9,
        Message::RevokeDone { .. } => 10,
        Message::Unlink { .. } => 11,
    }
}

fn is_event(entry: &Entry, number: u8) -> bool
    ensures { result ≡ is_event_spec number entry.now }
{
    act_number(entry.event.act) == number
}

// Whether the entry sends a message of that number.
fn sends(entry: &Entry, number: u8) -> bool
    ensures { result ≡ sends_spec number entry.now }
{
    match (entry.event.act, entry.detail) {
        (Act::Flush { .. }, Detail::Carried { message, .. }) => message_number(&message) == number,
        _ => false,
    }
}

// Whether the entry sends a message from a kernel to another.
fn sends_between(entry: &Entry, from: u32, to: u32) -> bool
    ensures { result ≡ sends_between_spec from to entry.now }
{
    match entry.event.act {
        Act::Flush { to: other } => entry.event.kernel == from && other == to,
        _ => false,
    }
}

// Whether the entry answers a call with that code.
fn answers(entry: &Entry, code: u8) -> bool
    ensures { result ≡ answers_spec code entry.now }
{
    match entry.reply {
        Some(reply) => reply.code == code,
        None => false,
    }
}

/// How many entries are of the event of that number: those of `act_number`.
pub fn count_event(entries: &[Entry], number: u8) -> usize
    ensures { result ≡ count_of (is_event_spec number) entries.now }
{
    entries
        .iter()
        .filter(|entry| is_event(entry, number))
        .count()
}

/// How many messages of that number were sent: those of `message_number`.
pub fn count_message(entries: &[Entry], number: u8) -> usize
    ensures { result ≡ count_of (sends_spec number) entries.now }
{
    entries.iter().filter(|entry| sends(entry, number)).count()
}

/// How many messages were sent from a kernel to another.
pub fn count_between(entries: &[Entry], from: u32, to: u32) -> usize
    ensures { result ≡ count_of (sends_between_spec from to) entries.now }
{
    entries
        .iter()
        .filter(|entry| sends_between(entry, from, to))
        .count()
}

/// How many calls were answered with that code.
pub fn count_code(entries: &[Entry], code: u8) -> usize
    ensures { result ≡ count_of (answers_spec code) entries.now }
{
    entries.iter().filter(|entry| answers(entry, code)).count()
}
