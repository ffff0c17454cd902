// What an entry tells of the keys that it moves.
ghost use Rattle.std.specs.Prelude.{◌≡◌, option_copied};
ghost use Rattle.sem_query.specs.Changes.{may_revoke as is_revoking_spec};
ghost use Rattle.sem_query.specs.Building.{handled_message as handled_spec, brought_in as brought_in_spec};
ghost use Rattle.sem_query.specs.Building.{brought_by, resumed_vpe as resumed_spec};
ghost use Rattle.sem_query.specs.Building.{requested as requested_spec, returned as returned_spec};

use sem_key::Key;
use sem_msg::{Act, Call, Detail, Entry, Message};

/// The key that the entry brings in the message that it handles.
pub fn brought_key(entry: &Entry) -> Option<Key>
    ensures { result ≡ brought_by entry.now.event.act entry.now.detail }
{
    match handled(entry) {
        Some(message) => brought_in(message),
        None => None,
    }
}

fn handled(entry: &Entry) -> Option<&Message>
    ensures { option_copied result ≡ handled_spec entry.now.event.act entry.now.detail }
{
    match (&entry.event.act, &entry.detail) {
        (Act::Handle, Detail::Carried { message, .. }) => Some(message),
        _ => None,
    }
}

// The key that the message brings.
fn brought_in(message: &Message) -> Option<Key>
    ensures { result ≡ brought_in_spec message.now }
{
    match message {
        Message::ObtainOk { key, .. } => Some(*key),
        Message::Ack { key, yes } => { if *yes { Some(*key) } else { None } }
        _ => None,
    }
}

/// The VPE whose call goes on.
pub fn resumed(act: Act) -> Option<u16>
    ensures { result ≡ resumed_spec act }
{
    match act {
        Act::Resume { vpe } => Some(vpe),
        _ => None,
    }
}

/// Whether the entry revokes.
pub fn is_revoking(entry: &Entry) -> bool
    ensures { result ≡ is_revoking_spec entry.now }
{
    match (entry.event.act, entry.detail) {
        (Act::Kill { .. }, _) => true,
        (Act::Call { .. }, Detail::Called { call, .. }) => {
            matches!(call, Call::Revoke { .. } | Call::Clear { .. } | Call::Exit)
        }
        (Act::Handle, Detail::Carried { message, .. }) => {
            matches!(
                message,
                Message::RevokeReq { .. } | Message::RevokeDone { .. }
            )
        }
        _ => false,
    }
}

/// The key that another kernel asks to revoke.
pub fn requested(entry: &Entry) -> Option<Key>
    ensures { result ≡ requested_spec entry.now.event.act entry.now.detail }
{
    match handled(entry) {
        Some(Message::RevokeReq { key, .. }) => Some(*key),
        _ => None,
    }
}

/// The job that a token comes back to.
pub fn returned(entry: &Entry) -> Option<u32>
    ensures { result ≡ returned_spec entry.now.event.act entry.now.detail }
{
    match handled(entry) {
        Some(Message::RevokeDone { job }) => Some(*job),
        _ => None,
    }
}
