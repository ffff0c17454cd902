// The entries of an exchange: the asks, the answers, and the messages between kernels. A VPE has at
// most one exchange under way.
use sem_msg::{Detail, Message};

/// The VPE whose exchange an entry with this detail belongs to, if there is one.
pub fn exchanger(detail: &Detail) -> Option<u16> {
    match detail {
        Detail::Asked { asker, .. } => Some(*asker),
        Detail::Carried { message, .. } => exchanger_by(message),
        Detail::Called { .. } | Detail::Nothing => None,
    }
}

// The VPE whose exchange the message asks for or answers.
fn exchanger_by(message: &Message) -> Option<u16> {
    match message {
        Message::ObtainReq { place, .. } | Message::ObtainNo { place, .. } => Some(place.vpe),
        Message::ObtainOk { key, .. } => Some(key.vpe),
        Message::DelegateReq { parent, .. }
        | Message::DelegatePrepared { parent, .. }
        | Message::DelegateNo { parent, .. } => Some(parent.vpe),
        _ => None,
    }
}
