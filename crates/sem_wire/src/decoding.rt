ghost use Rattle.std.specs.Prelude.{◌≡◌, ◌↔◌, Some, Ok, Err};
ghost use Rattle.sem_msg.specs.declared.message.Message.{Message as MessageOf};
ghost use Rattle.sem_wire.specs.declared.fault.WireFault.{WireFault as WireFaultOf};
ghost use Rattle.sem_msg.specs.Message.{Fits};
ghost use Rattle.sem_wire.specs.Records.{record_of, rows_in};
ghost use Rattle.sem_wire.specs.Grammar.{wire_fault};
ghost use Rattle.sem_wire.specs.Reading.{message_read};

use crate::fault::WireFault;
use crate::read_messages::{
    ack, delegate_no, delegate_req, obtain_no, obtain_ok, obtain_req, revoke_done, revoke_req,
    two_keys,
};
use crate::rows::{RECORD, Rows, read_rows};
use sem_msg::Message;

/// The fitting message whose record the bytes are, or what is wrong with them.
pub fn decode(bytes: &[u8; RECORD]) -> Result<Message, WireFault>
    ensures read { (m : MessageOf) → ((result ≡ Ok m) ↔ (Fits m × (record_of m ≡ bytes.now))) }
    ensures refused { (f : WireFaultOf) →
        ((result ≡ Err f) ↔ (wire_fault (rows_in bytes.now) ≡ Some f)) }
{
    message(&read_rows(bytes))
}

// The message with these numbers in its rows.
fn message(rows: &Rows) -> Result<Message, WireFault>
    ensures { result ≡ message_read rows.now }
{
    match rows.tag {
        1 => obtain_req(rows),
        2 => obtain_ok(rows),
        3 => obtain_no(rows),
        4 => delegate_req(rows),
        5 => {
            let (parent, key) = two_keys(rows)?;
            Ok(Message::DelegatePrepared { parent, key })
        }
        6 => delegate_no(rows),
        7 => ack(rows),
        8 => {
            let (parent, key) = two_keys(rows)?;
            Ok(Message::Orphan { parent, key })
        }
        9 => revoke_req(rows),
        10 => revoke_done(rows),
        11 => {
            let (parent, key) = two_keys(rows)?;
            Ok(Message::Unlink { parent, key })
        }
        _ => Err(WireFault::Tag),
    }
}
