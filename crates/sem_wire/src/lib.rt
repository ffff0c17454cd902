//! Messages as records of 64 bytes, and back.
#![tactic(auto)]

mod decoding;
mod encoding;
mod fault;
mod laws;
mod read_messages;
mod read_objects;
mod read_rows;
mod rows;

pub use decoding::decode;
pub use encoding::encode;
pub use fault::WireFault;
pub use laws::a_message_has_one_record;
pub use rows::RECORD;
