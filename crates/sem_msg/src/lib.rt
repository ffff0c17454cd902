//! What kernels say to each other and what they keep: messages, calls, events, entries, the setup
//! of a run, and the journal.
#![tactic(auto)]

mod audit;
mod bits;
mod call;
mod code;
mod entry;
mod event;
mod journal;
mod limits;
mod list;
mod lookups;
mod message;
mod outboxes;
mod pool;
mod reserved;
mod same;
mod setup;
mod state;

pub use audit::{Audit, Held, HeldList};
pub use bits::{with_bit, without};
pub use call::Call;
pub use code::Code;
pub use entry::{Consent, Detail, Entry, Outcome, Reply};
pub use event::{Act, Event, act_number};
pub use journal::Journal;
pub use limits::{ASKS, CALLS, ENDPOINTS, SELECTORS, WINDOW};
pub use list::Seq;
pub use message::{Message, Target};
pub use outboxes::Outboxes;
pub use same::{same_entry, same_message};
pub use setup::{
    Calls, Denies, Kills, Offer, Offers, Root, Roots, Service, Services, Setup, VpeDecl, Vpes0,
};
pub use state::{Ask, Parked, Pending, Slot, Up};
