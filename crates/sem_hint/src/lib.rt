//! Why a line of a trace, a report or file commands is refused, in words: which word of it, what
//! belongs there, and the nearest word that can stand there.
#![tactic(auto)]

mod answers;
mod causes;
mod earlier;
mod forms;
mod handles;
mod hints;
mod places;
mod told;
mod words;

pub use answers::{no_report, too_few_entries, wrong_entry};
pub use hints::{kind_of, no_report_text, refusal_text};
pub use places::TextKind;
/// Memory was refused.
pub use std::alloc::AllocError as OutOfMemory;
pub use told::{act_text, cause_text, object_text};
pub use words::{key_text, text_of};
