//! The text of a trace: the words of keys, objects and calls, and the lines that declare a setup.
#![tactic(auto)]

mod call_forms;
mod calls;
mod cursor;
mod declaration;
mod declarations;
mod dotted;
mod fault;
mod forms;
mod limits;
mod line_error;
mod line_forms;
mod message_forms;
mod print;
mod push;
mod put;
mod slots;
mod text_lines;

pub use call_forms::{CallForm, CallKind};
pub use cursor::{Lines, Words};
pub use declaration::Declaration;
pub use declarations::{read_declaration, read_first, read_second, read_third};
pub use dotted::read_key;
pub use fault::{Cause, LineFault, TraceError, TraceFault};
pub use forms::{BYTE, CODE, ENDPOINT, RIGHTS, Range, SLOTS, WORD, is, node};
pub use limits::{LINK_WINDOW, most_kernels, most_vpes};
pub use line_error::{LineError, at_line, refused};
pub use line_forms::{LineForm, LineKind, PlainKind, RootForm, RootKind};
pub use message_forms::{Form, KeyRole, MessageKind, Part, TargetKind, form_named};
pub use print::{print_trace, push_line, push_start, push_trace};
pub use push::{
    push_call, push_key, push_key_word, push_named, push_number_word, push_numbers, push_object,
    push_place, push_place_word, push_word,
};
pub use put::{
    put_call, put_key_word, put_number_word, put_numbers, put_object, put_place_word, put_word,
};
pub use slots::Slot;
pub use text_lines::{bytes_fault, is_significant, next_word};
