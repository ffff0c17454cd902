//! The names of what a journal tells: events, and the codes of replies.
#![tactic(auto)]

/// The names of the events: call, fetch, handle, upcall, resume, flush, kill, in this order.
pub const EVENTS: [&str; 7] = [
    "call", "fetch", "handle", "upcall", "resume", "flush", "kill",
];

/// The names of the codes, by their numbers.
pub const CODES: [&str; 16] = [
    "Ok",
    "NoVpe",
    "Dead",
    "NoCap",
    "Revoking",
    "Refused",
    "Occupied",
    "Numbers",
    "BadKind",
    "Wider",
    "NoService",
    "Gone",
    "Unbound",
    "Rights",
    "Range",
    "SelfExchange",
];

/// The name of the code.
pub fn code_name(code: u8) -> &'static str {
    CODES.get(usize::from(code)).copied().unwrap_or("no code")
}
