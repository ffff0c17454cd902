// The names of messages.
use crate::counts::message_number;
use sem_key::OutOfMemory;
use sem_msg::Message;
use sem_trace::Form;
use std::alloc::Global;

/// The name of the message.
pub fn message_name(message: &Message) -> &'static str {
    let place = usize::from(message_number(message)).saturating_sub(1);
    match Form::messages().get(place) {
        Some(form) => form.name,
        None => "message",
    }
}

/// The names of the messages, in the order of the variants of `Message`.
pub fn message_names(alloc: Global) -> Result<Vec<&'static str>, OutOfMemory> {
    let mut names = Vec::new(alloc);
    for form in Form::messages() {
        names.push(form.name)?;
    }
    Ok(names)
}
