use sem_msg::Event;

/// How a history goes on: from which earlier one, and by which event.
#[derive(Clone, Copy, Debug)]
pub struct Step {
    pub from: u32,
    pub event: Event,
}
