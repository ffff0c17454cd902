use sem_key::{Key, Object};

// What an endpoint is bound to: a key, and the object of its capability at the time of binding.
#[derive(Clone, Copy, Debug)]
pub struct Binding {
    pub key: Key,
    pub object: Object,
}
