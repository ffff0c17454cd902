use sem_key::Key;
use sem_msg::Reply;

/// What an event granted, cut and replied.
#[derive(Clone, Copy, Debug)]
pub struct Shown {
    pub grant: Option<(Key, Key)>,
    pub cut: Option<Key>,
    pub reply: Option<Reply>,
}
