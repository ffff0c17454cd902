// What stands in the parts of a message.
use sem_key::{Key, Object, Place};
use sem_msg::Target;

/// The most parts of a message.
pub(crate) const MOST_PARTS: usize = 4;

/// What stands in a part of a message.
#[derive(Clone, Copy, Debug)]
pub(crate) enum PartValue {
    Key(Key),
    Place(Place),
    Number(u64),
    Object(Object),
    Target(Target),
    YesOrNo(bool),
}
