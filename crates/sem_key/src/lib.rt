//! Keys, capabilities and the membership table: the names that kernels give to what they own.
#![tactic(auto)]

mod key;
mod keys;
mod limits;
mod membership;
mod object;
mod word;

pub use key::{Key, Kind, Place, keyed, pack, same_key, unpack};
pub use keys::Keys;
pub use limits::{ADDRESSES, KERNELS, NUMBERS, PES, RIGHTS, SLOTS, VPES};
pub use membership::{Membership, Taken};
pub use object::{Cap, Object, narrows, same_object};
pub use word::KeyWord;
/// Memory was refused.
pub use std::alloc::AllocError as OutOfMemory;
