// The bits of a link in the masks beside the links.
ghost use Rattle.std.specs.Prelude.{◌<◌, ◌==◌, if◌then◌else◌, nat_lt, nat_le, length};
ghost use Rattle.sem_msg.specs.Masks.{has_bit, IsMaskOf};
ghost use Rattle.sem_fabric.specs.Links.{link_to};

use crate::row::Row;
use sem_msg::with_bit;

// Marks a link of the row as it is now: whether a message waits in it, and whether it is full.
pub fn mark(row: &Row, from: u32, to: u32, coming: &mut u32, full: &mut u32)
    requires { to < length row.now.links }
    ensures coming { IsMaskOf (λ k. if k == from then nat_lt 0 (length (link_to row.now to))
        else has_bit coming.old k) coming.new }
    ensures full { IsMaskOf (λ k. if k == to
        then nat_le row.now.window (length (link_to row.now to))
        else has_bit full.old k) full.new }
{
    *coming = with_bit(*coming, from, row.waiting(to) > 0);
    *full = with_bit(*full, to, row.is_full(to));
}
