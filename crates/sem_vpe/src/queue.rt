// An append into room that is there. It takes the item by reference: a push by value of an enum
// that holds an enum that holds keys gets no generated proof.
ghost use Rattle.std.specs.Prelude.{◌≡◌, ◌<◌, [], ◌∷◌, ◌++◌, length};
ghost use Rattle.circular_buffer.specs.Buffer.{buffer};

use circular_buffer::HeapCircularBuffer;

// Appends a copy of the item at the back.
pub fn append<T: Copy>(queue: &mut HeapCircularBuffer<T>, item: &T)
    requires { length queue.old.items < queue.old.capacity }
    ensures { queue.new ≡ buffer (queue.old.items ++ item.now ∷ []) queue.old.capacity }
{
    queue.push_back(*item);
}
