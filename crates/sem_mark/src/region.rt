ghost use Rattle.std.specs.Prelude.{◌≡◌, ◌<◌, ◌≤◌, ◌+◌, length, vec_len, vec_capacity};
ghost use Rattle.std.specs.Prelude.{slice_index_or, [], ◌++◌, All, flat_map};
ghost use Rattle.sem_key.specs.KeyName.{KeyName, IsValidKey};
ghost use Rattle.sem_key.specs.KeyList.{IsRising, key_set};
ghost use Rattle.sem_key.specs.CapList.{link_count};
ghost use Rattle.sem_key.specs.Lists.{in_turn};
ghost use Rattle.sem_key.specs.Region.{has_key, region, children_of, all_marked};
ghost use Rattle.sem_caps.specs.CapStore.{IsCapStore};
ghost use Rattle.sem_mark.specs.Walks.{is_unmarked_at as is_open_spec, children_at, unmarked_count};
ghost use Rattle.sem_mark.specs.Walks.{reach as reach_spec};

use sem_caps::Caps;
use sem_key::{Key, pack};

// Lets a job mark the region of the root. Lists the keys of the region and those of its children,
// both in rising order.
pub fn mark_region(caps: &mut Caps, root: Key, job: u32, keys: &mut Vec<Key>, links: &mut Vec<Key>)
    requires room { length caps.old.caps ≤ vec_capacity keys.old }
    requires link_room { link_count caps.old.caps ≤ vec_capacity links.old }
    ensures keys { keys.new.items ≡ region caps.old.caps root }
    ensures rising { IsRising keys.new.items }
    ensures links { links.new.items ≡ children_of caps.old.caps (region caps.old.caps root) }
    ensures caps { caps.new
        ≡ record caps.old { caps = all_marked (region caps.old.caps root) job caps.old.caps } }
    ensures capacity { vec_capacity keys.new ≡ vec_capacity keys.old }
    ensures link_capacity { vec_capacity links.new ≡ vec_capacity links.old }
{
    keys.clear();
    links.clear();
    walk_region(caps, root, job, keys, links);
    sort_keys(keys);
    sort_keys(links);
}

// Marks the region of the root, and lists its keys and those of its children. Both lists must be
// empty before. A marked capability was visited, so none is visited twice.
fn walk_region(caps: &mut Caps, root: Key, job: u32, keys: &mut Vec<Key>, links: &mut Vec<Key>)
    requires empty { keys.old.items ≡ [] }
    requires no_links { links.old.items ≡ [] }
    requires room { length caps.old.caps ≤ vec_capacity keys.old }
    requires link_room { link_count caps.old.caps ≤ vec_capacity links.old }
    ensures keys { (k : KeyName) →
        has_key keys.new.items k ≡ has_key (region caps.old.caps root) k }
    ensures caps { caps.new
        ≡ record caps.old { caps = all_marked (region caps.old.caps root) job caps.old.caps } }
    ensures links { links.new.items ≡ flat_map (children_at caps.old.caps) keys.new.items }
    ensures valid { All IsValidKey links.new.items }
    ensures store { IsCapStore caps.old }
    ensures capacity { vec_capacity keys.new ≡ vec_capacity keys.old }
    ensures link_capacity { vec_capacity links.new ≡ vec_capacity links.old }
{
    reach(caps, root, job, keys);
    let mut at = 0;
    while at < keys.len() {
        reach_children(caps, keys[at], job, keys, links);
        at += 1;
    }
}

// Lists the children of the capability of that key in `links`. Marks those of them that are held
// without a mark, and lists them in `keys`.
fn reach_children(caps: &mut Caps, parent: Key, job: u32, keys: &mut Vec<Key>, links: &mut Vec<Key>)
    requires link_room { vec_len links.old + length (children_at caps.old.caps parent)
        ≤ vec_capacity links.old }
    requires room { vec_len keys.old + unmarked_count caps.old.caps ≤ vec_capacity keys.old }
    ensures walk { (record { caps = caps.new.caps; keys = keys.new.items })
        ≡ in_turn (reach_spec job) (children_at caps.old.caps parent)
        (record { caps = caps.old.caps; keys = keys.old.items }) }
    ensures rest { caps.new ≡ record caps.old { caps = caps.new.caps } }
    ensures room { vec_len keys.new + unmarked_count caps.new.caps
        ≤ vec_len keys.old + unmarked_count caps.old.caps }
    ensures capacity { vec_capacity keys.new ≡ vec_capacity keys.old }
    ensures links { links.new.items ≡ links.old.items ++ children_at caps.old.caps parent }
    ensures valid { All IsValidKey links.old.items → All IsValidKey links.new.items }
    ensures link_capacity { vec_capacity links.new ≡ vec_capacity links.old }
{
    for at in 0..child_count(caps, parent) {
        let child = child_at(caps, parent, at);
        links.push_reserved(child);
        reach(caps, child, job, keys);
    }
}

// Marks the capability of that key and lists it, if it is held without a mark.
fn reach(caps: &mut Caps, key: Key, job: u32, keys: &mut Vec<Key>)
    requires room { vec_len keys.old + unmarked_count caps.old.caps ≤ vec_capacity keys.old }
    ensures store { IsCapStore caps.old }
    ensures walk { (record { caps = caps.new.caps; keys = keys.new.items })
        ≡ reach_spec job key (record { caps = caps.old.caps; keys = keys.old.items }) }
    ensures rest { caps.new ≡ record caps.old { caps = caps.new.caps } }
    ensures room { vec_len keys.new + unmarked_count caps.new.caps
        ≤ vec_len keys.old + unmarked_count caps.old.caps }
    ensures capacity { vec_capacity keys.new ≡ vec_capacity keys.old }
{
    if is_open(caps, key) {
        caps.mark(key, job);
        keys.push_reserved(key);
    }
}

// Whether the capability of that key is held without a mark.
fn is_open(caps: &Caps, key: Key) -> bool
    ensures is_open { result ≡ is_open_spec caps.now.caps key }
    ensures store { IsCapStore caps.now }
{
    match caps.get(key) {
        Some(cap) => cap.mark.is_none(),
        None => false,
    }
}

// How many children the capability of that key has.
fn child_count(caps: &Caps, key: Key) -> usize
    ensures { result ≡ length (children_at caps.now.caps key) }
{
    match caps.get(key) {
        Some(cap) => cap.children.len(),
        None => 0,
    }
}

// The child of the capability of that key at that place.
fn child_at(caps: &Caps, key: Key, at: usize) -> Key
    requires { at < length (children_at caps.now.caps key) }
    ensures child { result ≡ slice_index_or (children_at caps.now.caps key) at result }
    ensures valid { IsValidKey result }
{
    let Some(cap) = caps.get(key) else {
        unreachable!()
    };
    cap.children.as_slice()[at].key()
}

// Puts the keys into rising order, each once.
fn sort_keys(keys: &mut Vec<Key>)
    requires { All IsValidKey keys.old.items }
    ensures keys { keys.new.items ≡ key_set keys.old.items }
    ensures capacity { vec_capacity keys.new ≡ vec_capacity keys.old }
{
    keys.sort_unstable_by_key(|key| pack(*key));
    keys.dedup_by(|one, other| pack(*one) == pack(*other));
}
