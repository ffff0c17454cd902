ghost use Rattle.std.specs.Prelude.{◌≡◌, ◌≤◌, ◌<◌, None, IsTrue, IsSomeAnd};
ghost use Rattle.sem_key.specs.CapList.{cap_of};

use sem_caps::Caps;
use sem_key::{Key, KeyWord, Kind, Object, OutOfMemory, VPES};
use std::alloc::Global;
use std::process::Abort;
use std::test::Fail;

// What every capability of these tests gives its holder.
const MEMORY: Object = Object::Mem {
    base: 4096,
    len: 512,
    rights: 3,
};

// The key of a memory of that VPE, which is on the PE of the same number.
fn key(vpe: u8, number: u16) -> Key
    requires vpe_in_range { vpe < VPES }
    requires number_in_range { number ≤ 4095 }
{
    Key {
        pe: vpe,
        vpe: u16::from(vpe),
        kind: Kind::Mem,
        number,
    }
}

// Inserts a capability under a key that is not held.
fn put(
    rt: &impl Abort,
    caps: &mut Caps,
    key: Key,
    parent: Option<Key>,
    selector: u8,
) -> Result<(), OutOfMemory> {
    caps.room(1, None)?;
    assert!(rt; caps.get(key).is_none());
    caps.insert(key, parent, selector, MEMORY);
    Ok(())
}

// Links the child to a held capability.
fn link(rt: &impl Abort, caps: &mut Caps, parent: Key, child: Key) -> Result<(), OutOfMemory> {
    assert!(rt; caps.get(parent).is_some());
    caps.room(0, Some(parent))?;
    caps.link(parent, child);
    Ok(())
}

// The children of a held capability.
fn children<'a>(rt: &impl Abort, caps: &'a Caps, key: Key) -> &'a [KeyWord] {
    assert!(rt; caps.get(key).is_some());
    caps.children_sorted(key)
}

// Whether the capability is held without a mark.
fn is_unmarked(caps: &Caps, key: Key) -> bool
    ensures { IsTrue result → IsSomeAnd (cap_of caps.now.caps key) (λ c. c.mark ≡ None) }
{
    match caps.get(key) {
        Some(cap) => cap.mark.is_none(),
        None => false,
    }
}

// Removes what the job has marked; its root may be given.
fn sweep(
    alloc: Global,
    caps: &mut Caps,
    job: u32,
    root: Option<Key>,
) -> Result<Vec<(Key, u8)>, OutOfMemory> {
    let mut gone = Vec::with_capacity(alloc, caps.len())?;
    match root {
        Some(_) => caps.remove_marked_of(job, root, &mut gone),
        None => caps.remove_marked(job, &mut gone),
    }
    Ok(gone)
}

// Lets a job mark a capability that is held without a mark.
fn mark(rt: &impl Abort, caps: &mut Caps, key: Key, job: u32) {
    assert!(rt; is_unmarked(caps, key));
    caps.mark(key, job);
}

// Four capabilities, the second below the first.
fn four(rt: &impl Abort, alloc: Global) -> Result<Caps, OutOfMemory> {
    let mut caps = Caps::new(alloc)?;
    put(rt, &mut caps, key(2, 0), None, 4)?;
    put(rt, &mut caps, key(1, 7), Some(key(2, 0)), 5)?;
    put(rt, &mut caps, key(3, 9), None, 6)?;
    put(rt, &mut caps, key(1, 2), None, 7)?;
    Ok(caps)
}

#[test]
fn capabilities_are_found_by_their_keys_and_in_key_order(rt: HostRuntime) -> Result<(), Fail> {
    let caps = four(&rt, rt.alloc())?;
    assert!(rt; caps.get(key(1, 0)).is_none() && caps.place_of(key(1, 0)).is_none());
    assert!(rt; caps.place_of(key(1, 7)).is_some() && caps.at(4).is_none());
    let (Some(cap), Some(least)) = (caps.get(key(1, 7)), caps.at(0)) else {
        return Err(Fail::new("they are held"));
    };
    assert_eq!(rt; (cap.key, cap.parent), (key(1, 7), Some(key(2, 0))));
    assert_eq!(rt; (cap.mark, cap.selector, cap.object), (None, 5, MEMORY));
    assert!(rt; cap.children.as_slice().is_empty());
    assert_eq!(rt; (least.key, least.parent), (key(1, 2), None));
    Ok(())
}

#[test]
fn the_keys_of_a_vpe_follow_each_other(rt: HostRuntime) -> Result<(), Fail> {
    let caps = four(&rt, rt.alloc())?;
    for (vpe, above, next) in [
        (1, None, Some(key(1, 2))),
        (1, Some(key(1, 2)), Some(key(1, 7))),
        (1, Some(key(1, 3)), Some(key(1, 7))),
        (1, Some(key(1, 7)), None),
        (2, Some(key(1, 7)), Some(key(2, 0))),
        (2, Some(key(3, 0)), None),
        (4, None, None),
    ] {
        assert_eq!(rt; caps.next_of(vpe, above), next);
    }
    let mut keys = Vec::with_capacity(rt.alloc(), caps.len())?;
    caps.append_keys_of(1, &mut keys);
    assert_eq!(rt; keys.as_slice(), [key(1, 2), key(1, 7)].as_slice());
    Ok(())
}

#[test]
fn a_link_stands_once_until_it_is_taken_away(rt: HostRuntime) -> Result<(), Fail> {
    let mut caps = Caps::new(rt.alloc())?;
    let parent = key(1, 0);
    put(&rt, &mut caps, parent, None, 0)?;
    for child in [key(9, 1), key(8, 1), key(9, 1)] {
        link(&rt, &mut caps, parent, child)?;
    }
    assert_eq!(rt;
        children(&rt, &caps, parent),
        [KeyWord::new(key(8, 1)), KeyWord::new(key(9, 1))].as_slice()
    );
    // In turn: it was there, it is gone, and there is no such parent.
    for (parent, child, stood) in [
        (parent, key(9, 1), true),
        (parent, key(9, 1), false),
        (key(2, 0), key(8, 1), false),
    ] {
        assert_eq!(rt; caps.unlink(parent, child), stood);
    }
    let left = [KeyWord::new(key(8, 1))];
    assert_eq!(rt; children(&rt, &caps, parent), left.as_slice());
    assert_eq!(rt; caps.child_links(), 1);
    Ok(())
}

#[test]
fn a_restored_capability_has_no_mark_and_no_child(rt: HostRuntime) -> Result<(), Fail> {
    let mut caps = Caps::new(rt.alloc())?;
    let (parent, other) = (key(127, 0), key(1, 0));
    put(&rt, &mut caps, parent, Some(key(3, 1)), 9)?;
    put(&rt, &mut caps, other, None, 0)?;
    for (parent, child) in [
        (parent, key(9, 1)),
        (parent, key(8, 1)),
        (parent, key(9, 2)),
        (other, key(9, 1)),
    ] {
        link(&rt, &mut caps, parent, child)?;
    }
    for key in [parent, other] {
        assert!(rt; is_unmarked(&caps, key));
        caps.mark(key, 7);
    }
    assert_eq!(rt; caps.child_links(), 4);
    assert!(rt; caps.get(parent).is_some());
    caps.restore(parent);
    assert!(rt; is_unmarked(&caps, parent) && !is_unmarked(&caps, other));
    assert!(rt; children(&rt, &caps, parent).is_empty());
    assert_eq!(rt; (caps.child_links(), caps.len()), (1, 2));
    let cap = caps.get(parent).ok_or("it is held")?;
    assert_eq!(rt; (cap.parent, cap.selector), (Some(key(3, 1)), 9));
    link(&rt, &mut caps, parent, key(9, 1))?;
    let left = [KeyWord::new(key(9, 1))];
    assert_eq!(rt; children(&rt, &caps, parent), left.as_slice());
    Ok(())
}

// 4,096 capabilities of one VPE, inserted in falling order. One job has marked a third of them, and
// another job another third.
fn three_thirds(rt: &impl Abort, alloc: Global) -> Result<Caps, OutOfMemory> {
    let mut caps = Caps::new(alloc)?;
    for number in (0..4096).rev() {
        let key = key(5, number);
        put(rt, &mut caps, key, None, 9)?;
        if number % 3 > 0 {
            assert!(rt; is_unmarked(&caps, key));
            caps.mark(key, u32::from(number % 3));
        }
    }
    Ok(caps)
}

#[test]
fn what_a_job_has_marked_goes_in_key_order_and_no_other_moves(rt: HostRuntime) -> Result<(), Fail> {
    let mut caps = three_thirds(&rt, rt.alloc())?;
    let place = caps.place_of(key(5, 4095));
    let gone = sweep(rt.alloc(), &mut caps, 1, None)?;
    assert_eq!(rt; (gone.len(), caps.len()), (1365, 2731));
    for (at, (gone, selector)) in gone.iter().enumerate() {
        assert_eq!(rt;
            (gone.number % 3, usize::from(gone.number) / 3, *selector),
            (1, at, 9)
        );
    }
    assert!(rt; place.is_some() && caps.place_of(key(5, 4095)) == place);
    assert!(rt; caps.get(key(5, 1)).is_none() && is_unmarked(&caps, key(5, 0)));
    assert!(rt; caps.get(key(5, 2)).is_some() && !is_unmarked(&caps, key(5, 2)));
    Ok(())
}

#[test]
fn what_a_job_alone_has_marked_goes_and_no_mark_is_mixed_up(rt: HostRuntime) -> Result<(), Fail> {
    let alloc = rt.alloc();
    let mut caps = four(&rt, alloc)?;
    // The marks of these two jobs are counted together.
    mark(&rt, &mut caps, key(1, 7), 1);
    mark(&rt, &mut caps, key(3, 9), 257);
    assert!(rt; sweep(alloc, &mut caps, 2, Some(key(1, 7)))?.is_empty());
    let first = sweep(alloc, &mut caps, 1, Some(key(1, 7)))?;
    assert_eq!(rt; first.as_slice(), [(key(1, 7), 5)].as_slice());
    assert!(rt; sweep(alloc, &mut caps, 1, Some(key(3, 9)))?.is_empty());
    assert_eq!(rt; caps.len(), 3);
    // One alone is marked, and is not the root; then it is.
    mark(&rt, &mut caps, key(2, 0), 3);
    let second = sweep(alloc, &mut caps, 3, Some(key(1, 2)))?;
    let third = sweep(alloc, &mut caps, 257, Some(key(3, 9)))?;
    assert_eq!(rt; second.as_slice(), [(key(2, 0), 4)].as_slice());
    assert_eq!(rt; third.as_slice(), [(key(3, 9), 6)].as_slice());
    assert!(rt; caps.len() == 1 && is_unmarked(&caps, key(1, 2)));
    Ok(())
}

#[test]
fn after_lack_of_memory_all_is_as_before(rt: HostRuntime) -> Result<(), Fail> {
    let mut caps = Caps::new(rt.alloc())?;
    let parent = key(1, 0);
    let other = key(1, 1);
    put(&rt, &mut caps, parent, None, 1)?;
    put(&rt, &mut caps, other, Some(parent), 2)?;
    link(&rt, &mut caps, parent, other)?;
    // With `rt try --test --fail-alloc 5` memory for the slab is refused here, with 6 for the list,
    // and with 7 for the children.
    let is_refused = caps.room(100, Some(other)).is_err();
    assert_eq!(rt; caps.len(), 2, "refused: {is_refused}");
    let left = [KeyWord::new(other)];
    assert_eq!(rt; children(&rt, &caps, parent), left.as_slice());
    assert!(rt; children(&rt, &caps, other).is_empty());
    Ok(())
}
