ghost use Rattle.std.specs.Prelude.{◌≡◌, ◌<◌};
ghost use Rattle.sem_key.specs.declared.limits.TheConstants.{NUMBERS, PES, VPES};

use sem_key::{
    Key, KeyWord, Keys, Kind, Membership, Object, Place, Taken, keyed, narrows, pack, same_key,
    unpack,
};
use std::test::Fail;

fn key(pe: u8, vpe: u16, kind: Kind, number: u16) -> Key
    requires pe_in_range { pe < PES }
    requires vpe_in_range { vpe < VPES }
    requires number_in_range { number < NUMBERS }
    ensures { result ≡ record { pe = pe; vpe = vpe; kind = kind; number = number } }
{
    Key {
        pe,
        vpe,
        kind,
        number,
    }
}

#[test]
fn a_kind_has_its_number(rt: HostRuntime) {
    for (kind, number) in [
        (Kind::Mem, 1),
        (Kind::Recv, 2),
        (Kind::Send, 3),
        (Kind::Serv, 4),
        (Kind::Sess, 5),
    ] {
        assert_eq!(rt; kind.number(), number);
    }
}

#[test]
fn a_packed_key_has_its_fields_in_their_bytes(rt: HostRuntime) {
    for (key, bytes) in [
        (key(1, 1, Kind::Mem, 0), [1, 0, 1, 1, 0, 0, 0, 0]),
        (
            key(127, 127, Kind::Sess, 4095),
            [0x7f, 0, 0x7f, 5, 0, 0, 0x0f, 0xff],
        ),
    ] {
        assert_eq!(rt; pack(key).to_be_bytes(), bytes, "of {key:?}");
    }
}

#[test]
fn the_word_of_a_key_is_unpacked(rt: HostRuntime) {
    for key in [
        key(0, 0, Kind::Mem, 0),
        key(1, 2, Kind::Recv, 3),
        key(127, 127, Kind::Sess, 4095),
    ] {
        assert_eq!(rt; unpack(pack(key)), Some(key));
    }
}

#[test]
fn a_word_with_a_field_out_of_its_range_is_of_no_key(rt: HostRuntime) {
    for (cause, bytes) in [
        ("PE 128", [0x80, 0, 1, 1, 0, 0, 0, 0]),
        ("VPE 128", [1, 0, 0x80, 1, 0, 0, 0, 0]),
        ("VPE 256", [1, 1, 0, 1, 0, 0, 0, 0]),
        ("kind 0", [1, 0, 1, 0, 0, 0, 0, 0]),
        ("kind 6", [1, 0, 1, 6, 0, 0, 0, 0]),
        ("number 4096", [1, 0, 1, 1, 0, 0, 0x10, 0]),
    ] {
        assert_eq!(rt; unpack(u64::from_be_bytes(bytes)), None, "{cause}");
    }
}

#[test]
fn keys_that_differ_in_one_field_are_not_the_same(rt: HostRuntime) {
    let one = key(1, 2, Kind::Mem, 3);
    assert!(rt; same_key(&one, &key(1, 2, Kind::Mem, 3)));
    for other in [
        key(0, 2, Kind::Mem, 3),
        key(1, 1, Kind::Mem, 3),
        key(1, 2, Kind::Recv, 3),
        key(1, 2, Kind::Mem, 4),
    ] {
        assert!(rt; !same_key(&one, &other), "{other:?}");
    }
}

// A memory with all rights.
fn memory(base: u32, len: u32) -> Object {
    Object::Mem {
        base,
        len,
        rights: 7,
    }
}

// A send gate to the receive gate of VPE 1.
fn gate(credits: u8) -> Object {
    Object::Send {
        gate: key(1, 1, Kind::Recv, 0),
        label: 5,
        credits,
    }
}

#[test]
fn an_object_has_the_kind_of_its_capabilities(rt: HostRuntime) {
    assert_eq!(rt; memory(0, 1).kind(), Kind::Mem);
    assert_eq!(rt; Object::Recv { slots: 1 }.kind(), Kind::Recv);
    assert_eq!(rt; gate(1).kind(), Kind::Send);
}

#[test]
fn a_child_grants_no_more_than_its_parent(rt: HostRuntime) {
    let parent = key(1, 1, Kind::Mem, 0);
    let object = memory(4096, 4096);
    for (child, narrow) in [
        (memory(4096, 4096), true),
        (memory(8191, 1), true),
        (memory(8191, 2), false),
        (memory(4095, 2), false),
        (memory(0, 0), true),
        (Object::Recv { slots: 1 }, false),
    ] {
        assert_eq!(rt; narrows(&child, parent, &object), narrow, "{child:?}");
    }
}

#[test]
fn a_send_gate_has_no_more_credits_than_its_gate_has_slots(rt: HostRuntime) {
    let parent = key(1, 1, Kind::Recv, 0);
    let object = Object::Recv { slots: 8 };
    for (credits, narrow) in [(1, true), (8, true), (9, false)] {
        assert_eq!(rt;
            narrows(&gate(credits), parent, &object),
            narrow,
            "{credits}"
        );
    }
    assert!(rt; !narrows(&gate(1), key(1, 1, Kind::Recv, 1), &object));
}

#[test]
fn a_place_and_a_kind_make_a_key(rt: HostRuntime) {
    let place = Place {
        pe: 7,
        vpe: 12,
        number: 300,
    };
    assert_eq!(rt; keyed(place, Kind::Serv), key(7, 12, Kind::Serv, 300));
}

#[test]
fn keys_stand_in_rising_order_and_each_once(rt: HostRuntime) -> Result<(), Fail> {
    let low_pe = key(1, 9, Kind::Sess, 4095);
    let low_vpe = key(2, 3, Kind::Sess, 4095);
    let low_kind = key(2, 4, Kind::Mem, 4095);
    let low_number = key(2, 4, Kind::Recv, 5);
    let next = key(2, 4, Kind::Recv, 6);
    let high = key(3, 0, Kind::Mem, 0);
    let mut keys = Keys::new(rt.alloc());
    assert!(rt; keys.as_slice().is_empty());
    for key in [
        next, low_pe, high, low_kind, next, low_vpe, low_pe, low_number, high,
    ] {
        keys.room(1)?;
        keys.insert(key);
    }
    let rising = [
        KeyWord::new(low_pe),
        KeyWord::new(low_vpe),
        KeyWord::new(low_kind),
        KeyWord::new(low_number),
        KeyWord::new(next),
        KeyWord::new(high),
    ];
    assert_eq!(rt; keys.as_slice(), rising.as_slice());
    assert_eq!(rt; keys.len(), 6);
    assert!(rt; keys.has(low_kind) && !keys.has(key(2, 4, Kind::Mem, 4094)));
    keys.clear();
    assert!(rt; keys.as_slice().is_empty() && !keys.has(low_kind));
    Ok(())
}

#[test]
fn a_key_that_is_there_is_removed_and_the_rest_stay(rt: HostRuntime) -> Result<(), Fail> {
    let low = key(1, 1, Kind::Send, 2);
    let middle = key(1, 1, Kind::Send, 3);
    let high = key(1, 1, Kind::Send, 4);
    let mut keys = Keys::new(rt.alloc());
    assert_eq!(rt; keys.room(3), Ok(()));
    keys.insert(high);
    keys.insert(low);
    keys.insert(middle);
    assert_eq!(rt;
        keys.as_slice(),
        [KeyWord::new(low), KeyWord::new(middle), KeyWord::new(high)].as_slice()
    );
    assert!(rt; keys.remove(middle), "it was there");
    assert!(rt; !keys.remove(middle), "it is gone");
    assert_eq!(rt;
        keys.as_slice(),
        [KeyWord::new(low), KeyWord::new(high)].as_slice()
    );
    Ok(())
}

#[test]
fn a_pe_keeps_its_first_owner(rt: HostRuntime) {
    let mut table = Membership::empty(2);
    assert_eq!(rt; table.kernels(), 2);
    for pe in [0, 5, 63, 64, 255] {
        assert_eq!(rt; table.owner(pe), None, "of PE {pe} at first");
    }
    assert_eq!(rt; table.set(5, 1), Ok(()));
    assert_eq!(rt; table.set(5, 0), Err(Taken));
    assert_eq!(rt; table.kernels(), 2);
    assert_eq!(rt; table.owner(5), Some(1));
    for pe in [0, 4, 6, 63, 64, 255] {
        assert_eq!(rt; table.owner(pe), None, "of PE {pe} at the end");
    }
}
