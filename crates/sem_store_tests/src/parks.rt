ghost use Rattle.std.specs.Prelude.{◌<◌, ◌≤◌};

use sem_key::{Key, Kind, Object, VPES};
use sem_park::{Park, Parked};

// The key of a memory of that VPE, which is on the PE of the same number.
fn key(vpe: u8, number: u16) -> Key
    requires vpe_in_range { vpe < VPES }
    requires number_in_range { number ≤ 4095 }
{
    Key {
        pe: vpe,
        vpe: u16::from(vpe),
        kind: Kind::Mem,
        number,
    }
}

// A call that is about to install the key.
fn ready(key: Key, sel: u8) -> Parked {
    Parked::ObtainReady {
        key,
        parent: key,
        object: Object::Mem {
            base: 4096,
            len: 512,
            rights: 3,
        },
        sel,
    }
}

#[test]
fn a_vpe_has_the_state_that_was_parked_last_until_it_is_cleared(rt: HostRuntime) {
    let mut park = Park::new();
    for vpe in 0..VPES {
        assert!(rt; park.state(vpe).is_none(), "of VPE {vpe}");
    }
    park.park(127, Parked::ObtainWait { number: 9, sel: 4 });
    park.park(0, Parked::RevokeWait { job: 7 });
    park.park(127, Parked::Ready { code: 15 });
    assert_eq!(rt; park.state(127), Some(Parked::Ready { code: 15 }));
    assert_eq!(rt; park.state(0), Some(Parked::RevokeWait { job: 7 }));
    park.clear(127);
    park.clear(6);
    assert_eq!(rt; park.state(127), None);
    assert_eq!(rt; park.state(0), Some(Parked::RevokeWait { job: 7 }));
}

#[test]
fn a_call_is_cancelled_by_the_key_that_it_is_about_to_install(rt: HostRuntime) {
    let mut park = Park::new();
    park.park(5, ready(key(5, 1), 200));
    park.park(6, ready(key(6, 1), 9));
    assert_eq!(rt; park.cancel(key(5, 2)), None, "another number");
    assert_eq!(rt; park.cancel(key(7, 1)), None, "no call waits");
    assert_eq!(rt; park.state(5), Some(ready(key(5, 1), 200)));
    assert_eq!(rt; park.cancel(key(5, 1)), Some(200));
    assert_eq!(rt; park.state(5), Some(Parked::ObtainCancelled));
    assert_eq!(rt; park.state(6), Some(ready(key(6, 1), 9)));
    assert_eq!(rt; park.cancel(key(5, 1)), None, "it is cancelled already");
    let key = key(3, 8);
    for state in &[
        Parked::ObtainWait { number: 8, sel: 1 },
        Parked::DelegateWait { parent: key },
        Parked::DelegateReady { parent: key, key },
        Parked::RevokeWait { job: 8 },
        Parked::Ready { code: 8 },
    ] {
        park.park(3, *state);
        assert_eq!(rt; park.cancel(key), None, "no other state is cancelled");
        assert_eq!(rt; park.state(3), Some(*state));
    }
}

#[test]
fn an_obtain_waits_with_its_number_and_a_delegate_with_its_capability(rt: HostRuntime) {
    let mut park = Park::new();
    park.park(4, Parked::ObtainWait { number: 9, sel: 1 });
    park.park(5, Parked::DelegateWait { parent: key(5, 2) });
    assert!(rt; park.is_obtain_wait(4, 9));
    assert!(rt; !park.is_obtain_wait(4, 8), "another number");
    assert!(rt; !park.is_obtain_wait(5, 9), "a delegate waits");
    assert!(rt; park.is_delegate_wait(key(5, 2)));
    assert!(rt; !park.is_delegate_wait(key(5, 3)), "another capability");
    assert!(rt; !park.is_delegate_wait(key(4, 9)), "an obtain waits");
}
