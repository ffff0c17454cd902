// Comparing the states in which calls are parked.
ghost use Rattle.std.specs.Prelude.{◌≡◌, ◌↔◌, IsTrue};

use sem_key::same_object;
use sem_msg::Parked;

/// Whether the states are equal in all their parts.
pub fn same_state(one: &Option<Parked>, other: &Option<Parked>) -> bool
    ensures { IsTrue result ↔ (one.now ≡ other.now) }
{
    match (one, other) {
        (Some(one), Some(other)) => same_parked(one, other),
        (None, None) => true,
        _ => false,
    }
}

// The same for parked calls.
fn same_parked(one: &Parked, other: &Parked) -> bool
    ensures { IsTrue result ↔ (one.now ≡ other.now) }
{
    match (one, other) {
        (Parked::ObtainWait { number, sel }, Parked::ObtainWait { number: n, sel: s }) => {
            number == n && sel == s
        }
        (
            Parked::ObtainReady {
                key,
                parent,
                object,
                sel,
            },
            Parked::ObtainReady {
                key: k,
                parent: p,
                object: o,
                sel: s,
            },
        ) => key == k && parent == p && same_object(object, o) && sel == s,
        (Parked::ObtainCancelled, Parked::ObtainCancelled) => true,
        (Parked::DelegateWait { parent }, Parked::DelegateWait { parent: p }) => parent == p,
        (Parked::DelegateReady { parent, key }, Parked::DelegateReady { parent: p, key: k }) =>
            parent == p && key == k,
        (Parked::RevokeWait { job }, Parked::RevokeWait { job: j }) => job == j,
        (Parked::Ready { code }, Parked::Ready { code: c }) => code == c,
        _ => false,
    }
}
