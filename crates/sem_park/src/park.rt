ghost use Rattle.std.specs.Prelude.{◌≡◌, ◌<◌, replicate, None, Some};
ghost use Rattle.sem_msg.specs.ParkedStates.{state_of, parked_as, unparked, promised_to, cancelled};
ghost use Rattle.sem_msg.specs.ParkedStates.{is_obtain_wait as is_obtain_wait_spec};
ghost use Rattle.sem_msg.specs.ParkedStates.{is_delegate_wait as is_delegate_wait_spec};
ghost use Rattle.sem_park.specs.Parks.{IsPark};

use sem_key::{Key, VPES, same_key};
use sem_msg::Parked;
use std::marker::Model;

/// For each VPE, 0 to 127, the state in which its call waits, if one does.
#[derive(Clone, Copy, Debug)]
pub struct Park {
    states: [Option<Parked>; VPES as usize],
}

impl Model for Park {
    ghost use Rattle.std.specs.Prelude.{List, Option};
    ghost use Rattle.sem_msg.specs.declared.state.Parked.{Parked};
    ghost use Rattle.sem_park.specs.Parks.{IsPark};

    ghost Value = { List (Option Parked) };

    ghost view = { λ p. p.states };

    ghost invariant = { λ p. IsPark p.states };

    ghost inverse = { λ states. record { states = states } };
}

impl Park {
    /// No call waits.
    pub fn new() -> Self
        ensures none { result ≡ replicate VPES None }
        ensures park { IsPark result }
    {
        Park {
            states: [None; VPES as usize],
        }
    }

    /// The state in which the call of the VPE waits; none if no call of it waits. The VPE must be 0
    /// to 127.
    pub fn state(&self, vpe: u16) -> Option<Parked>
        requires { vpe < VPES }
        ensures state { result ≡ state_of self.now vpe }
        ensures park { IsPark self.now }
    {
        let place = usize::from(vpe);
        self.states[place]
    }

    /// Whether an asking call of the VPE waits with that number. The VPE must be 0 to 127.
    pub fn is_obtain_wait(&self, vpe: u16, number: u16) -> bool
        requires { vpe < VPES }
        ensures { result ≡ is_obtain_wait_spec number (state_of self.now vpe) }
    {
        match self.state(vpe) {
            Some(
                Parked::ObtainWait {
                    number: waiting,
                    ..
                },
            ) => waiting == number,
            _ => false,
        }
    }

    /// Whether a delegate of that capability waits.
    pub fn is_delegate_wait(&self, parent: Key) -> bool
        ensures { result ≡ is_delegate_wait_spec parent (state_of self.now parent.vpe) }
    {
        let state = self.state(parent.vpe);
        match &state {
            Some(Parked::DelegateWait { parent: waiting }) => same_key(waiting, &parent),
            _ => false,
        }
    }

    /// Lets the call of the VPE wait in that state, in place of an earlier one. The VPE must be 0
    /// to 127.
    pub fn park(&mut self, vpe: u16, state: Parked)
        requires { vpe < VPES }
        ensures states { self.new ≡ parked_as self.old vpe state }
        ensures park { IsPark self.new }
    {
        self.states[usize::from(vpe)] = Some(state);
    }

    /// No call of the VPE waits any more. The VPE must be 0 to 127.
    pub fn clear(&mut self, vpe: u16)
        requires { vpe < VPES }
        ensures states { self.new ≡ unparked self.old vpe }
        ensures park { IsPark self.new }
    {
        self.states[usize::from(vpe)] = None;
    }

    /// Cancels the call that is about to install the key, and returns the selector that was
    /// promised to it. If the VPE of the key has no such call, returns none and changes nothing.
    pub fn cancel(&mut self, key: Key) -> Option<u8>
        ensures selector { result ≡ promised_to key (state_of self.old key.vpe) }
        ensures states { self.new ≡ cancelled self.old key }
        ensures park { IsPark self.new }
    {
        let place = usize::from(key.vpe);
        let sel = selector_for(&self.states[place], &key)?;
        self.states[place] = Some(Parked::ObtainCancelled);
        Some(sel)
    }
}

// The selector that was promised to the call in that state, if it is about to install the key.
fn selector_for(state: &Option<Parked>, key: &Key) -> Option<u8>
    ensures { result ≡ promised_to key.now state.now }
{
    match state {
        Some(
            Parked::ObtainReady {
                key: ready,
                sel,
                ..
            },
        ) => same_key(ready, key).then_some(*sel),
        _ => None,
    }
}
