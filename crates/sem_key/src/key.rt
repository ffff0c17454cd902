ghost use Rattle.std.specs.Prelude.{◌≡◌, ◌↔◌, Some, IfSome};
ghost use Rattle.sem_key.specs.KeyName.{KeyName, IsValidKey, kind_number};
ghost use Rattle.sem_key.specs.KeyName.{kind_numbered as kind_numbered_spec, packed, key_eq};
ghost use Rattle.sem_key.specs.PlaceName.{keyed as keyed_spec};

use crate::limits::{NUMBERS, PES, VPES};
use std::marker::Model;

/// What a capability is for.
#[derive(Clone, Copy, Debug, PartialEq, Eq, PartialOrd, Ord, Hash)]
pub enum Kind {
    /// A range of memory.
    Mem = 1,
    /// A gate that receives messages.
    Recv = 2,
    /// A gate that sends messages to a `Recv`.
    Send = 3,
    /// A service.
    Serv = 4,
    /// A session with a service.
    Sess = 5,
}

impl Kind {
    /// The number of the kind in a packed key, 1 to 5.
    pub fn number(self) -> u8
        ensures { result ≡ kind_number self }
    {
        self as u8
    }
}

/// The name of a capability: the PE (0 to 127) and the VPE (0 to 127) that it belongs to, its kind,
/// and a number (0 to 4095) that the VPE has drawn for it.
#[derive(Clone, Copy, Debug, PartialEq, Eq)]
pub struct Key {
    pub number: u16,
    pub vpe: u16,
    pub pe: u8,
    pub kind: Kind,
}

impl Model for Key {
    ghost use Rattle.sem_key.specs.KeyName.{KeyName, IsValidKey};

    ghost Value = { KeyName };

    ghost view = { λ k. record { pe = k.pe; vpe = k.vpe; kind = k.kind; number = k.number } };

    ghost invariant = { λ k. IsValidKey (record { pe = k.pe; vpe = k.vpe; kind = k.kind; number = k.number }) };

    ghost inverse = { λ k. record { pe = k.pe; vpe = k.vpe; kind = k.kind; number = k.number } };
}

/// A key whose kind is not known yet; the ranges are those of `Key`.
#[derive(Clone, Copy, Debug, PartialEq, Eq)]
pub struct Place {
    pub number: u16,
    pub vpe: u16,
    pub pe: u8,
}

impl Model for Place {
    ghost use Rattle.sem_key.specs.PlaceName.{PlaceName, IsValidPlace};

    ghost Value = { PlaceName };

    ghost view = { λ p. record { pe = p.pe; vpe = p.vpe; number = p.number } };

    ghost invariant = { λ p. IsValidPlace (record { pe = p.pe; vpe = p.vpe; number = p.number }) };

    ghost inverse = { λ p. record { pe = p.pe; vpe = p.vpe; number = p.number } };
}

/// The key as one word: the PE in the top 8 bits, then the VPE in 16, the kind in 8 and the number
/// in 32. Rising key order is the order of these words.
pub fn pack(key: Key) -> u64
    ensures word { result ≡ packed key }
    ensures valid { IsValidKey key }
{
    let vpe = u64::from(key.pe) << 16 | u64::from(key.vpe);
    let kind = vpe << 8 | u64::from(key.kind.number());
    kind << 32 | u64::from(key.number)
}

/// The key of that kind at the place.
pub fn keyed(place: Place, kind: Kind) -> Key
    ensures { result ≡ keyed_spec place kind }
{
    Key {
        pe: place.pe,
        vpe: place.vpe,
        kind,
        number: place.number,
    }
}

/// Whether the keys are equal in all four parts.
pub fn same_key(one: &Key, other: &Key) -> bool
    ensures { result ≡ key_eq one.now other.now }
{
    one.pe == other.pe
        && one.vpe == other.vpe
        && one.kind.number() == other.kind.number()
        && one.number == other.number
}

// The kind of that number; none if no kind has it.
pub(crate) fn kind_numbered(number: u64) -> Option<Kind>
    ensures { result ≡ kind_numbered_spec number }
{
    match number {
        1 => Some(Kind::Mem),
        2 => Some(Kind::Recv),
        3 => Some(Kind::Send),
        4 => Some(Kind::Serv),
        5 => Some(Kind::Sess),
        _ => None,
    }
}

/// The key that `pack` turns into that word. None if a field is out of its range; then the word is
/// that of no key.
pub fn unpack(word: u64) -> Option<Key>
    ensures key { (key : KeyName) → IsValidKey key → ((result ≡ Some key) ↔ (packed key ≡ word)) }
    ensures valid { IfSome result IsValidKey }
{
    let number = word % (1 << 32);
    let above = word >> 32;
    let kind = kind_numbered(above % (1 << 8))?;
    let owner = above >> 8;
    let vpe = owner % (1 << 16);
    let pe = owner >> 16;
    if number >= u64::from(NUMBERS) || vpe >= u64::from(VPES) || pe >= PES as u64 {
        return None;
    }
    Some(Key {
        pe: pe as u8,
        vpe: vpe as u16,
        kind,
        number: number as u16,
    })
}
