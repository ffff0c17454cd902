ghost use Rattle.std.specs.Prelude.{◌≡◌};
ghost use Rattle.sem_key.specs.KeyName.{kind_number};
ghost use Rattle.sem_wire.specs.Reading.{allowed as allowed_spec, code_in, key_at as key_at_spec};
ghost use Rattle.sem_wire.specs.Reading.{kind_key_at as kind_key_at_spec};
ghost use Rattle.sem_wire.specs.Reading.{no_index as no_index_spec};
ghost use Rattle.sem_wire.specs.Reading.{no_job as no_job_spec, no_object as no_object_spec};
ghost use Rattle.sem_wire.specs.Reading.{no_second as no_second_spec, place_at as place_at_spec};
ghost use Rattle.sem_wire.specs.Reading.{unused as unused_spec};

use crate::fault::WireFault;
use crate::rows::Rows;
use sem_key::{Key, Kind, Place, unpack};

/// A used row: whether its value is allowed.
pub fn allowed(at: u8, is_allowed: bool) -> Result<(), WireFault>
    ensures { result ≡ allowed_spec at is_allowed }
{
    if is_allowed {
        Ok(())
    } else {
        Err(WireFault::Field { at })
    }
}

/// A row that the message does not use: it must be 0.
pub fn unused(at: u8, number: u64) -> Result<(), WireFault>
    ensures { result ≡ unused_spec at number }
{
    if number == 0 {
        Ok(())
    } else {
        Err(WireFault::Padding { at })
    }
}

/// A row with a key.
pub fn key_at(at: u8, word: u64) -> Result<Key, WireFault>
    ensures { result ≡ key_at_spec at word }
{
    unpack(word).ok_or(WireFault::Field { at })
}

/// A row with a key of that kind.
#[tactic(auto, unfolding(crate::specs::Reading::kind_key_at))]
pub fn kind_key_at(at: u8, kind: Kind, word: u64) -> Result<Key, WireFault>
    ensures { result ≡ kind_key_at_spec at (kind_number kind) word }
{
    let key = key_at(at, word)?;
    allowed(at, key.kind.number() == kind.number())?;
    Ok(key)
}

/// A row with a place: the word of a key, with 0 in place of the kind.
#[tactic(auto, unfolding(crate::specs::Reading::place_at))]
pub fn place_at(at: u8, word: u64) -> Result<Place, WireFault>
    ensures { result ≡ place_at_spec at word }
{
    allowed(at, (word >> 32) % (1 << 8) == 0)?;
    let key = key_at(at, word + (1 << 32))?;
    Ok(Place {
        pe: key.pe,
        vpe: key.vpe,
        number: key.number,
    })
}

/// The rows at 2, 4 and 6 of a message without a VPE and an index.
#[tactic(auto, unfolding(crate::specs::Reading::no_index))]
pub fn no_index(rows: &Rows) -> Result<(), WireFault>
    ensures { result ≡ no_index_spec rows.now }
{
    unused(2, u64::from(rows.vpe))?;
    unused(4, u64::from(rows.index))?;
    unused(6, u64::from(rows.after_index))
}

/// The rows from 28 on of a message without an object.
#[tactic(auto, unfolding(crate::specs::Reading::no_object))]
pub fn no_object(rows: &Rows) -> Result<(), WireFault>
    ensures { result ≡ no_object_spec rows.now }
{
    unused(28, u64::from(rows.kind))?;
    unused(29, u64::from(rows.after_kind))?;
    unused(32, rows.main)?;
    unused(40, rows.more)?;
    unused(48, rows.last)?;
    unused(56, rows.after_last)
}

/// The rows from 24 on of a message without a job and an object.
#[tactic(auto, unfolding(crate::specs::Reading::no_job))]
pub fn no_job(rows: &Rows) -> Result<(), WireFault>
    ensures { result ≡ no_job_spec rows.now }
{
    unused(24, u64::from(rows.job))?;
    no_object(rows)
}

/// The rows from 16 on of a message with one key or one place alone.
pub fn no_second(rows: &Rows) -> Result<(), WireFault>
    ensures { result ≡ no_second_spec rows.now }
{
    unused(16, rows.second)?;
    no_job(rows)
}

/// The code of a message that refuses, in its rows up to 6.
pub fn code(rows: &Rows) -> Result<u8, WireFault>
    ensures { result ≡ code_in rows.now }
{
    allowed(1, 1 <= rows.form && rows.form <= 15)?;
    no_index(rows)?;
    Ok(rows.form)
}
