ghost use Rattle.std.specs.Prelude.{◌≡◌};
ghost use Rattle.std.specs.Int.{is_in_range};
ghost use Rattle.sem_key.specs.declared.limits.TheConstants.{SLOTS};
ghost use Rattle.sem_wire.specs.Reading.{mem_in, object_in, of_kind as of_kind_spec, recv_in};
ghost use Rattle.sem_wire.specs.Reading.{send_in, serv_in, sess_in};

use crate::fault::WireFault;
use crate::read_rows::{allowed, kind_key_at, unused};
use crate::rows::Rows;
use sem_key::{ADDRESSES, Kind, Object, RIGHTS, SLOTS, VPES};

/// The rows from 29 on of a message with an object of the kind at 28, which is one of the five.
#[tactic(auto, unfolding(crate::specs::Reading::object_in))]
pub fn object(rows: &Rows) -> Result<Object, WireFault>
    ensures { result ≡ object_in rows.now }
{
    unused(29, u64::from(rows.after_kind))?;
    let object = of_kind(rows)?;
    unused(56, rows.after_last)?;
    Ok(object)
}

// The object, by its kind.
fn of_kind(rows: &Rows) -> Result<Object, WireFault>
    ensures { result ≡ of_kind_spec rows.now.kind rows.now }
{
    match rows.kind {
        1 => mem(rows),
        2 => recv(rows),
        3 => send(rows),
        4 => serv(rows),
        _ => sess(rows),
    }
}

// Whether the number is in the range of slots and credits.
fn is_count(number: u64) -> bool
    ensures { result ≡ is_in_range 1 SLOTS number }
{
    1 <= number && number <= u64::from(SLOTS)
}

#[tactic(auto, unfolding(crate::specs::Reading::mem_in))]
fn mem(rows: &Rows) -> Result<Object, WireFault>
    ensures { result ≡ mem_in rows.now }
{
    allowed(32, rows.main < ADDRESSES)?;
    allowed(
        40,
        rows.more < ADDRESSES && rows.main + rows.more <= ADDRESSES,
    )?;
    allowed(48, rows.last <= u64::from(RIGHTS))?;
    Ok(Object::Mem {
        base: rows.main as u32,
        len: rows.more as u32,
        rights: rows.last as u8,
    })
}

#[tactic(auto, unfolding(crate::specs::Reading::recv_in))]
fn recv(rows: &Rows) -> Result<Object, WireFault>
    ensures { result ≡ recv_in rows.now }
{
    allowed(32, is_count(rows.main))?;
    unused(40, rows.more)?;
    unused(48, rows.last)?;
    Ok(Object::Recv {
        slots: rows.main as u8,
    })
}

#[tactic(auto, unfolding(crate::specs::Reading::send_in))]
fn send(rows: &Rows) -> Result<Object, WireFault>
    ensures { result ≡ send_in rows.now }
{
    let gate = kind_key_at(32, Kind::Recv, rows.main)?;
    allowed(40, rows.more < 1 << 32)?;
    allowed(48, is_count(rows.last))?;
    Ok(Object::Send {
        gate,
        label: rows.more as u32,
        credits: rows.last as u8,
    })
}

#[tactic(auto, unfolding(crate::specs::Reading::serv_in))]
fn serv(rows: &Rows) -> Result<Object, WireFault>
    ensures { result ≡ serv_in rows.now }
{
    allowed(32, rows.main < 1 << 8)?;
    unused(40, rows.more)?;
    unused(48, rows.last)?;
    Ok(Object::Serv {
        name: rows.main as u8,
    })
}

#[tactic(auto, unfolding(crate::specs::Reading::sess_in))]
fn sess(rows: &Rows) -> Result<Object, WireFault>
    ensures { result ≡ sess_in rows.now }
{
    let service = kind_key_at(32, Kind::Serv, rows.main)?;
    allowed(40, rows.more < u64::from(VPES))?;
    unused(48, rows.last)?;
    Ok(Object::Sess {
        service,
        ident: rows.more as u16,
    })
}
