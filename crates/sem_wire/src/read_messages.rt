ghost use Rattle.std.specs.Prelude.{◌≡◌};
ghost use Rattle.sem_wire.specs.Reading.{ack_in, delegate_no_in, delegate_req_in, obtain_no_in};
ghost use Rattle.sem_wire.specs.Reading.{obtain_ok_in, obtain_req_in, offer_target_in};
ghost use Rattle.sem_wire.specs.Reading.{revoke_done_in};
ghost use Rattle.sem_wire.specs.Reading.{revoke_req_in, sel_in, serv_target_in, two_keys_in};

use crate::fault::WireFault;
use crate::read_objects::object;
use crate::read_rows::{
    allowed, code, key_at, kind_key_at, no_index, no_job, no_object, no_second, place_at, unused,
};
use crate::rows::Rows;
use sem_key::{Key, Kind, VPES};
use sem_msg::{Message, Target};

/// A request for a capability, by the form of its target.
pub fn obtain_req(rows: &Rows) -> Result<Message, WireFault>
    ensures { result ≡ obtain_req_in rows.now }
{
    match rows.form {
        1 => by_selector(rows),
        2 => by_service(rows),
        3 => by_offer(rows),
        _ => Err(WireFault::Field { at: 1 }),
    }
}

#[tactic(auto, unfolding(crate::specs::Reading::sel_in))]
fn by_selector(rows: &Rows) -> Result<Message, WireFault>
    ensures { result ≡ sel_in rows.now }
{
    allowed(2, rows.vpe < VPES)?;
    allowed(4, rows.index < 1 << 8)?;
    unused(6, u64::from(rows.after_index))?;
    let place = place_at(8, rows.first)?;
    no_second(rows)?;
    let target = Target::Sel {
        vpe: rows.vpe,
        sel: rows.index as u8,
    };
    Ok(Message::ObtainReq { place, target })
}

#[tactic(auto, unfolding(crate::specs::Reading::serv_target_in))]
fn by_service(rows: &Rows) -> Result<Message, WireFault>
    ensures { result ≡ serv_target_in rows.now }
{
    no_index(rows)?;
    let place = place_at(8, rows.first)?;
    let service = kind_key_at(16, Kind::Serv, rows.second)?;
    no_job(rows)?;
    let target = Target::Serv { service };
    Ok(Message::ObtainReq { place, target })
}

#[tactic(auto, unfolding(crate::specs::Reading::offer_target_in))]
fn by_offer(rows: &Rows) -> Result<Message, WireFault>
    ensures { result ≡ offer_target_in rows.now }
{
    unused(2, u64::from(rows.vpe))?;
    allowed(4, rows.index < 1 << 8)?;
    unused(6, u64::from(rows.after_index))?;
    let place = place_at(8, rows.first)?;
    let service = kind_key_at(16, Kind::Serv, rows.second)?;
    no_job(rows)?;
    let target = Target::Offer {
        service,
        index: rows.index as u8,
    };
    Ok(Message::ObtainReq { place, target })
}

#[tactic(auto, unfolding(crate::specs::Reading::obtain_ok_in))]
pub fn obtain_ok(rows: &Rows) -> Result<Message, WireFault>
    ensures { result ≡ obtain_ok_in rows.now }
{
    unused(1, u64::from(rows.form))?;
    no_index(rows)?;
    let parent = key_at(8, rows.first)?;
    let key = key_at(16, rows.second)?;
    unused(24, u64::from(rows.job))?;
    allowed(28, rows.kind == key.kind.number())?;
    let object = object(rows)?;
    Ok(Message::ObtainOk {
        parent,
        key,
        object,
    })
}

#[tactic(auto, unfolding(crate::specs::Reading::obtain_no_in))]
pub fn obtain_no(rows: &Rows) -> Result<Message, WireFault>
    ensures { result ≡ obtain_no_in rows.now }
{
    let code = code(rows)?;
    let place = place_at(8, rows.first)?;
    no_second(rows)?;
    Ok(Message::ObtainNo { place, code })
}

#[tactic(auto, unfolding(crate::specs::Reading::delegate_req_in))]
pub fn delegate_req(rows: &Rows) -> Result<Message, WireFault>
    ensures { result ≡ delegate_req_in rows.now }
{
    unused(1, u64::from(rows.form))?;
    allowed(2, rows.vpe < VPES)?;
    allowed(4, rows.index < 1 << 8)?;
    unused(6, u64::from(rows.after_index))?;
    let parent = key_at(8, rows.first)?;
    unused(16, rows.second)?;
    unused(24, u64::from(rows.job))?;
    let is_delegable = 1 <= rows.kind && rows.kind <= 3;
    allowed(28, is_delegable && rows.kind == parent.kind.number())?;
    let object = object(rows)?;
    Ok(Message::DelegateReq {
        parent,
        object,
        vpe: rows.vpe,
        sel: rows.index as u8,
    })
}

#[tactic(auto, unfolding(crate::specs::Reading::delegate_no_in))]
pub fn delegate_no(rows: &Rows) -> Result<Message, WireFault>
    ensures { result ≡ delegate_no_in rows.now }
{
    let code = code(rows)?;
    let parent = key_at(8, rows.first)?;
    no_second(rows)?;
    Ok(Message::DelegateNo { parent, code })
}

#[tactic(auto, unfolding(crate::specs::Reading::ack_in))]
pub fn ack(rows: &Rows) -> Result<Message, WireFault>
    ensures { result ≡ ack_in rows.now }
{
    allowed(1, rows.form <= 1)?;
    no_index(rows)?;
    let key = key_at(8, rows.first)?;
    no_second(rows)?;
    Ok(Message::Ack {
        key,
        yes: rows.form == 1,
    })
}

/// The parent and the key of a message that has these alone.
#[tactic(auto, unfolding(crate::specs::Reading::two_keys_in))]
pub fn two_keys(rows: &Rows) -> Result<(Key, Key), WireFault>
    ensures { result ≡ two_keys_in rows.now }
{
    unused(1, u64::from(rows.form))?;
    no_index(rows)?;
    let parent = key_at(8, rows.first)?;
    let key = key_at(16, rows.second)?;
    no_job(rows)?;
    Ok((parent, key))
}

#[tactic(auto, unfolding(crate::specs::Reading::revoke_req_in))]
pub fn revoke_req(rows: &Rows) -> Result<Message, WireFault>
    ensures { result ≡ revoke_req_in rows.now }
{
    unused(1, u64::from(rows.form))?;
    no_index(rows)?;
    let key = key_at(8, rows.first)?;
    unused(16, rows.second)?;
    no_object(rows)?;
    Ok(Message::RevokeReq { key, job: rows.job })
}

#[tactic(auto, unfolding(crate::specs::Reading::revoke_done_in))]
pub fn revoke_done(rows: &Rows) -> Result<Message, WireFault>
    ensures { result ≡ revoke_done_in rows.now }
{
    unused(1, u64::from(rows.form))?;
    no_index(rows)?;
    unused(8, rows.first)?;
    unused(16, rows.second)?;
    no_object(rows)?;
    Ok(Message::RevokeDone { job: rows.job })
}
