ghost use Rattle.std.specs.Prelude.{◌≡◌, ◌<◌, [], ◌∷◌, Some, is_some};
ghost use Rattle.std.specs.Prelude.{if◌then◌else◌, IfOk, map};
ghost use Rattle.std.specs.Option.{option_map};
ghost use Rattle.std.specs.Result.{result_err};
ghost use Rattle.sem_key.specs.KeyList.{IsRising};
ghost use Rattle.sem_key.specs.ObjectRanges.{IsValidObject};
ghost use Rattle.sem_msg.specs.EndpointRows.{endpoint, with_endpoint, unbound_from};
ghost use Rattle.sem_msg.specs.EndpointRows.{all_unbound_from, unbind_key as unbind_key_spec};
ghost use Rattle.sem_msg.specs.EndpointRows.{unbind_all as unbind_all_spec};
ghost use Rattle.sem_dtu.specs.EndpointTable.{IsOurs, IsEndpointTable};
ghost use Rattle.sem_dtu.specs.Rows.{table};
ghost use Rattle.sem_dtu.specs.OwnVpes.{new_table};
ghost use Rattle.sem_dtu.specs.Stored.{IsMemoryOrGate};
ghost use Rattle.sem_dtu.specs.Uses.{fault_code, use_refusal, use_done};

use crate::endpoint::Endpoint;
use crate::op::{Op, UseFault};
use crate::row::Row;
use sem_key::{Key, Object, OutOfMemory, VPES};
use sem_msg::{ENDPOINTS, Setup};
use std::alloc::Global;
use std::marker::Model;

/// The endpoints of the VPEs of one kernel, 16 for each. A bound endpoint has a key, and the object
/// that its capability had when it was bound. Its ring has the lengths of the messages that were
/// sent and not yet credited. Only `new` takes memory.
#[derive(Debug, Drop)]
pub struct Dtus {
    // The endpoints of each VPE, by number.
    rows: Vec<Row>,
}

impl Model for Dtus {
    ghost use Rattle.std.specs.Prelude.{map};
    ghost use Rattle.sem_dtu.specs.EndpointTable.{EndpointTable, IsEndpointTable};
    ghost use Rattle.sem_dtu.specs.Rows.{table};

    ghost Value = { EndpointTable };

    ghost view = { λ s. table s.rows.items };

    ghost invariant = { λ s. IsEndpointTable (table s.rows.items) };
}

impl Dtus {
    /// The endpoints of the VPEs of a kernel, none of them bound. The VPEs of a kernel are those
    /// that the setup declares on its PEs.
    pub fn new(alloc: Global, setup: &Setup, kernel: u32) -> Result<Self, OutOfMemory>
        ensures { IfOk result (λ t. t ≡ new_table setup.now kernel) }
    {
        let mut rows = Vec::new(alloc);
        for vpe in 0..VPES {
            rows.push(Row::new(alloc, setup.is_own(kernel, vpe))?)?;
        }
        Ok(Dtus { rows })
    }

    /// Binds an endpoint of a VPE to a key with the object of its capability; an earlier binding is
    /// replaced. No message is under way then.
    ///
    /// The VPE must belong to this kernel, the endpoint must be at most 15, and the object must be
    /// memory or a gate, in its ranges.
    pub fn bind(&mut self, vpe: u16, ep: u8, key: Key, object: Object)
        requires ours { IsOurs self.old vpe }
        requires ep { ep < ENDPOINTS }
        requires kind { IsMemoryOrGate object }
        requires in_range { IsValidObject object }
        ensures { self.new ≡ record self.old {
          rows = with_endpoint vpe ep (Some (record { key = key; object = object; ring = [] }))
              self.old.rows;
        } }
    {
        let row = &mut self.rows[usize::from(vpe)];
        let endpoint = &mut row.endpoints[usize::from(ep)];
        endpoint.bind(key, object);
    }

    /// The key that an endpoint of a VPE is bound to; none if it is not bound.
    ///
    /// The VPE must belong to this kernel, and the endpoint must be at most 15.
    pub fn bound(&self, vpe: u16, ep: u8) -> Option<Key>
        requires ours { IsOurs self.now vpe }
        requires ep { ep < ENDPOINTS }
        ensures key { result ≡ option_map (λ e. e.key) (endpoint self.now.rows vpe ep) }
        ensures table { IsEndpointTable self.now }
    {
        self.rows[usize::from(vpe)].endpoints[usize::from(ep)].key()
    }

    /// The key that an endpoint of a VPE is bound to, and the object that its capability had then;
    /// none if the endpoint is not bound.
    ///
    /// The VPE must belong to this kernel, and the endpoint must be at most 15.
    pub fn binding(&self, vpe: u16, ep: u8) -> Option<(Key, Object)>
        requires ours { IsOurs self.now vpe }
        requires ep { ep < ENDPOINTS }
        ensures { result ≡ option_map (λ e. (e.key, e.object)) (endpoint self.now.rows vpe ep) }
    {
        self.rows[usize::from(vpe)].endpoints[usize::from(ep)].bound()
    }

    /// Unbinds every endpoint of the key's VPE that is bound to the key.
    ///
    /// The key's VPE must belong to this kernel.
    pub fn unbind_key(&mut self, key: Key)
        requires { IsOurs self.old key.vpe }
        ensures { self.new ≡ record self.old { rows = unbind_key_spec key self.old.rows } }
    {
        let row = &mut self.rows[usize::from(key.vpe)];
        unbind_each(&mut row.endpoints, key);
    }

    /// Unbinds every endpoint that is bound to one of the keys. The keys must rise.
    pub fn unbind_all(&mut self, keys: &[Key])
        requires { IsRising keys.now }
        ensures { self.new ≡ record self.old { rows = unbind_all_spec keys.now self.old.rows } }
    {
        unbind_rows(&mut self.rows, keys);
    }

    /// Does an operation through an endpoint of a VPE, unless the endpoint refuses it. The first
    /// test that holds is the refusal, and then nothing changes. A send appends a message to the
    /// ring, and a credit takes out the oldest one; the other operations change nothing.
    ///
    /// The VPE must belong to this kernel, and the endpoint must be at most 15.
    pub fn use_endpoint(&mut self, vpe: u16, ep: u8, op: Op) -> Result<(), UseFault>
        requires ours { IsOurs self.old vpe }
        requires ep { ep < ENDPOINTS }
        ensures refusal { option_map fault_code (result_err result)
            ≡ use_refusal op (endpoint self.old.rows vpe ep) }
        ensures table { self.new ≡ (
            if is_some (use_refusal op (endpoint self.old.rows vpe ep))
            then self.old
            else record self.old { rows = use_done op vpe ep self.old.rows }) }
    {
        let row = &mut self.rows[usize::from(vpe)];
        let endpoint = &mut row.endpoints[usize::from(ep)];
        endpoint.operate(op)
    }
}

// Unbinds every one of the endpoints that is bound to the key.
fn unbind_each(endpoints: &mut [Endpoint], key: Key)
    ensures { endpoints.new ≡ map (unbound_from (key ∷ [])) endpoints.old }
{
    for endpoint in endpoints {
        endpoint.unbind_from(key);
    }
}

// Unbinds every endpoint of the rows that is bound to one of the keys.
fn unbind_rows(rows: &mut Vec<Row>, keys: &[Key])
    requires { IsRising keys.now }
    ensures { table rows.new.items
        ≡ record (table rows.old.items) {
          rows =
              unbind_all_spec keys.now (table rows.old.items).rows;
        } }
{
    for row in rows.iter_mut() {
        // A VPE of another kernel has no endpoints here.
        if !row.endpoints.is_empty() {
            unbind_row(row, keys);
        }
    }
}

// Unbinds every endpoint of a row that is bound to one of the keys.
fn unbind_row(row: &mut Row, keys: &[Key])
    requires { IsRising keys.now }
    ensures ours { row.new.is_ours ≡ row.old.is_ours }
    ensures endpoints { row.new.endpoints.items
        ≡ all_unbound_from keys.now row.old.endpoints.items }
{
    unbind_all_of(&mut row.endpoints, keys);
}

// Unbinds every one of the endpoints that is bound to one of the keys.
fn unbind_all_of(endpoints: &mut Vec<Endpoint>, keys: &[Key])
    requires { IsRising keys.now }
    ensures { endpoints.new.items ≡ all_unbound_from keys.now endpoints.old.items }
{
    for endpoint in endpoints.iter_mut() {
        endpoint.unbind_from_all(keys);
    }
}
