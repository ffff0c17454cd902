ghost use Rattle.std.specs.Prelude.{◌≡◌, IfOk};
ghost use Rattle.sem_dtu.specs.OwnVpes.{new_endpoints};

use crate::endpoint::Endpoint;
use sem_key::OutOfMemory;
use sem_msg::ENDPOINTS;
use std::alloc::Global;

// The endpoints of one VPE.
#[derive(Debug, Drop)]
pub struct Row {
    // Whether the VPE belongs to this kernel; a VPE of another kernel has no endpoints here.
    pub is_ours: bool,
    pub endpoints: Vec<Endpoint>,
}

impl Row {
    // The endpoints of a VPE at the start.
    pub fn new(alloc: Global, is_ours: bool) -> Result<Self, OutOfMemory>
        ensures ours { IfOk result (λ r. r.is_ours ≡ is_ours) }
        ensures endpoints { IfOk result (λ r. r.endpoints.items ≡ new_endpoints is_ours) }
    {
        let mut endpoints = Vec::new(alloc);
        if is_ours {
            for _ in 0..ENDPOINTS {
                endpoints.push(Endpoint::new(alloc)?)?;
            }
        }
        Ok(Row { is_ours, endpoints })
    }
}
