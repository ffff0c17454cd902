// An audit as the members of a JSON object.
use sem_hint::key_text;
use sem_key::OutOfMemory;
use sem_msg::Audit;
use serde::Serialize;
use std::alloc::Global;

/// The line of an audit.
#[derive(Debug, Drop, Serialize)]
pub struct AuditLine {
    line: &'static str,
    made: u64,
    cut: u64,
    held: Vec<HeldMembers>,
}

#[derive(Debug, Drop, Serialize)]
struct HeldMembers {
    key: String,
    selector: u8,
}

impl AuditLine {
    /// What the audit tells.
    pub fn of(alloc: Global, audit: &Audit) -> Result<AuditLine, OutOfMemory> {
        let mut held = Vec::new(alloc);
        for one in audit.held.as_slice() {
            held.push(HeldMembers {
                key: key_text(alloc, &one.key)?,
                selector: one.sel,
            })?;
        }
        Ok(AuditLine {
            line: "audit",
            made: audit.made,
            cut: audit.cut,
            held,
        })
    }
}
