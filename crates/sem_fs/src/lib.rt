//! A file service over sessions: the setup that file commands compile to, and the laws of its
//! schedules.
#![tactic(auto)]

mod acts;
mod calls;
mod commands;
mod lookups;
mod places;
mod runs;
mod servers;
mod services;
mod setups;

pub use commands::{commands_make_services, files_closed, files_succeed};
pub use runs::{a_share_meets_its_close, files_are_closed, files_run};
pub use services::{clients_revoke_their_own, services_go_on};
pub use setups::compile;
