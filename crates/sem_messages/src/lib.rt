//! The messages of a run, counted. In an idle world as many replies were sent as requests. As many
//! messages tell of a grant across kernels as there were such grants. The number of all messages
//! follows from the requests and notices. No law here ties one message to one call.
#![tactic(auto)]

pub mod laws;
