//! Runs by a hundred seeds each; all end with nothing held.

use crate::answers::ends_empty;
use sem_samples::{CHAIN_OF_FORTY_ONE, KILL_OF_CHAIN};
use std::test::Fail;

#[test]
fn a_chain_of_forty_one_goes_with_its_root_by_a_hundred_seeds(rt: HostRuntime) -> Result<(), Fail> {
    let trace = format!(in rt.alloc(); "semper trace 1\nkernels 2\n{CHAIN_OF_FORTY_ONE}")?;
    assert!(rt; ends_empty(rt.alloc(), trace.as_bytes(), 100, 40));
    Ok(())
}

#[test]
fn a_chain_goes_with_its_killed_owner_by_a_hundred_seeds(rt: HostRuntime) -> Result<(), Fail> {
    let trace = format!(in rt.alloc(); "semper trace 1\nkernels 2\n{KILL_OF_CHAIN}")?;
    assert!(rt; ends_empty(rt.alloc(), trace.as_bytes(), 100, 2));
    Ok(())
}
