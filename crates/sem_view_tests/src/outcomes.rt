use sem_histories::RunOutcome;
use sem_msg::Setup;
use sem_outcomes::{SearchError, all_outcomes, sample_outcomes};
use sem_reader::read_trace;
use std::alloc::Global;
use std::test::Fail;

// One VPE obtains what another one of its kernel revokes.
const RACE: &str =
    "semper trace 1\nkernels 1\npe 0 0\npe 1 0\nvpe 0 0\nvpe 1 1\nroot 0 0 mem 0 4096 7\ncall 0 revoke 0\ncall 1 obtain 3 0 0\nend\n";

// The setup that the text stands for.
fn setup_of(alloc: Global, text: &str) -> Result<Setup, Fail> {
    match read_trace(alloc, text.as_bytes()) {
        Ok(setup) => Ok(setup),
        Err(_) => Err(Fail::from("no trace")),
    }
}

// Whether nothing is held at the end, and the first code to the second VPE is this one.
fn ends_in(outcome: &RunOutcome, code: u8) -> bool {
    match outcome.codes.get(1) {
        Some(codes) => outcome.held.len() == 0 && codes.first() == Some(&code),
        None => false,
    }
}

// The obtain is granted before the revoke, or finds no capability after it.
#[test]
fn a_race_has_two_outcomes(rt: HostRuntime) -> Result<(), Fail> {
    let setup = setup_of(rt.alloc(), RACE)?;
    match all_outcomes(rt.alloc(), &setup, 100) {
        Ok(all) => {
            assert_eq!(rt; all.found.len(), 2);
            let mut granted = 0_usize;
            let mut refused = 0_usize;
            for listed in all.found.as_slice() {
                if ends_in(&listed.witness.outcome, 0) {
                    granted = granted.saturating_add(1);
                }
                if ends_in(&listed.witness.outcome, 3) {
                    refused = refused.saturating_add(1);
                }
            }
            assert_eq!(rt; (granted, refused), (1, 1));
            Ok(())
        }
        Err(_) => Err(Fail::from("no list")),
    }
}

// There are as many histories as the reference's plain search finds.
#[test]
fn a_limit_is_kept(rt: HostRuntime) -> Result<(), Fail> {
    let setup = setup_of(rt.alloc(), RACE)?;
    let few = matches!(
        all_outcomes(rt.alloc(), &setup, 33),
        Err(SearchError::TooMany)
    );
    assert!(rt; few);
    match all_outcomes(rt.alloc(), &setup, 34) {
        Ok(all) => {
            assert_eq!(rt; all.histories, 34);
            Ok(())
        }
        Err(_) => Err(Fail::from("no list")),
    }
}

#[test]
fn seeds_find_both_outcomes(rt: HostRuntime) -> Result<(), Fail> {
    let setup = setup_of(rt.alloc(), RACE)?;
    let found = sample_outcomes(rt.alloc(), &setup, 0, 40)?;
    assert_eq!(rt; found.len(), 2);
    let mut count = 0_u64;
    for sampled in found.as_slice() {
        count = count.saturating_add(sampled.count);
    }
    assert_eq!(rt; count, 40);
    Ok(())
}
