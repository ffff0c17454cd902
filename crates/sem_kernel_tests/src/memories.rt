use sem_access::{Look, Run};
use sem_mem::Memory;
use std::test::Fail;

// The run of that many addresses from one on, last written by that entry.
fn run(base: u64, len: u64, entry: u64) -> Run {
    Run { base, len, entry }
}

#[test]
fn an_overwritten_middle_leaves_two_runs(rt: HostRuntime) -> Result<(), Fail> {
    let mut memory = Memory::new(rt.alloc());
    memory.write(10, 20, 0)?;
    memory.write(15, 5, 1)?;
    let runs = [run(10, 5, 0), run(15, 5, 1), run(20, 10, 0)];
    assert!(rt; memory.runs(rt.alloc())?.as_slice() == runs.as_slice());
    let six = Look {
        written: 6,
        newest: Some(1),
    };
    assert_eq!(rt; memory.look(0, 16), six);
    Ok(())
}
