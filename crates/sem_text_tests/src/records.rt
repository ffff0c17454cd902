//! Records with each byte changed, compared with what an independent program tells of them.

use sem_journal::push_message;
use sem_wire::{RECORD, decode, encode};
use std::alloc::Global;
use std::process::Abort;
use std::test::Fail;

// The bytes of the eight words of a line.
fn record(line: &str) -> Result<[u8; RECORD], Fail> {
    let mut bytes = [0u8; RECORD];
    for (part, digits) in bytes.chunks_exact_mut(8).zip(line.split(' ')) {
        part.copy_from_slice(&u64::from_str_radix(digits, 16)?.to_be_bytes());
    }
    Ok(bytes)
}

// Asserts that the bytes are the record of the message told by these words, or have that fault.
fn check(rt: &impl Abort, alloc: Global, bytes: &[u8; RECORD], told: &str) -> Result<(), Fail> {
    match decode(bytes) {
        Ok(message) => {
            let mut words = Vec::new(alloc);
            push_message(&mut words, &message)?;
            let want = format!(in alloc; " {told}")?;
            assert_eq!(rt; words.as_slice(), want.as_bytes());
            assert_eq!(rt; encode(&message), *bytes, "of {told}");
        }
        Err(fault) => {
            let words = format!(in alloc; "{fault:?}")?;
            assert_eq!(rt; words.as_str(), told, "of {bytes:?}");
        }
    }
    Ok(())
}

// Two grants of memory with one byte changed to 255. Each line tells the first and the last place
// of the byte with that result, and the fault or the message. These are the lines of both grants.
const FAULTS: &str = "\
0 0 Tag
1 1 Padding { at: 1 }
2 3 Padding { at: 2 }
4 5 Padding { at: 4 }
6 7 Padding { at: 6 }
8 14 Field { at: 8 }
16 22 Field { at: 16 }
24 27 Padding { at: 24 }
28 28 Field { at: 28 }
29 31 Padding { at: 29 }
32 35 Field { at: 32 }
40 43 Field { at: 40 }
48 55 Field { at: 48 }
56 63 Padding { at: 56 }
";

// The grants, each with its other lines.
const GRANTS: [(&str, &str); 2] = [
    (
        "200000000000000 100000000 100010100000000 1000000 0 1000 7 0",
        "\
15 15 obtain-ok 0.0.1.255 1.1.1.0 mem 0 4096 7
23 23 obtain-ok 0.0.1.0 1.1.1.255 mem 0 4096 7
36 36 obtain-ok 0.0.1.0 1.1.1.0 mem 4278190080 4096 7
37 37 obtain-ok 0.0.1.0 1.1.1.0 mem 16711680 4096 7
38 38 obtain-ok 0.0.1.0 1.1.1.0 mem 65280 4096 7
39 39 obtain-ok 0.0.1.0 1.1.1.0 mem 255 4096 7
44 44 obtain-ok 0.0.1.0 1.1.1.0 mem 0 4278194176 7
45 45 obtain-ok 0.0.1.0 1.1.1.0 mem 0 16715776 7
46 46 obtain-ok 0.0.1.0 1.1.1.0 mem 0 65280 7
47 47 obtain-ok 0.0.1.0 1.1.1.0 mem 0 4351 7
",
    ),
    (
        "200000000000000 100010300000005 200020100000006 1000000 1000000 200 3 0",
        "\
15 15 obtain-ok 1.1.3.255 2.2.1.6 mem 16777216 512 3
23 23 obtain-ok 1.1.3.5 2.2.1.255 mem 16777216 512 3
36 36 obtain-ok 1.1.3.5 2.2.1.6 mem 4278190080 512 3
37 37 obtain-ok 1.1.3.5 2.2.1.6 mem 33488896 512 3
38 38 obtain-ok 1.1.3.5 2.2.1.6 mem 16842496 512 3
39 39 obtain-ok 1.1.3.5 2.2.1.6 mem 16777471 512 3
44 44 Field { at: 40 }
45 45 obtain-ok 1.1.3.5 2.2.1.6 mem 16777216 16712192 3
46 46 obtain-ok 1.1.3.5 2.2.1.6 mem 16777216 65280 3
47 47 obtain-ok 1.1.3.5 2.2.1.6 mem 16777216 767 3
",
    ),
];

// Asserts what the lines say of the grant, and enters the places that they speak of.
fn check_places(
    rt: &impl Abort,
    alloc: Global,
    grant: &str,
    lines: &str,
    told_of: &mut [bool; RECORD],
) -> Result<(), Fail> {
    for line in lines.lines() {
        let (first, rest) = line.split_once(' ').ok_or("a first place")?;
        let (last, told) = rest.split_once(' ').ok_or("a last place")?;
        for place in first.parse::<usize>()?..=last.parse::<usize>()? {
            let mut bytes = record(grant)?;
            if let Some(byte) = bytes.get_mut(place) {
                *byte = 255;
            }
            check(rt, alloc, &bytes, told)?;
            if let Some(is_told) = told_of.get_mut(place) {
                *is_told = true;
            }
        }
    }
    Ok(())
}

#[test]
fn each_changed_byte_of_a_grant_is_told_as_in_its_tables(rt: HostRuntime) -> Result<(), Fail> {
    for (grant, lines) in GRANTS {
        let mut told_of = [false; RECORD];
        check_places(&rt, rt.alloc(), grant, FAULTS, &mut told_of)?;
        check_places(&rt, rt.alloc(), grant, lines, &mut told_of)?;
        assert_eq!(rt; told_of, [true; RECORD]);
    }
    Ok(())
}
