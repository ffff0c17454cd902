use sem_text::{NumberFault, line_at, number, push_number, push_number_behind, word_at};
use std::test::Fail;

#[test]
fn a_line_ends_at_a_line_end_or_with_the_text(rt: HostRuntime) {
    for (text, from, want) in [
        ("a\nbc\n", 0, Some((1, 2))),
        ("a\nbc\n", 2, Some((4, 5))),
        ("a\nbc\n", 5, None),
        ("a\nbc", 0, Some((1, 2))),
        ("a\nbc", 2, Some((4, 4))),
        ("a\nbc", 4, None),
        ("\n", 0, Some((0, 1))),
        ("\n", 1, None),
        ("", 0, None),
    ] {
        let bytes = text.as_bytes();
        assert!(rt; from <= bytes.len(), "at {from} of {text:?}");
        assert_eq!(rt; line_at(bytes, from), want, "at {from} of {text:?}");
    }
}

#[test]
fn blanks_and_tabs_part_words(rt: HostRuntime) {
    for (line, from, want) in [
        ("  ab\tc ", 0, Some((2, 4))),
        ("  ab\tc ", 3, Some((3, 4))),
        ("  ab\tc ", 4, Some((5, 6))),
        ("  ab\tc ", 6, None),
        ("  ab\tc ", 7, None),
        (" \t  ", 0, None),
        ("", 0, None),
    ] {
        let bytes = line.as_bytes();
        assert!(rt; from <= bytes.len(), "at {from} of {line:?}");
        assert_eq!(rt; word_at(bytes, from), want, "at {from} of {line:?}");
    }
}

#[test]
fn a_number_is_digits_without_a_leading_zero(rt: HostRuntime) {
    for (word, want) in [
        ("0", Ok(0)),
        ("7", Ok(7)),
        ("4096", Ok(4096)),
        ("18446744073709551615", Ok(u64::MAX)),
        ("", Err(NumberFault::Bad)),
        ("00", Err(NumberFault::Bad)),
        ("01", Err(NumberFault::Bad)),
        ("a", Err(NumberFault::Bad)),
        ("1a", Err(NumberFault::Bad)),
        ("+1", Err(NumberFault::Bad)),
        (" 1", Err(NumberFault::Bad)),
    ] {
        assert_eq!(rt; number(word.as_bytes(), u64::MAX), want, "of {word:?}");
    }
}

#[test]
fn a_number_above_the_greatest_is_out_of_range(rt: HostRuntime) {
    for (word, most, want) in [
        ("64", 64, Ok(64)),
        ("65", 64, Err(NumberFault::Range)),
        ("18446744073709551616", u64::MAX, Err(NumberFault::Range)),
        (
            "1234567890123456789012345678901234567890",
            u64::MAX,
            Err(NumberFault::Range),
        ),
        (
            "123456789012345678901234567890123456789a",
            u64::MAX,
            Err(NumberFault::Bad),
        ),
    ] {
        assert_eq!(rt; number(word.as_bytes(), most), want, "of {word:?}");
    }
}

#[test]
fn a_pushed_number_stands_behind_what_is_there(rt: HostRuntime) -> Result<(), Fail> {
    let mut out = Vec::new(rt.alloc());
    for (value, want) in [(0, "0"), (10, "010"), (u64::MAX, "01018446744073709551615")] {
        push_number(&mut out, value)?;
        assert_eq!(rt; out.as_slice(), want.as_bytes(), "after {value}");
    }
    Ok(())
}

#[test]
fn numbers_of_any_length_stand_behind_a_byte(rt: HostRuntime) -> Result<(), Fail> {
    let mut out = Vec::new(rt.alloc());
    for value in [7, 64, 999, 1000] {
        push_number_behind(&mut out, b'.', value)?;
    }
    assert_eq!(rt; out.as_slice(), ".7.64.999.1000".as_bytes());
    Ok(())
}
