ghost use Rattle.std.specs.Prelude.{◌≡◌, ◌+◌, ◌^◌, ◌<◌, ◌≤◌, drop};
ghost use Rattle.byteorder.specs.Endian.{big_number};
ghost use Rattle.sem_wire.specs.Records.{rows_in, spelled};

use byteorder::{BigEndian, ByteOrder};

/// The bytes of a record.
pub const RECORD: usize = 64;

/// The numbers in the rows of a record, in the order of their places.
#[derive(Clone, Copy, Debug, PartialEq, Eq)]
pub struct Rows {
    /// At 0: the number of the message.
    pub tag: u8,
    /// At 1: the form of a target, a code, or yes as 1 and no as 0.
    pub form: u8,
    /// At 2: a VPE.
    pub vpe: u16,
    /// At 4: a selector or an index.
    pub index: u16,
    /// At 6: nothing.
    pub after_index: u16,
    /// At 8: a place, the parent, or the one key.
    pub first: u64,
    /// At 16: the key, or the service of a target.
    pub second: u64,
    /// At 24: a job.
    pub job: u32,
    /// At 28: the kind of the object.
    pub kind: u8,
    /// At 29, 3 bytes: nothing.
    pub after_kind: u32,
    /// At 32: the base, slots, gate, name or service of the object.
    pub main: u64,
    /// At 40: the length, label or ident of the object.
    pub more: u64,
    /// At 48: the rights or credits of the object.
    pub last: u64,
    /// At 56: nothing.
    pub after_last: u64,
}

/// The numbers in the rows of these bytes.
pub fn read_rows(bytes: &[u8; RECORD]) -> Rows
    ensures { result ≡ rows_in bytes.now }
{
    Rows {
        tag: bytes[0],
        form: bytes[1],
        vpe: u16_at(bytes, 2),
        index: u16_at(bytes, 4),
        after_index: u16_at(bytes, 6),
        first: u64_at(bytes, 8),
        second: u64_at(bytes, 16),
        job: u32_at(bytes, 24),
        kind: bytes[28],
        after_kind: u24_at(bytes, 29),
        main: u64_at(bytes, 32),
        more: u64_at(bytes, 40),
        last: u64_at(bytes, 48),
        after_last: u64_at(bytes, 56),
    }
}

// The number in the two bytes at that place.
fn u16_at(bytes: &[u8; RECORD], at: usize) -> u16
    requires { at + 2 ≤ 64 }
    ensures { result ≡ big_number 2 (drop at bytes.now) }
{
    BigEndian::read_u16(&bytes[at..])
}

// The number in the three bytes at that place.
fn u24_at(bytes: &[u8; RECORD], at: usize) -> u32
    requires { at + 3 ≤ 64 }
    ensures { result ≡ big_number 3 (drop at bytes.now) }
{
    BigEndian::read_u24(&bytes[at..])
}

// The number in the four bytes at that place.
fn u32_at(bytes: &[u8; RECORD], at: usize) -> u32
    requires { at + 4 ≤ 64 }
    ensures { result ≡ big_number 4 (drop at bytes.now) }
{
    BigEndian::read_u32(&bytes[at..])
}

// The number in the eight bytes at that place.
fn u64_at(bytes: &[u8; RECORD], at: usize) -> u64
    requires { at + 8 ≤ 64 }
    ensures { result ≡ big_number 8 (drop at bytes.now) }
{
    BigEndian::read_u64(&bytes[at..])
}

/// The bytes with these numbers in their rows.
pub fn spell(rows: &Rows) -> [u8; RECORD]
    requires { rows.now.after_kind < 2 ^ 24 }
    ensures { result ≡ spelled rows.now }
{
    let mut bytes = [0u8; RECORD];
    bytes[0] = rows.tag;
    bytes[1] = rows.form;
    BigEndian::write_u16(&mut bytes[2..], rows.vpe);
    BigEndian::write_u16(&mut bytes[4..], rows.index);
    BigEndian::write_u16(&mut bytes[6..], rows.after_index);
    BigEndian::write_u64(&mut bytes[8..], rows.first);
    BigEndian::write_u64(&mut bytes[16..], rows.second);
    BigEndian::write_u32(&mut bytes[24..], rows.job);
    bytes[28] = rows.kind;
    BigEndian::write_u24(&mut bytes[29..], rows.after_kind);
    BigEndian::write_u64(&mut bytes[32..], rows.main);
    BigEndian::write_u64(&mut bytes[40..], rows.more);
    BigEndian::write_u64(&mut bytes[48..], rows.last);
    BigEndian::write_u64(&mut bytes[56..], rows.after_last);
    bytes
}
