ghost use Rattle.std.specs.Prelude.{◌≡◌, ◌≤◌, ◌==◌, length, not};
ghost use Rattle.std.specs.List.{prefix_len, position_or_len};
ghost use Rattle.sem_text.specs.Lines.{line_from};
ghost use Rattle.sem_text.specs.Words.{word_from, is_blank as is_blank_spec};

/// Where the line that begins at `from` ends, and where the next begins; none at the end of the
/// text. A rest after the last line end is a line too. Takes no memory.
pub fn line_at(bytes: &[u8], from: usize) -> Option<(usize, usize)>
    requires { from ≤ length bytes.now }
    ensures { result ≡ line_from bytes.now from }
{
    if from == bytes.len() {
        return None;
    }
    let end = from + line_len(&bytes[from..]);
    Some((end, bytes.len().min(end + 1)))
}

/// Where the next word of the line begins and ends, from `from` on; none if only blanks and tabs
/// are left. Takes no memory.
pub fn word_at(line: &[u8], from: usize) -> Option<(usize, usize)>
    requires { from ≤ length line.now }
    ensures { result ≡ word_from line.now from }
{
    let begin = from + blanks_len(&line[from..]);
    if begin == line.len() {
        return None;
    }
    Some((begin, begin + word_len(&line[begin..])))
}

// How many bytes come before the first line end, or all if there is none.
fn line_len(bytes: &[u8]) -> usize
    ensures within { result ≤ length bytes.now }
    ensures first { result ≡ position_or_len (λ b. b == 10) bytes.now }
{
    bytes.iter().take_while(|byte| **byte != b'\n').count()
}

// How many blanks and tabs are at the front.
fn blanks_len(bytes: &[u8]) -> usize
    ensures within { result ≤ length bytes.now }
    ensures front { result ≡ prefix_len is_blank_spec bytes.now }
{
    bytes.iter().take_while(|byte| is_blank(**byte)).count()
}

// How many bytes at the front are neither blanks nor tabs.
fn word_len(bytes: &[u8]) -> usize
    ensures within { result ≤ length bytes.now }
    ensures front { result ≡ prefix_len (λ b. not (is_blank_spec b)) bytes.now }
{
    bytes.iter().take_while(|byte| !is_blank(**byte)).count()
}

// A blank or a tab.
fn is_blank(byte: u8) -> bool
    ensures { result ≡ is_blank_spec byte }
{
    byte == b' ' || byte == b'\t'
}
