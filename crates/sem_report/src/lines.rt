// The lines of a text, from the front, each with its line end.
ghost use Rattle.std.specs.Prelude.{◌≡◌, ℕ, ◌+◌, ◌≤◌, ◌<◌, List, [], ◌∷◌, ◌++◌, length};
ghost use Rattle.std.specs.Prelude.{MatchOption, IfSome};
ghost use Rattle.std.specs.Str.{bytes_eq};
ghost use Rattle.sem_report.specs.WholeLines.{whole_lines, content as content_spec};
ghost use Rattle.sem_report.specs.ReportRefusal.{first_difference as first_difference_spec};
ghost use Rattle.sem_report.specs.ReportRefusal.{trace_section, is_end_line as is_end_line_spec};

use sem_text::line_at;
use sem_trace::{is, next_word};

/// A line, with its line end and without it. The last line of a text may have none.
#[derive(Clone, Copy)]
pub struct Line<'a> {
    pub whole: &'a [u8],
    pub content: &'a [u8],
}

/// The first line, and the text after it; none if there is no text. Takes no memory.
pub fn next_whole_line(text: &[u8]) -> Option<(Line<'_>, &[u8])>
    ensures lines { MatchOption result (whole_lines text.now ≡ [])
        (λ p. whole_lines text.now ≡ p.0.whole.now ∷ whole_lines p.1.now) }
    ensures content { IfSome result (λ p. p.0.content.now ≡ content_spec p.0.whole.now) }
    ensures text { MatchOption result (text.now ≡ []) (λ p. text.now ≡ p.0.whole.now ++ p.1.now) }
    ensures some { IfSome result (λ p. 0 < length p.0.whole.now) }
    ensures lead { IfSome result (λ p. (x : List ℕ) → (p.1.now ≡ [] → x ≡ [])
        → whole_lines (p.0.whole.now ++ x) ≡ p.0.whole.now ∷ whole_lines x) }
{
    let (end, next) = line_at(text, 0)?;
    let (content, _) = text.split_at(end);
    let (whole, rest) = text.split_at(next);
    Some((Line { whole, content }, rest))
}

/// Whether two texts are the same.
pub fn same(text: &[u8], other: &[u8]) -> bool
    ensures { result ≡ bytes_eq text.now other.now }
{
    text == other
}

/// The number of the first line in which two texts differ, if their first lines have that number.
/// Takes no memory.
pub fn first_difference(text: &[u8], other: &[u8], first: u64) -> Option<u64>
    requires { first + length text.now ≤ 1000000000 }
    ensures { result ≡ first_difference_spec first (whole_lines text.now) (whole_lines other.now) }
{
    // Mostly they do not differ, and two texts are compared faster than their lines.
    if same(text, other) {
        return None;
    }
    let mut rest = text;
    let mut others = other;
    let mut number = first;
    loop {
        let Some((line, behind)) = next_whole_line(rest) else {
            return match next_whole_line(others) {
                Some(_) => Some(number),
                None => None,
            };
        };
        let Some((wanted, wanted_behind)) = next_whole_line(others) else {
            return Some(number);
        };
        if !same(line.whole, wanted.whole) {
            return Some(number);
        }
        rest = behind;
        others = wanted_behind;
        number += 1;
    }
}

// Whether the line ends a trace.
fn is_end_line(line: &Line) -> bool
    requires { line.now.content.now ≡ content_spec line.now.whole.now }
    ensures { result ≡ is_end_line_spec line.now.whole.now }
{
    match next_word(line.content) {
        Some((word, _)) => is(word, b"end"),
        None => false,
    }
}

/// The lines up to the first that ends a trace, the text after them, and how many they are. Takes
/// no memory.
pub fn split_section(text: &[u8]) -> (&[u8], &[u8], u64)
    requires { length text.now ≤ 1000000000 }
    ensures section { whole_lines result.0.now ≡ trace_section (whole_lines text.now) }
    ensures behind { whole_lines text.now ≡ trace_section (whole_lines text.now)
        ++ whole_lines result.1.now }
    ensures number { result.2 ≡ length (trace_section (whole_lines text.now)) }
    ensures text { text.now ≡ result.0.now ++ result.1.now }
{
    let mut end = 0;
    let mut rest = text;
    let mut number = 0;
    while let Some((line, behind)) = next_whole_line(rest) {
        end += line.whole.len();
        number += 1;
        if is_end_line(&line) {
            let (section, _) = text.split_at(end);
            return (section, behind, number);
        }
        rest = behind;
    }
    let (section, _) = text.split_at(end);
    (section, rest, number)
}
