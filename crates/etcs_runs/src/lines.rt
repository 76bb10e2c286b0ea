//! Lines of a text.

ghost use Rattle.std.specs.Prelude.{◌≡◌, ◌-◌, ◌<◌, ◌≤◌, ◌++◌, ◌∷◌, drop, length, IfSome, IsNone};
ghost use Rattle.etcs_runs.specs.Lines.{IsAfterLf, IsLine, strip_cr};

use memchr::{memchr, memrchr};

/// How many characters a line has at most, except for lines of hexadecimal that `run` reads.
pub const MOST_LINE: usize = 1_048_576;

/// Returns the characters before the first LF, and those after it; `None` exactly if there is no LF.
pub fn split_line(text: &[u8]) -> Option<(&[u8], &[u8])>
    ensures some { IfSome result (λ p. (text.now ≡ p.0.now ++ 10 ∷ p.1.now) × IsLine p.0.now) }
    ensures none { IsNone result → IsLine text.now }
{
    let at = memchr(b'\n', text)?;
    Some((&text[..at], &text[at + 1..]))
}

/// Returns the characters before the first LF, and those after it; `None` exactly if there is no LF. The last `after`
/// characters have none.
pub(crate) fn next_line(text: &[u8], after: usize) -> Option<(&[u8], &[u8])>
    requires { length text.now ≤ after → IsLine text.now }
    ensures some { IfSome result (λ p. (text.now ≡ p.0.now ++ 10 ∷ p.1.now) × IsLine p.0.now) }
    ensures none { IsNone result → IsLine text.now }
{
    if text.len() <= after {
        return None;
    }
    split_line(text)
}

/// Returns how many characters are after the last LF; all of them if there is no LF.
pub(crate) fn after_lines(text: &[u8]) -> usize
    ensures fits { result ≤ length text.now }
    ensures last { IsLine (drop (length text.now - result) text.now) }
    ensures before { result < length text.now → IsAfterLf text.now (length text.now - result) }
{
    match memrchr(b'\n', text) {
        Some(at) => text.len() - (at + 1),
        None => text.len(),
    }
}

/// Returns the line without the one CR at its end, or as it is if it doesn't end with a CR.
pub fn without_cr(line: &[u8]) -> &[u8]
    ensures { result.now ≡ strip_cr line.now }
{
    let count = line.len();
    if count > 0 && line[count - 1] == b'\r' {
        &line[..count - 1]
    } else {
        line
    }
}
