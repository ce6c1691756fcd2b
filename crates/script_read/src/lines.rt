//! The lines of an input.

ghost use Rattle.std.specs.Prelude.{◌≡◌, ◌+◌, ◌-◌, ◌<◌, ◌≤◌, ◌==◌, ◌↔◌, ◌∷◌, length, drop};
ghost use Rattle.std.specs.Prelude.{position, slice_range, IsNone, IfSome};
ghost use Rattle.script_read.specs.Lines.{lines_of, IsLineSpan};

use memchr::memchr;

/// The end of the line that begins at `from`, without its line feed, and the start of the next.
/// `None` exactly where nothing is left. Takes no memory.
pub fn next_line(input: &[u8], from: usize) -> Option<(usize, usize)>
    requires { from ≤ length input.now }
    ensures none { IsNone result ↔ (from ≡ length input.now) }
    ensures line { IfSome result (λ r. lines_of (drop from input.now)
        ≡ slice_range input.now from r.0 ∷ lines_of (drop r.1 input.now)) }
    ensures within { IfSome result (λ r. IsLineSpan input.now from r.0 r.1) }
{
    if from == input.len() {
        return None;
    }
    match line_feed(&input[from..]) {
        Some(len) => Some((from + len, from + len + 1)),
        None => Some((input.len(), input.len())),
    }
}

/// Where the first line feed stands.
fn line_feed(bytes: &[u8]) -> Option<usize>
    ensures { result ≡ position (λ b. b == 10) bytes.now }
{
    memchr(b'\n', bytes)
}
