//! Fields of a line: the longest runs of bytes other than space and tab.

ghost use Rattle.std.specs.Prelude.{◌≡◌, ◌+◌, ◌-◌, ◌<◌, ◌≤◌, ◌↔◌, [], ◌∷◌, false, length};
ghost use Rattle.std.specs.Prelude.{drop, slice_index, slice_range, IsNone, IfSome};
ghost use Rattle.seg_text.specs.Fields.{is_blank, fields_of, fields_from, IsSpan, IsRun};

/// The start and the end of the first field that begins at or after `from`.
/// `None` where no field begins there. Takes no memory.
pub fn next_field(line: &[u8], from: usize) -> Option<(usize, usize)>
    requires { from ≤ length line.now }
    ensures none { IsNone result ↔ (fields_from line.now from ≡ []) }
    ensures first { IfSome result (λ r.
        fields_from line.now from ≡ slice_range line.now r.0 r.1 ∷ fields_from line.now r.1) }
    ensures within { IfSome result (λ r. IsSpan line.now from r.0 r.1) }
{
    let start = blanks_end(line, open_end(line, from));
    if start == line.len() {
        return None;
    }
    Some((start, run_end(line, start)))
}

/// The end of the field that runs on from before `from`, or `from`.
fn open_end(line: &[u8], from: usize) -> usize
    requires { from ≤ length line.now }
    ensures after { from ≤ result }
    ensures within { result ≤ length line.now }
    ensures fields { fields_from line.now from ≡ fields_of (drop result line.now) }
{
    if from > 0 && !is_blank(line[from - 1]) {
        run_end(line, from)
    } else {
        from
    }
}

/// Where the blanks from `from` on end.
fn blanks_end(line: &[u8], from: usize) -> usize
    requires { from ≤ length line.now }
    ensures after { from ≤ result }
    ensures within { result ≤ length line.now }
    ensures fields { fields_of (drop from line.now) ≡ fields_of (drop result line.now) }
    ensures ended { result < length line.now → is_blank (slice_index line.now result) ≡ false }
{
    let mut end = from;
    while end < line.len() && is_blank(line[end]) {
        end += 1;
    }
    end
}

/// Where the bytes other than space and tab end.
fn run_end(line: &[u8], from: usize) -> usize
    requires { from ≤ length line.now }
    ensures run { IsRun line.now from result }
{
    let mut end = from;
    while end < line.len() && !is_blank(line[end]) {
        end += 1;
    }
    end
}

/// Whether the byte is a space or a tab.
#[inline(always)]
fn is_blank(byte: u8) -> bool
    ensures { result ≡ is_blank byte }
{
    byte == b' ' || byte == b'\t'
}
