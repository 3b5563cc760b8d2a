//! Arc lines in their common form, read in one pass.

ghost use Rattle.std.specs.Prelude.{◌≡◌, ◌<◌, ◌≤◌, length, IfSome};
ghost use Rattle.road_text.specs.Fields.{fields_of};
ghost use Rattle.dimacs_reader.specs.Fast.{IsNumberField, AreArcFields};

/// The number whose digits begin at `at`, and where they end, where a space or the line's end follows.
#[inline]
fn number_field(line: &[u8], at: usize) -> Option<(u64, usize)>
    requires { at ≤ length line.now }
    ensures { IfSome result (λ found. IsNumberField line.now at found.0 found.1) }
{
    let mut value: u64 = 0;
    for i in at..line.len() {
        let byte = line[i];
        if byte == b' ' && at < i {
            return Some((value, i));
        }
        if !byte.is_ascii_digit() || 18 < i - at {
            return None;
        }
        value = value * 10 + u64::from(byte - b'0');
    }
    if at < line.len() {
        Some((value, line.len()))
    } else {
        None
    }
}

/// The tail, the head and the length of a line `a U V W` with one space between its fields.
///
/// It may be `None` for an arc line in another form.
pub(crate) fn arc_numbers(line: &[u8]) -> Option<(u64, u64, u64)>
    ensures { IfSome result (λ found. AreArcFields line.now found.0 found.1 found.2) }
{
    if line.len() < 2 || line[0] != b'a' || line[1] != b' ' {
        return None;
    }
    let (tail, tail_end) = number_field(line, 2)?;
    if tail_end == line.len() {
        return None;
    }
    let (head, head_end) = number_field(line, tail_end + 1)?;
    if head_end == line.len() {
        return None;
    }
    let (length, end) = number_field(line, head_end + 1)?;
    if end < line.len() {
        return None;
    }
    Some((tail, head, length))
}
