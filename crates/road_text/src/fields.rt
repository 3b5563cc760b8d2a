//! Fields: runs of bytes that are neither a space nor a tab.

ghost use Rattle.std.specs.Prelude.{◌≡◌, ◌<◌, ◌≤◌, ◌∷◌, [], true, false, length, drop, slice_index, slice_range, IfSome, MatchOption};
ghost use Rattle.std.specs.List.{AllByRecursion};
ghost use Rattle.road_text.specs.Fields.{is_blank, fields_of, first_byte};

/// Whether the byte is a space or a tab.
fn is_blank(byte: u8) -> bool
    ensures { result ≡ is_blank byte }
{
    byte == b' ' || byte == b'\t'
}

/// Where the first byte stands that isn't blank, or the line's length.
fn skip_blanks(line: &[u8]) -> usize
    ensures high { result ≤ length line.now }
    ensures same { fields_of (drop result line.now) ≡ fields_of line.now }
    ensures first { first_byte (drop result line.now) ≡ first_byte line.now }
    ensures stops { result < length line.now → is_blank (slice_index line.now result) ≡ false }
{
    for i in 0..line.len() {
        if !is_blank(line[i]) {
            return i;
        }
    }
    line.len()
}

/// Where the first blank from `at` on stands, or the line's length.
fn skip_field(line: &[u8], at: usize) -> usize
    requires { at ≤ length line.now }
    ensures low { at ≤ result }
    ensures high { result ≤ length line.now }
    ensures passed { AllByRecursion (λ b. is_blank b ≡ false) (slice_range line.now at result) }
    ensures stops { result < length line.now → is_blank (slice_index line.now result) ≡ true }
{
    for i in at..line.len() {
        if is_blank(line[i]) {
            return i;
        }
    }
    line.len()
}

/// The first field of the line, and the line after it, where it has a field.
///
/// It looks once at each byte up to the field's end.
pub fn first_field(line: &[u8]) -> Option<(&[u8], &[u8])>
    ensures cut { MatchOption result (fields_of line.now ≡ [])
        (λ found. fields_of line.now ≡ found.0.now ∷ fields_of found.1.now) }
    ensures shorter { IfSome result (λ found. length found.1.now < length line.now) }
{
    let from = skip_blanks(line);
    let to = skip_field(line, from);
    if from == to {
        return None;
    }
    Some((&line[from..to], &line[to..]))
}

/// The first byte of the line that isn't blank.
pub fn first_byte(line: &[u8]) -> Option<u8>
    ensures { result ≡ first_byte line.now }
{
    let from = skip_blanks(line);
    if from < line.len() {
        Some(line[from])
    } else {
        None
    }
}
