//! Numbers as texts write them.

ghost use Rattle.std.specs.Prelude.{◌≡◌};
ghost use Rattle.road_text.specs.Numbers.{number_of, canonical_of};

/// The most digits that a number may have.
const MOST_DIGITS: usize = 19;

/// The number that 1 to 19 decimal digits write; leading zeros are accepted.
pub fn number(bytes: &[u8]) -> Option<u64>
    ensures { result ≡ number_of bytes.now }
{
    if bytes.is_empty() || bytes.len() > MOST_DIGITS {
        return None;
    }
    let mut value: u64 = 0;
    for byte in bytes {
        if !byte.is_ascii_digit() {
            return None;
        }
        value = value * 10 + u64::from(*byte - b'0');
    }
    Some(value)
}

/// The number that 1 to 19 decimal digits write without a needless zero before it.
pub fn canonical_number(bytes: &[u8]) -> Option<u64>
    ensures { result ≡ canonical_of bytes.now }
{
    if bytes.len() > 1 && bytes[0] == b'0' {
        return None;
    }
    number(bytes)
}
