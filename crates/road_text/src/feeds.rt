//! Where a line ends.

ghost use Rattle.std.specs.Prelude.{◌≡◌, ◌≤◌, length, take, MatchOption};
ghost use Rattle.road_text.specs.Lines.{HasNoFeed, without_return};
ghost use Rattle.road_text.specs.Filling.{IsFeedAt};

use memchr::memchr;

/// Where the first line feed stands, given that the first `from` bytes have none.
pub(crate) fn find_feed(bytes: &[u8], from: usize) -> Option<usize>
    requires within { from ≤ length bytes.now }
    requires before { HasNoFeed (take from bytes.now) }
    ensures { MatchOption result (HasNoFeed bytes.now) (IsFeedAt bytes.now) }
{
    match memchr(b'\n', &bytes[from..]) {
        Some(feed) => Some(from + feed),
        None => None,
    }
}

/// How long a raw line is without one carriage return at its end.
pub(crate) fn line_len(raw: &[u8]) -> usize
    ensures high { result ≤ length raw.now }
    ensures value { take result raw.now ≡ without_return raw.now }
{
    let len = raw.len();
    if len > 0 && raw[len - 1] == b'\r' {
        len - 1
    } else {
        len
    }
}
