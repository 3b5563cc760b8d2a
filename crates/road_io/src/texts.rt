ghost use Rattle.std.specs.Prelude.{◌≡◌, ℕ, ◌<◌, ◌≤◌, length, take, Some};
ghost use Rattle.std.specs.Option.{option_copied};
ghost use Rattle.road_io.specs.Memory.{GivesPiece, contents_in};

use crate::reading::Read;

/// A file in memory.
#[derive(Clone, Copy, Debug)]
pub struct NamedFile<'a> {
    pub name: &'a str,
    pub bytes: &'a [u8],
}

/// The contents of the first file with this name.
pub(crate) fn find_file<'a>(files: &[NamedFile<'a>], name: &str) -> Option<&'a [u8]>
    ensures { option_copied result ≡ contents_in files.now name.now }
{
    files
        .iter()
        .find(|file| file.name == name)
        .map(|file| file.bytes)
}

/// What is left of a text, which reads give in pieces of at most `piece` bytes, or in as many as
/// fit where `piece` is 0.
#[derive(Drop)]
pub(crate) struct Rest<'a> {
    bytes: &'a [u8],
    piece: usize,
}

/// Copies the first bytes of `from` to the beginning of `room`.
fn copy_front(from: &[u8], count: usize, room: &mut [u8])
    requires from { count ≤ length from.now }
    requires room { count ≤ length room.old }
    ensures { take count room.new ≡ take count from.now }
{
    room[..count].copy_from_slice(&from[..count]);
}

impl<'a> Rest<'a> {
    pub(crate) fn new(bytes: &'a [u8], piece: usize) -> Self
        ensures bytes { result.bytes.now ≡ bytes.now }
        ensures piece { result.piece ≡ piece }
    {
        Rest { bytes, piece }
    }

    /// Begins another text.
    pub(crate) fn begin(&mut self, bytes: &'a [u8])
        ensures bytes { self.new.bytes.now ≡ bytes.now }
        ensures piece { self.new.piece ≡ self.old.piece }
    {
        self.bytes = bytes;
    }

    pub(crate) fn take(&mut self, room: &mut [u8]) -> Read
        requires { 0 < length room.old }
        ensures gives { GivesPiece self.old.piece room.new self.old.bytes.now self.new.bytes.now result }
        ensures piece { self.new.piece ≡ self.old.piece }
    {
        let left = self.bytes.len();
        let most = if self.piece == 0 { left } else { self.piece };
        let count = room.len().min(left).min(most);
        if count == 0 {
            return Read::End;
        }
        copy_front(self.bytes, count, room);
        self.bytes = &self.bytes[count..];
        Read::Took(count)
    }
}
