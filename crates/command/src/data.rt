// The bytes of a command's data: numbers of one, two and four bytes, least significant first, read at a place and appended.
ghost use Rattle.std.specs.Prelude.{◌≡◌, [], ◌++◌, ◌+◌, ◌≤◌, length};
ghost use Rattle.packet.specs.Number.{bytes_of};
ghost use Rattle.command.specs.Inner.{number_at};

use std::marker::Model;

// The three readers, and the appenders below, differ in width alone. One with the width as a parameter would
// answer in the widest type, and each caller would have to narrow it.

// The byte at a place of some data.
pub(crate) fn byte_at(d: &[u8], at: usize) -> u8
    requires { at + 1 ≤ length d.now }
    ensures { result ≡ number_at 1 d.now at }
{
    d[at]
}

// The number of two bytes at a place.
pub(crate) fn word_at(d: &[u8], at: usize) -> u16
    requires { at + 2 ≤ length d.now }
    ensures { result ≡ number_at 2 d.now at }
{
    u16::from_le_bytes([d[at], d[at + 1]])
}

// The number of four bytes at a place.
pub(crate) fn long_at(d: &[u8], at: usize) -> u32
    requires { at + 4 ≤ length d.now }
    ensures { result ≡ number_at 4 d.now at }
{
    u32::from_le_bytes([d[at], d[at + 1], d[at + 2], d[at + 3]])
}

// The longest data of a command, 04 00's.
const ROOM: usize = 17;

// Data that are put together: the first `count` bytes of an array, as there is no heap. Contracts see their list.
#[derive(Drop)]
pub(crate) struct Data {
    bytes: [u8; ROOM],
    count: usize,
}

impl Model for Data {
    ghost use Rattle.std.specs.Prelude.{ℕ, List, ◌≤◌, take};

    ghost Value = { List ℕ };

    ghost view = { λ d. take d.count d.bytes };

    ghost invariant = { λ d. d.count ≤ 17 };
}

#[tactic(auto, unfolding(packet::specs::Number::bytes_of))]
impl Data {
    // No bytes.
    pub(crate) fn new() -> Data
        ensures { result ≡ [] }
    {
        Data {
            bytes: [0; ROOM],
            count: 0,
        }
    }

    // The bytes.
    pub(crate) fn as_slice(&self) -> &[u8]
        ensures bytes { result.now ≡ self.now }
        ensures room { length result.now ≤ 17 }
    {
        &self.bytes[..self.count]
    }

    // These bytes more.
    pub(crate) fn append(mut self, more: &[u8]) -> Data
        requires { length self + length more.now ≤ 17 }
        ensures bytes { result ≡ self ++ more.now }
        ensures longer { length result ≡ length self + length more.now }
    {
        let start = self.count;
        let end = start + more.len();
        self.bytes[start..end].copy_from_slice(more);
        self.count = end;
        self
    }

    // One byte more.
    pub(crate) fn byte(self, b: u8) -> Data
        requires { length self + 1 ≤ 17 }
        ensures bytes { result ≡ self ++ bytes_of 1 b }
        ensures longer { length result ≡ length self + 1 }
    {
        self.append(&[b])
    }

    // The low byte of a number more. (`to_le_bytes()[0]` says it no plainer.)
    pub(crate) fn low(self, n: u32) -> Data
        requires { length self + 1 ≤ 17 }
        ensures bytes { result ≡ self ++ bytes_of 1 n }
        ensures longer { length result ≡ length self + 1 }
    {
        self.byte((n % 256) as u8)
    }

    // A number of two bytes more.
    pub(crate) fn word(self, w: u16) -> Data
        requires { length self + 2 ≤ 17 }
        ensures bytes { result ≡ self ++ bytes_of 2 w }
        ensures longer { length result ≡ length self + 2 }
    {
        self.append(&w.to_le_bytes())
    }

    // A number of four bytes more.
    pub(crate) fn long(self, n: u32) -> Data
        requires { length self + 4 ≤ 17 }
        ensures bytes { result ≡ self ++ bytes_of 4 n }
        ensures longer { length result ≡ length self + 4 }
    {
        self.append(&n.to_le_bytes())
    }
}
