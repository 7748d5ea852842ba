//! The beginning of an input.

ghost use Rattle.std.specs.Prelude.{◌≡◌, ◌≤◌, ◌+◌, ◌++◌, [], length, take};
ghost use Rattle.input_hints.specs.declared.start.TheConstants.{ROOM};

use std::marker::Model;

/// How many bytes are kept.
pub const ROOM: usize = 16_384;

/// The first bytes of an input, at most `ROOM` of them. It takes no memory.
#[derive(Drop)]
pub struct Start {
    bytes: [u8; ROOM],
    len: usize,
}

impl Model for Start {
    ghost use Rattle.std.specs.Prelude.{ℕ, List, ◌≤◌, take};
    ghost use Rattle.input_hints.specs.declared.start.TheConstants.{ROOM};

    ghost Value = { List ℕ };

    ghost view = { λ start. take start.len start.bytes };

    ghost invariant = { λ start. start.len ≤ ROOM };
}

impl Start {
    /// No byte so far.
    pub fn new() -> Start
        ensures { result ≡ [] }
    {
        Start {
            bytes: [0; ROOM],
            len: 0,
        }
    }

    /// The bytes.
    pub fn as_slice(&self) -> &[u8]
        ensures { result.now ≡ self.now }
    {
        &self.bytes[..self.len]
    }

    /// Appends bytes to those that are kept.
    fn put(&mut self, text: &[u8])
        requires { length self.old + length text.now ≤ ROOM }
        ensures { self.new ≡ self.old ++ text.now }
    {
        let len = self.len;
        self.bytes[len..len + text.len()].copy_from_slice(text);
        self.len = len + text.len();
    }

    /// Takes in the bytes that come next, as many as there is room for.
    pub fn add(&mut self, more: &[u8])
        ensures { self.new ≡ take ROOM (self.old ++ more.now) }
    {
        let room = ROOM - self.len;
        let (front, _) = more.split_at(room.min(more.len()));
        self.put(front);
    }
}
