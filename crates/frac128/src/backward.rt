//! A short text that is written from its end, since a number gives its last digit first. Begin with `put_digits`.
ghost use Rattle.std.specs.Prelude.{◌≡◌, ◌+◌, ◌<◌, ◌≤◌, ◌^◌, [], ◌∷◌, ◌++◌, length};
ghost use Rattle.frac128.specs.Text.{digits};

use std::marker::Model;

// Room for the longest text of a fraction: two numbers of 39 digits, `/` and `-`.
const ROOM: usize = 80;

// The bytes from `start` on are the text; contracts see these alone.
#[derive(Drop)]
pub(crate) struct Backward {
    bytes: [u8; ROOM],
    start: usize,
}

impl Model for Backward {
    ghost use Rattle.std.specs.Prelude.{◌≤◌, ℕ, List, drop};

    ghost Value = { List ℕ };

    ghost view = { λ t. drop t.start t.bytes };

    ghost invariant = { λ t. t.start ≤ 80 };
}

impl Backward {
    pub(crate) fn new() -> Backward
        ensures { result ≡ [] }
    {
        Backward {
            bytes: [0; ROOM],
            start: ROOM,
        }
    }

    pub(crate) fn as_slice(&self) -> &[u8]
        ensures { result.now ≡ self.now }
    {
        &self.bytes[self.start..]
    }

    // Puts a byte before the text.
    pub(crate) fn put(&mut self, byte: u8)
        requires { length self.old < 80 }
        ensures { self.new ≡ byte ∷ self.old }
    {
        self.start -= 1;
        self.bytes[self.start] = byte;
    }

    // Puts the decimal digits of a number before the text.
    pub(crate) fn put_digits(&mut self, n: u128)
        requires room { length self.old + 39 ≤ 80 }
        requires small { n < 2 ^ 127 }
        ensures value { self.new ≡ digits n ++ self.old }
        ensures room { length self.new ≤ length self.old + 39 }
    {
        let mut rest = n;
        while rest > 9 {
            self.put(b'0' + (rest % 10) as u8);
            rest /= 10;
        }
        self.put(b'0' + rest as u8);
    }
}
