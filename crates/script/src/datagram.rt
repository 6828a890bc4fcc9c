// Datagrams of a script: made from the fields that a line names, and found in an output.
ghost use Rattle.std.specs.Prelude.{◌≡◌, ◌+◌, ◌≤◌, ◌<◌, ◌++◌, length, take, MatchOption};
ghost use Rattle.std.specs.Iterator.{at_most};

use super::Line;
use refusals::Refusal;
use wire::Header;

// Fields that are not named are 0, but the epoch 7 and the length that of the payload.
fn header(line: Line<'_>, payload: usize) -> Header {
    Header {
        kind: line.number(b"kind", 0),
        flags: line.number(b"flags", 0),
        length: line.number(b"length", payload as u64),
        epoch: line.number(b"epoch", 7),
        number: line.number(b"number", 0),
        position: line.number(b"position", 0),
        credit: line.number(b"credit", 0),
    }
}

/// The datagram of a line, in the first `size` bytes (an array, as there is no heap).
#[derive(Clone, Copy)]
pub struct Datagram {
    bytes: [u8; 2048],
    size: usize,
    ghost within: { size ≤ 2048 },
}

impl Datagram {
    /// A header, `bytes N` after it, each the byte after `of`, and all of it `cut N`.
    pub fn new(line: Line<'_>) -> Datagram {
        let mut bytes = [line.letter(); 2048];
        let payload = line.size(b"bytes", 0, 2048 - 32);
        writing::write(&mut bytes[..32], header(line, payload));
        let size = line.size(b"cut", 32 + payload, 2048);
        Datagram { bytes, size }
    }

    pub fn as_slice(&self) -> &[u8]
        ensures short { length result.now ≤ 2048 }
        ensures beginning { result.now ≡ take (length result.now) self.now.bytes }
    {
        &self.bytes[..self.size]
    }
}

/// The verdict on the form of a line's datagram.
pub fn form(line: Line<'_>) -> Result<(), Refusal> {
    form::form(Datagram::new(line).as_slice())
}

/// The datagrams of an output, each with its payload as far as the output has it.
#[derive(Clone, Copy)]
pub struct Datagrams<'a> {
    pub rest: &'a [u8],
}

impl<'a> Iterator for Datagrams<'a> {
    type Item = &'a [u8];

    ghost next_gives = { λ s r t. MatchOption r ((length s.rest.now < 32) × (t ≡ s)) (λ d. (32 ≤ length d.now) × (s.rest.now ≡ d.now ++ t.rest.now)) };

    ghost remaining = { λ s. at_most (length s.rest.now) };

    fn next(&mut self) -> Option<&'a [u8]> {
        let rest = self.rest;
        if rest.len() < 32 {
            return None;
        }
        let size = 32 + (wire::fields(rest).length as usize).min(rest.len() - 32);
        let (datagram, rest) = rest.split_at(size);
        self.rest = rest;
        Some(datagram)
    }
}
