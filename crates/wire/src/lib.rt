// A datagram's header, 01 section 2: its fields, how they are read, and what its kinds are.
#![tactic(auto)]

ghost use Rattle.std.specs.Prelude.{◌≡◌, ◌+◌, ◌≤◌, length};
ghost use Rattle.laws.specs.Part.{part};
ghost use Rattle.wire.specs.Datagram.{head_size};
ghost use Rattle.wire.specs.Kinds.{kind_number, KindOf};
ghost use Rattle.wire.specs.Reading.{Fields};

use refusals::Refusal;

pub const HEAD_SIZE: u64 = 32;

pub const PAYLOAD_MOST: u64 = 1024;

/// 2^62: numbers, ticks and positions stay below it.
pub const CEILING: u64 = 4611686018427387904;

/// What a datagram is, by the number in its first byte.
#[derive(Clone, Copy, Debug, PartialEq, Eq)]
pub enum Kind {
    Data = 1,
    Ack,
    Probe,
}

impl From<Kind> for u64 {
    ghost from_gives = { λ kind number. number ≡ kind_number kind };

    fn from(kind: Kind) -> u64 {
        kind as u64
    }
}

impl TryFrom<u64> for Kind {
    type Error = Refusal;

    ghost try_from_gives = { KindOf };

    fn try_from(number: u64) -> Result<Kind, Refusal> {
        match number {
            1 => Ok(Kind::Data),
            2 => Ok(Kind::Ack),
            3 => Ok(Kind::Probe),
            _ => Err(Refusal::Form),
        }
    }
}

/// The fields before the payload. Kind and flags are numbers: fields are read before they are judged, and a header may say any (`Fields`, `form_of`).
#[derive(Clone, Copy)]
pub struct Header {
    pub kind: u64,
    pub flags: u64,
    pub length: u64,
    pub epoch: u64,
    pub number: u64,
    pub position: u64,
    pub credit: u64,
}

// The N bytes of d from `at` on.
fn bytes<const N: usize>(d: &[u8], at: usize) -> [u8; N]
    requires { at + N ≤ length d.now }
    ensures { result ≡ part at N d.now }
{
    <[u8; N]>::try_from(&d[at..at + N]).unwrap()
}

/// The fields of a datagram that has a whole header.
pub fn fields(d: &[u8]) -> Header
    requires { head_size ≤ length d.now }
    ensures { Fields d.now result }
{
    Header {
        kind: d[0] as u64,
        flags: d[1] as u64,
        length: u16::from_be_bytes(bytes(d, 2)) as u64,
        epoch: u64::from_be_bytes(bytes(d, 4)),
        number: u64::from_be_bytes(bytes(d, 12)),
        position: u64::from_be_bytes(bytes(d, 20)),
        credit: u32::from_be_bytes(bytes(d, 28)) as u64,
    }
}
