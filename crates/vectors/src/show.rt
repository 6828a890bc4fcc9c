// What is written on standard output: bytes, numbers and datagrams, each answer after a space.
ghost use Rattle.std.specs.Prelude.{◌≤◌, length};

use refusals::Refusal;
use script::datagram::Datagrams;
use script::shown::{Hex, same};
use std::io::{self, Print, Stdout};

// Bytes on a line of their own.
fn line(to: Stdout, bytes: &[u8]) -> io::Result<()> {
    let hex = Hex { bytes };
    print!(to; "\n {hex}")
}

// Header and payload of a datagram; of a payload above 16 bytes its size.
fn datagram(to: Stdout, d: &[u8]) -> io::Result<()>
    requires { 32 ≤ length d.now }
{
    line(to, &d[..20])?;
    line(to, &d[20..32])?;
    let payload = &d[32..];
    match payload.len() {
        0 => Ok(()),
        1..=16 => line(to, payload),
        n => print!(to; "\n  {n} bytes"),
    }
}

pub fn datagrams(to: Stdout, all: Datagrams<'_>) -> io::Result<()> {
    for d in all {
        datagram(to, d)?;
    }
    Ok(())
}

// The bytes taken; of more than 64 only whether they are all the same.
fn some(to: Stdout, d: &[u8]) -> io::Result<()> {
    if d.len() <= 64 {
        return to.write_all(d);
    }
    if same(d, d[0]) {
        to.write_all(b"all ")?;
        return to.write_all(&d[..1]);
    }
    to.write_all(b"not all the same")
}

/// What take answered: how many bytes of room were taken, whether the END has been reached, and the bytes.
pub fn taken(to: Stdout, taken: Result<(u64, bool), Refusal>, room: &[u8]) -> io::Result<()> {
    let (n, ended) = match taken {
        Ok(taken) => taken,
        Err(refusal) => return answer(to, Err(refusal)),
    };
    print!(to; " {n} bytes, ended {}: ", u8::from(ended))?;
    some(to, &room[..(n as usize).min(room.len())])
}

/// A refusal's number, or ok.
pub fn verdict(to: Stdout, verdict: Result<(), Refusal>) -> io::Result<()> {
    match verdict {
        Ok(()) => to.write_all(b" ok"),
        Err(refusal) => print!(to; " {}", u64::from(refusal)),
    }
}

/// What a call answered.
pub fn answer(to: Stdout, answer: Result<u64, Refusal>) -> io::Result<()> {
    match answer {
        Ok(n) => print!(to; " {n}"),
        Err(refusal) => print!(to; " {refusal}"),
    }
}
