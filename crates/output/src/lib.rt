// 01 sections 2 and 6: one DATA of a segment, or one PROBE, written at its place in the output.
#![tactic(auto)]

ghost use Rattle.std.specs.Prelude.{◌≡◌, ◌++◌, ◌+◌, ◌≤◌, length};
ghost use Rattle.ring.specs.Ring.{span};
ghost use Rattle.wire.specs.Datagram.{head_size, payload_most, PROBE, head_of, encode};
ghost use Rattle.output.specs.Output.{size_of, data_of, datagram_most, SentOne};

use ring::CAPACITY;
use wire::{HEAD_SIZE, Header, Kind, PAYLOAD_MOST};

// The bytes before the payload.
const HEAD: usize = HEAD_SIZE as usize;

// How many bytes the segment from..to carries.
fn size(given: u64, from: u64, to: u64) -> u64
    ensures { result ≡ size_of given from to }
{
    PAYLOAD_MOST.min(to.min(given).saturating_sub(from))
}

// A datagram with its payload, the h.length bytes of the ring from h.position on, in all of out.
fn put_data(out: &mut [u8], ring: &[u8; CAPACITY], h: Header)
    requires { (h.length ≤ payload_most) × (length out.old ≡ head_size + h.length) }
    ensures { out.new ≡ head_of h ++ span ring.now h.position h.length }
{
    let (head, payload) = out.split_at_mut(HEAD);
    writing::write(head, h);
    ring::ring_get(payload, ring, h.position);
}

/// The DATA with that number of the segment from..to, at o of out. Answers its length. The parameters are those of `encode`, `data_of` and `SentOne`, one by one: callers have epoch and number in a `Stamp`, which stands above this crate and has the number used last.
pub fn send_data(
    out: &mut [u8],
    o: usize,
    ring: &[u8; CAPACITY],
    epoch: u64,
    number: u64,
    given: u64,
    from: u64,
    to: u64,
) -> usize
    requires { o + datagram_most ≤ length out.old }
    ensures { SentOne out.old o (encode epoch number (data_of given (span ring.now) from to)) result out.new }
{
    let length = size(given, from, to);
    let h = Header {
        kind: u64::from(Kind::Data),
        flags: u64::from(given < to),
        length,
        epoch,
        number,
        position: from,
        credit: 0,
    };
    let m = HEAD + length as usize;
    put_data(&mut out[o..o + m], ring, h);
    m
}

/// The PROBE with that number at a position, at o of out. Answers its length.
pub fn send_probe(out: &mut [u8], o: usize, epoch: u64, number: u64, position: u64) -> usize
    requires { o + datagram_most ≤ length out.old }
    ensures { SentOne out.old o (encode epoch number (PROBE position)) result out.new }
{
    let h = Header {
        kind: u64::from(Kind::Probe),
        flags: 0,
        length: 0,
        epoch,
        number,
        position,
        credit: 0,
    };
    writing::write(&mut out[o..o + HEAD], h);
    HEAD
}
