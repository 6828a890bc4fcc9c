// The sending side but its datagrams, 01 section 6, with give and finish of section 1. Line and Row are declared in `segments`, so what is done with them here is no method.
#![tactic(auto)]

ghost use Rattle.std.specs.Prelude.{◌≡◌, ◌+◌, ◌*◌, ◌≤◌, length};
ghost use Rattle.segments.specs.Segments.{segments_most};
ghost use Rattle.refusals.specs.Refusals.{row_of};
ghost use Rattle.sending.specs.Giving.{room_of};
ghost use Rattle.sending.specs.Acking.{ack_refusal};
ghost use Rattle.sending.specs.Steps.{ago_of, probes_of};
ghost use Rattle.sending.specs.Buffers.{word_of, Plausible, fresh_line, fresh_row};
ghost use Rattle.sending.specs.Outcome.{Acked, Granted, Gave, Tells};

use refusals::Refusal;
use ring::CAPACITY;
use segments::SEGMENTS;
pub use segments::{Line, Row, Stamp, Tick};
use wire::CEILING;

/// What a tick did: bytes and datagrams written; the next position, the segments kept, and one more than the tick of the last PROBE, the table's word as in `Credit`.
#[derive(Clone, Copy)]
pub struct Sent {
    pub bytes: usize,
    pub count: u64,
    pub next: u64,
    pub kept: u64,
    pub probed: u64,
}

/// The limit, and the last PROBE since room ran out as the table's word: one more than its tick, or 0 for none. It stays a number: `table::save_sends` stores any, and a tick of 2^64 - 1, which an Option could hold, has no word.
#[derive(Clone, Copy)]
pub struct Credit {
    pub limit: u64,
    pub probed: u64,
}

#[tactic(auto, unfolding(crate::specs::Buffers::fresh_line))]
pub fn fresh_line() -> Line
    ensures { result ≡ fresh_line }
{
    Line {
        limit: CAPACITY as u64,
        ..Line::default()
    }
}

#[tactic(auto, unfolding(crate::specs::Buffers::fresh_row))]
pub fn fresh_row() -> Row
    ensures { result ≡ fresh_row }
{
    Row::default()
}

/// Whether the scalars can be a sending side's.
pub fn plausible(l: Line, p: Row) -> bool
    ensures { Tells result (Plausible l p) }
{
    l.given <= CEILING
        && l.closed <= 1
        && p.acked <= p.next
        && p.next <= l.given + 1
        && l.given.saturating_sub(p.acked) <= CAPACITY as u64
        && p.oldest < SEGMENTS
        && p.kept <= SEGMENTS
}

// How many bytes there is room for: none after finish.
#[tactic(auto, unfolding(crate::specs::Giving::room_of))]
fn room(l: Line, acked: u64) -> u64
    ensures { result ≡ room_of l acked }
{
    if l.closed == 1 {
        return 0;
    }
    let held = l.given.saturating_sub(acked);
    (CAPACITY as u64)
        .saturating_sub(held)
        .min(CEILING.saturating_sub(l.given))
}

/// Takes as many of the bytes as there is room for, and answers how many.
pub fn give(ring: &mut [u8; CAPACITY], l: Line, acked: u64, bytes: &[u8]) -> u64
    ensures { Gave l acked ring.old bytes.now result ring.new }
{
    let n = room(l, acked).min(bytes.len() as u64);
    ring::ring_put(ring, l.given, &bytes[..n as usize]);
    n
}

/// No more bytes will be given.
pub fn finish(l: Line) -> Line
    ensures { result ≡ record { given = l.given; closed = 1; limit = l.limit } }
{
    Line { closed: 1, ..l }
}

/// Refuses an ACK at a position that was never sent.
#[tactic(auto, unfolding(laws::specs::Rows::when))]
pub fn ack_refusal(next: u64, position: u64) -> Result<(), Refusal>
    ensures { row_of result ≡ ack_refusal next position }
{
    if next < position {
        return Err(Refusal::NeverSent);
    }
    Ok(())
}

/// An ACK at a position: drops the oldest segments that end there or before.
#[tactic(auto, using(crate::proofs::Acking::acking_laws))]
pub fn ack(ends: &[u64; SEGMENTS as usize], p: Row, position: u64) -> Row
    requires { p.oldest + p.kept ≤ 2 * segments_most }
    ensures { Acked ends.now p position result }
{
    let mut acked = p.acked;
    for i in 0..p.kept {
        let oldest = (p.oldest + i) % SEGMENTS;
        let to = ends[oldest as usize];
        if position < to {
            return Row {
                acked,
                oldest,
                kept: p.kept - i,
                ..p
            };
        }
        acked = to;
    }
    Row {
        acked,
        oldest: (p.oldest + p.kept) % SEGMENTS,
        kept: 0,
        ..p
    }
}

/// An ACK that grants credit up to `top`, its position + credit: the limit never falls, and where it rises a PROBE is forgotten.
#[tactic(auto, unfolding(crate::specs::Buffers::word_of))]
pub fn grant(limit: u64, probed: u64, top: u64) -> Credit
    ensures { Granted limit probed top result }
{
    if limit < top {
        return Credit {
            limit: top,
            probed: 0,
        };
    }
    Credit { limit, probed }
}

// Whether the last PROBE was R ticks ago or more, or none was sent.
#[tactic(auto, unfolding(crate::specs::Steps::ago_of, crate::specs::Buffers::word_of))]
fn ago(w: Tick, probed: u64) -> bool
    ensures { result ≡ ago_of w (word_of probed) }
{
    match probed.checked_sub(1) {
        None => true,
        Some(at) => w.every <= w.now.saturating_sub(at),
    }
}

/// Whether a PROBE is to leave, after `sent` others. The parameters are those of `probes_of`.
#[tactic(auto, unfolding(crate::specs::Steps::probes_of))]
pub fn probes(w: Tick, l: Line, probed: u64, next: u64, kept: u64, sent: u64) -> bool
    ensures { result ≡ probes_of w l (word_of probed) next kept sent }
{
    next < l.given && kept == 0 && l.limit <= next && sent < w.allowed && ago(w, probed)
}
