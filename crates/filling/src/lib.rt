// 01 section 5: bytes that arrive are kept in a ring, with marks for what lies beyond the lowest missing position and before the last stretch.
#![tactic(auto)]

ghost use Rattle.std.specs.Prelude.{◌≡◌, true, ◌+◌, ◌≤◌, ◌<◌, length};
ghost use Rattle.ring.specs.Ring.{capacity};
ghost use Rattle.receiving.specs.Receiving.{Ranged};
ghost use Rattle.receiving.specs.Calls.{Room, New, Fills, Hears};
ghost use Rattle.holes.specs.Holes.{Fresh};

use receiving::Scalars;
use ring::CAPACITY;

// Whether none of the positions from low to e - 1 has arrived.
#[tactic(auto, using(crate::proofs::FillLaws::fresh_laws))]
fn fresh(marks: &[u8; CAPACITY], s: Scalars, e: u64) -> bool
    requires low_le_e { (s.low ≤ e) × (e ≤ s.low + capacity) }
    ensures { result ≡ true → Fresh marks.now s e }
{
    e <= s.tail && !finding::any(marks, s.low, e)
}

// In order. Where nothing lies beyond the lowest missing position it is one copy, and no mark is touched. The arguments, here and below, stay for the reason at `holes::slow`.
fn in_order(
    ring: &mut [u8; CAPACITY],
    marks: &mut [u8; CAPACITY],
    s: Scalars,
    p: u64,
    src: &[u8],
) -> Scalars
    requires ranged { Ranged s }
    requires new { New s p (length src.now) }
    requires p_le_low { p ≤ s.low }
    ensures { Fills ring.old marks.old s p src.now ring.new marks.new result }
{
    let e = p + src.len() as u64;
    if s.high <= s.low {
        arrivals::write(ring, p, src, s.low);
        return Scalars {
            low: e,
            tail: e,
            high: e,
            ..s
        };
    }
    if fresh(marks, s, e) {
        return holes::follow(ring, marks, s, p, src);
    }
    holes::slow(ring, marks, s, p, src)
}

// Beyond the lowest missing position. Right after all that has arrived the last stretch grows, and no mark is touched.
fn beyond(
    ring: &mut [u8; CAPACITY],
    marks: &mut [u8; CAPACITY],
    s: Scalars,
    p: u64,
    src: &[u8],
) -> Scalars
    requires ranged { Ranged s }
    requires new { New s p (length src.now) }
    requires low_lt_p { s.low < p }
    ensures { Fills ring.old marks.old s p src.now ring.new marks.new result }
{
    if p == s.high {
        arrivals::write(ring, p, src, p);
        return Scalars {
            high: p + src.len() as u64,
            ..s
        };
    }
    if s.high < p {
        return holes::leap(ring, marks, s, p, src);
    }
    holes::slow(ring, marks, s, p, src)
}

// A DATA's bytes.
#[tactic(auto, using(crate::proofs::FillLaws::fill_laws))]
fn fill(
    ring: &mut [u8; CAPACITY],
    marks: &mut [u8; CAPACITY],
    s: Scalars,
    p: u64,
    src: &[u8],
) -> Scalars
    requires ranged { Ranged s }
    requires room { Room s p (length src.now) }
    ensures { Fills ring.old marks.old s p src.now ring.new marks.new result }
{
    let e = p + src.len() as u64;
    if src.is_empty() || e <= s.low {
        return s;
    }
    if p <= s.low {
        return in_order(ring, marks, s, p, src);
    }
    if s.tail <= p && e <= s.high {
        return s;
    }
    beyond(ring, marks, s, p, src)
}

/// An accepted DATA: its bytes, and where e, its flags as they came, is 1 the END right after them.
pub fn hear(
    ring: &mut [u8; CAPACITY],
    marks: &mut [u8; CAPACITY],
    s: Scalars,
    p: u64,
    src: &[u8],
    e: u64,
) -> Scalars
    requires ranged { Ranged s }
    requires room { Room s p (length src.now) }
    ensures { Hears ring.old marks.old s p src.now e ring.new marks.new result }
{
    let t = fill(ring, marks, s, p, src);
    if e == 1 {
        return Scalars {
            known: 1,
            end: p + src.len() as u64,
            ..t
        };
    }
    t
}
