// 01 section 5: bytes that arrive where there are holes. What lies beyond the lowest missing position has marks, but for the last stretch.
#![tactic(auto)]

ghost use Rattle.std.specs.Prelude.{◌+◌, ◌≤◌, ◌<◌, length};
ghost use Rattle.receiving.specs.Receiving.{Ranged};
ghost use Rattle.receiving.specs.Calls.{New, Fills};
ghost use Rattle.holes.specs.Holes.{Fresh};

use receiving::Scalars;
use ring::CAPACITY;

/// Over positions of which some have arrived: the last stretch gets its marks, and is empty after. The five arguments stay: a struct that holds two `&mut` has to promise in each function that it still holds the same two, and with one of p and src alone each promise says `d.entry.position` for p.
pub fn slow(
    ring: &mut [u8; CAPACITY],
    marks: &mut [u8; CAPACITY],
    s: Scalars,
    p: u64,
    src: &[u8],
) -> Scalars
    requires ranged { Ranged s }
    requires new { New s p (length src.now) }
    ensures { Fills ring.old marks.old s p src.now ring.new marks.new result }
{
    let top = s.high.max(p + src.len() as u64);
    marks::put_all(marks, s.tail, s.high, true);
    arrivals::place(ring, marks, p, src, s.low, s.high);
    let low = arrivals::advance(marks, s.low, top);
    Scalars {
        low,
        tail: top,
        high: top,
        ..s
    }
}

/// Beyond a new hole: the last stretch gets its marks, and the bytes are the next one.
pub fn leap(
    ring: &mut [u8; CAPACITY],
    marks: &mut [u8; CAPACITY],
    s: Scalars,
    p: u64,
    src: &[u8],
) -> Scalars
    requires ranged { Ranged s }
    requires new { New s p (length src.now) }
    requires high_lt_p { s.high < p }
    ensures { Fills ring.old marks.old s p src.now ring.new marks.new result }
{
    arrivals::write(ring, p, src, p);
    marks::put_all(marks, s.tail, s.high, true);
    Scalars {
        tail: p,
        high: p + src.len() as u64,
        ..s
    }
}

/// In order, and none of the positions has arrived: one copy, and then low passes what has arrived beyond.
pub fn follow(
    ring: &mut [u8; CAPACITY],
    marks: &mut [u8; CAPACITY],
    s: Scalars,
    p: u64,
    src: &[u8],
) -> Scalars
    requires ranged { Ranged s }
    requires new { New s p (length src.now) }
    requires p_le_low { p ≤ s.low }
    requires fresh { Fresh marks.old s (p + length src.now) }
    ensures { Fills ring.old marks.old s p src.now ring.new marks.new result }
{
    arrivals::write(ring, p, src, s.low);
    let low = arrivals::advance(marks, p + src.len() as u64, s.tail);
    if low == s.tail {
        return Scalars {
            low: s.high,
            tail: s.high,
            ..s
        };
    }
    Scalars { low, ..s }
}
