// 01 section 5: a mark for each position beyond the lowest missing one, a bit each: eight positions are one byte.
// The ends a and b of a stretch are two parameters, here and above: a struct of them is taken apart in each clause (`Marked`, `Finds`, `Runs`, `Advanced`) and made anew for each part of a stretch, so it is no plainer.
#![tactic(auto)]

ghost use Rattle.std.specs.Prelude.{◌≡◌, ◌+◌, ◌*◌, ◌/◌, ◌%◌, ◌≤◌, length};
ghost use Rattle.ring.specs.Ring.{capacity};
ghost use Rattle.std.specs.Int.{from_bool};
ghost use Rattle.marks.specs.Marks.{mark};
ghost use Rattle.marks.specs.Stretches.{Put, Marked, Up, Whole, Straight, Parts};

use ring::CAPACITY;

/// The index of the byte that has the mark of q.
pub fn byte(q: u64) -> usize
    ensures { result ≡ q % capacity / 8 }
{
    ring::index(q) / 8
}

/// Whether q has its mark.
pub fn test(m: &[u8; CAPACITY], q: u64) -> bool
    ensures { from_bool result ≡ mark m.now q }
{
    m[byte(q)] >> (q % 8) & 1 == 1
}

/// Sets the mark of q, or clears it where v is false.
pub fn put(m: &mut [u8; CAPACITY], q: u64, v: bool)
    ensures { Put m.old q (from_bool v) m.new }
{
    let i = byte(q);
    let bit = 1 << (q % 8);
    if v {
        m[i] |= bit;
    } else {
        m[i] &= !bit;
    }
}

// Sets or clears each mark of a .. b - 1, one by one.
fn put_each(m: &mut [u8; CAPACITY], a: u64, b: u64, v: bool)
    requires a_le_b { (a ≤ b) × (b ≤ a + capacity) }
    ensures { Marked m.old a b (from_bool v) m.new }
{
    for q in a..b {
        put(m, q, v);
    }
}

// The same where they are whole bytes, none beyond the seam.
fn put_bytes(m: &mut [u8; CAPACITY], a: u64, b: u64, v: bool)
    requires straight { Straight a b }
    ensures { Marked m.old a b (from_bool v) m.new }
{
    let at = byte(a);
    let n = ((b - a) / 8) as usize;
    m[at..at + n].fill(eight(v));
}

/// The byte whose eight marks are all v.
pub fn eight(v: bool) -> u8
    ensures { result ≡ from_bool v * 255 }
{
    if v { u8::MAX } else { 0 }
}

/// The first multiple of 8 from a on.
pub fn up(a: u64, b: u64) -> u64
    requires { a + 16 ≤ b }
    ensures { Up a result }
{
    a.next_multiple_of(8)
}

/// Where whole bytes part: at the seam, or at their end.
pub fn seam(a: u64, b: u64) -> u64
    requires { Whole a b }
    ensures { Parts a b result }
{
    let room = (CAPACITY - ring::index(a)) as u64;
    a + room.min(b - a)
}

// Whole bytes, in two parts at the seam.
fn put_whole(m: &mut [u8; CAPACITY], a: u64, b: u64, v: bool)
    requires whole { Whole a b }
    ensures { Marked m.old a b (from_bool v) m.new }
{
    let s = seam(a, b);
    put_bytes(m, a, s, v);
    put_bytes(m, s, b, v);
}

/// Sets or clears each mark of a .. b - 1: whole bytes at once, and one by one before and after them.
pub fn put_all(m: &mut [u8; CAPACITY], a: u64, b: u64, v: bool)
    requires a_le_b { (a ≤ b) × (b ≤ a + capacity) }
    ensures { Marked m.old a b (from_bool v) m.new }
{
    if b - a < 16 {
        put_each(m, a, b, v);
        return;
    }
    let x = up(a, b);
    let y = b - b % 8;
    put_each(m, a, x, v);
    put_whole(m, x, y, v);
    put_each(m, y, b, v);
}
