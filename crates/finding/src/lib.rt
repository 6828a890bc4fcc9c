// 01 section 5: marks are searched: single ones up to a whole byte, whole bytes, and single ones after them.
// Where none is found the answer is b, the end of the stretch, and no None: `Finds` and `Runs` say so, and callers go on from there.
#![tactic(auto)]

mod search;

ghost use Rattle.std.specs.Prelude.{◌≡◌, ◌+◌, ◌≤◌, length};
ghost use Rattle.ring.specs.Ring.{capacity};
ghost use Rattle.std.specs.Int.{from_bool};
ghost use Rattle.marks.specs.Stretches.{Whole, Straight};
ghost use Rattle.finding.specs.Finding.{Skips, Finds, Runs, Unmarked};

use ring::CAPACITY;

// The first position from a on whose mark is not v, or b, one by one.
fn find_each(m: &[u8; CAPACITY], a: u64, b: u64, v: bool) -> u64
    requires a_le_b { a ≤ b }
    ensures { Finds m.now (from_bool v) a b result }
{
    for q in a..b {
        if marks::test(m, q) != v {
            return q;
        }
    }
    b
}

// Passes whole bytes in which each mark is v, none beyond the seam.
fn skip_bytes(m: &[u8; CAPACITY], a: u64, b: u64, v: bool) -> u64
    requires straight { Straight a b }
    ensures { Skips m.now (from_bool v) a b result }
{
    let at = marks::byte(a);
    let n = ((b - a) / 8) as usize;
    let passed = search::first_other(&m[at..at + n], marks::eight(v)) as u64;
    a + passed * 8
}

// Whole bytes, in two parts at the seam.
fn skip_whole(m: &[u8; CAPACITY], a: u64, b: u64, v: bool) -> u64
    requires whole { Whole a b }
    ensures { Skips m.now (from_bool v) a b result }
{
    let s = marks::seam(a, b);
    let l = skip_bytes(m, a, s, v);
    if l < s {
        return l;
    }
    skip_bytes(m, s, b, v)
}

// The first position from a on whose mark is not v, or b.
fn find(m: &[u8; CAPACITY], a: u64, b: u64, v: bool) -> u64
    requires a_le_b { (a ≤ b) × (b ≤ a + capacity) }
    ensures { Finds m.now (from_bool v) a b result }
{
    if b - a < 16 {
        return find_each(m, a, b, v);
    }
    let x = marks::up(a, b);
    let l = find_each(m, a, x, v);
    if l < x {
        return l;
    }
    let y = b - b % 8;
    let z = skip_whole(m, x, y, v);
    find_each(m, z, b, v)
}

/// The first position from low on without a mark, or top. Mostly it is low itself.
pub fn run(m: &[u8; CAPACITY], low: u64, top: u64) -> u64
    requires low_le_top { (low ≤ top) × (top ≤ low + capacity) }
    ensures { Runs m.now low top result }
{
    if !marks::test(m, low) {
        return low;
    }
    find(m, low, top, true)
}

/// Whether a position of a .. b - 1 has a mark.
pub fn any(m: &[u8; CAPACITY], a: u64, b: u64) -> bool
    requires a_le_b { (a ≤ b) × (b ≤ a + capacity) }
    ensures { Unmarked m.now a b (from_bool result) }
{
    find(m, a, b, false) < b
}
