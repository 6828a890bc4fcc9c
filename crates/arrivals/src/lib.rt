// 01 section 5: what has arrived, laid into a ring of bytes and a ring of marks, position by position.
// The ring, the marks, and src with its position p are parameters each: `Stored`, `Laid` and `Placed` speak of each before and after, and would take a struct of them apart in every clause. What is asked of them (`src_len_bound`, `p_le_a`) stands in each function's clauses for the same reason.
#![tactic(auto)]

ghost use Rattle.std.specs.Prelude.{◌+◌, ◌≤◌, ◌<◌, length};
ghost use Rattle.wire.specs.Datagram.{ceiling};
ghost use Rattle.ring.specs.Ring.{capacity};
ghost use Rattle.arrivals.specs.Steps.{Written, Stored, Laid, Placed, Advanced};

use ring::CAPACITY;

/// Bytes of src, which starts at position p, from position a on: straight into the ring.
pub fn write(ring: &mut [u8; CAPACITY], p: u64, src: &[u8], a: u64)
    requires src_len_bound { length src.now ≤ capacity }
    requires p_le_a { (p ≤ a) × (a ≤ p + length src.now) }
    ensures { Written ring.old p src.now a (p + length src.now) ring.new }
{
    let k = (a - p) as usize;
    ring::ring_put(ring, a, &src[k..]);
}

// The byte of src, which starts at position p, for the position q: it goes where there is no mark.
fn store_one(ring: &mut [u8; CAPACITY], marks: &mut [u8; CAPACITY], p: u64, src: &[u8], q: u64)
    requires p_le_q { (p ≤ q) × (q < p + length src.now) }
    ensures { Stored ring.old marks.old p src.now q (q + 1) ring.new marks.new }
{
    if marks::test(marks, q) {
        return;
    }
    ring[ring::index(q)] = src[(q - p) as usize];
    marks::put(marks, q, true);
}

// Position by position, from a to b - 1.
fn store(ring: &mut [u8; CAPACITY], marks: &mut [u8; CAPACITY], p: u64, src: &[u8], a: u64, b: u64)
    requires p_le_a { ((p ≤ a) × (a ≤ b)) × ((b ≤ p + length src.now) × (b ≤ a + capacity)) }
    ensures { Stored ring.old marks.old p src.now a b ring.new marks.new }
{
    for q in a..b {
        store_one(ring, marks, p, src, q);
    }
}

/// Passes and clears marks from low on, up to the first position without one, or top.
pub fn advance(marks: &mut [u8; CAPACITY], low: u64, top: u64) -> u64
    requires low_le_top { ((low ≤ top) × (top ≤ low + capacity)) × (top ≤ ceiling) }
    ensures { Advanced marks.old low top marks.new result }
{
    let l = finding::run(marks, low, top);
    marks::put_all(marks, low, l, false);
    l
}

// Positions a to the end of src, which starts at p: from edge on nothing has arrived. Below it what has arrived is passed at once up to the first position that is missing.
fn lay(ring: &mut [u8; CAPACITY], marks: &mut [u8; CAPACITY], p: u64, src: &[u8], a: u64, edge: u64)
    requires p_le_a { ((p ≤ a) × (a ≤ edge)) × ((edge ≤ p + length src.now) × (p + length src.now ≤ a + capacity)) }
    requires src_len_bound { (length src.now ≤ capacity) × (p + length src.now ≤ ceiling) }
    ensures { Laid ring.old marks.old p src.now a edge (p + length src.now) ring.new marks.new }
{
    let end = p + src.len() as u64;
    let l = finding::run(marks, a, edge);
    store(ring, marks, p, src, l, edge);
    write(ring, p, src, edge);
    marks::put_all(marks, edge, end, true);
}

/// Every byte of src at low or above goes where it is missing: straight from high on, or where none of them has arrived; else byte by byte.
pub fn place(
    ring: &mut [u8; CAPACITY],
    marks: &mut [u8; CAPACITY],
    p: u64,
    src: &[u8],
    low: u64,
    high: u64,
)
    requires low_bound { (low ≤ p + length src.now) × (p + length src.now ≤ low + capacity) }
    requires src_len_bound { (length src.now ≤ capacity) × (p + length src.now ≤ ceiling) }
    ensures { Placed ring.old marks.old p src.now low high ring.new marks.new }
{
    let a = p.max(low);
    let edge = a.max(high).min(p + src.len() as u64);
    if finding::any(marks, a, edge) {
        lay(ring, marks, p, src, a, edge);
    } else {
        lay(ring, marks, p, src, a, a);
    }
}
