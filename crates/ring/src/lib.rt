// 01 section 1: bytes of a stream at their positions in a ring.
#![tactic(auto)]

ghost use Rattle.std.specs.Prelude.{◌≡◌, ◌-◌, ◌%◌, ◌≤◌, min, length};
ghost use Rattle.ring.specs.Ring.{capacity, Put, Got};

/// The bytes of a ring: the byte of position p stands at p % CAPACITY.
pub const CAPACITY: usize = 65536;

/// The index at which the byte of the position pos stands.
pub fn index(pos: u64) -> usize
    ensures { result ≡ pos % capacity }
{
    (pos % CAPACITY as u64) as usize
}

/// Of n bytes from index at on, those before the end of the ring. The others stand from index 0 on.
pub fn before_seam(at: usize, n: usize) -> usize
    requires { at ≤ capacity }
    ensures { result ≡ min n (capacity - at) }
{
    n.min(CAPACITY - at)
}

// All of src into dst. Never inlined: `copy_from_slice` brings a loop for slices that overlap, which none here do, and at each copy it took registers from the code around it.
#[inline(never)]
fn copy_all(dst: &mut [u8], src: &[u8])
    requires { length dst.old ≡ length src.now }
    ensures { dst.new ≡ src.now }
{
    dst.copy_from_slice(src);
}

// The same, and no call where there is nothing: most copies have no bytes beyond the seam.
fn copy(dst: &mut [u8], src: &[u8])
    requires { length dst.old ≡ length src.now }
    ensures { dst.new ≡ src.now }
{
    if !src.is_empty() {
        copy_all(dst, src);
    }
}

/// Writes src into the ring from the position pos on.
pub fn ring_put(ring: &mut [u8; CAPACITY], pos: u64, src: &[u8])
    requires src_len_bound { length src.now ≤ capacity }
    ensures { Put ring.old pos src.now ring.new }
{
    let at = index(pos);
    let (before, beyond) = src.split_at(before_seam(at, src.len()));
    copy(&mut ring[at..at + before.len()], before);
    copy(&mut ring[..beyond.len()], beyond);
}

/// Reads dst.len() bytes of the ring from the position pos on.
pub fn ring_get(dst: &mut [u8], ring: &[u8; CAPACITY], pos: u64)
    requires dst_len_bound { length dst.old ≤ capacity }
    ensures { Got ring.now pos (length dst.old) dst.new }
{
    let at = index(pos);
    let (before, beyond) = dst.split_at_mut(before_seam(at, dst.len()));
    copy(before, &ring[at..at + before.len()]);
    copy(beyond, &ring[..beyond.len()]);
}
