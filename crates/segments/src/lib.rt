// 01 section 6, steps 2 and 3: a segment's place, whether it is due, and where the next one ends.
#![tactic(auto)]

ghost use Rattle.std.specs.Prelude.{◌≡◌, ◌+◌, ◌-◌, ◌%◌, ◌≤◌, ◌<◌, min};
ghost use Rattle.wire.specs.Datagram.{payload_most, ceiling};
ghost use Rattle.segments.specs.Segments.{segments_most};
ghost use Rattle.segments.specs.Steps.{due_of, cut_to};

use wire::PAYLOAD_MOST;

/// At most so many segments are kept. Where they end and when they were sent stand in two lent arrays, as the host's table has them.
pub const SEGMENTS: u64 = 64;

/// What a tick has to go by: the clock, R, and how many datagrams may leave.
#[derive(Clone, Copy)]
pub struct Tick {
    pub now: u64,
    pub every: u64,
    pub allowed: u64,
}

/// What every datagram has besides: the epoch, and the number that was used last.
#[derive(Clone, Copy)]
pub struct Stamp {
    pub epoch: u64,
    pub number: u64,
}

/// How far the stream may be cut. closed is the table's word, 1 after finish: `sending::plausible` judges any.
#[derive(Clone, Copy, Default)]
pub struct Line {
    pub given: u64,
    pub closed: u64,
    pub limit: u64,
}

/// The segments: where the oldest starts, where the next will, the oldest one's place in the tables, and how many are kept.
#[derive(Clone, Copy, Default)]
pub struct Row {
    pub acked: u64,
    pub next: u64,
    pub oldest: u64,
    pub kept: u64,
}

/// Bytes and datagrams written. This and what steps 3 and 4 answer are three types, since `Resends`, `Cuts` and `Sends` speak of three.
#[derive(Clone, Copy)]
pub struct Wrote {
    pub bytes: usize,
    pub count: u64,
}

/// Bytes and datagrams written; the next position, and the segments kept.
#[derive(Clone, Copy)]
pub struct Added {
    pub bytes: usize,
    pub count: u64,
    pub next: u64,
    pub kept: u64,
}

impl Row {
    /// The place in the tables of the segment after i older ones.
    pub fn place(self, i: u64) -> usize
        requires { (self.oldest < segments_most) × ((self.kept ≤ segments_most) × (i ≤ segments_most)) }
        ensures { result ≡ (self.oldest + i) % segments_most }
    {
        ((self.oldest + i) % SEGMENTS) as usize
    }
}

impl Tick {
    /// Whether a segment sent last in tick at is due, and allowed after n others.
    #[tactic(auto, unfolding(crate::specs::Steps::due_of))]
    pub fn due(self, at: u64, n: u64) -> bool
        ensures { result ≡ due_of self at n }
    {
        self.every <= self.now.saturating_sub(at) && n < self.allowed
    }
}

impl Line {
    // How many bytes a segment from a on would carry.
    fn new_bytes(self, a: u64) -> u64
        ensures { result ≡ min payload_most (min (self.given - a) (self.limit - a)) }
    {
        self.given
            .min(self.limit)
            .saturating_sub(a)
            .min(PAYLOAD_MOST)
    }

    /// Where a segment from a on would end.
    #[tactic(auto, unfolding(crate::specs::Steps::cut_to))]
    pub fn cut_to(self, a: u64) -> u64
        requires { self.given ≤ ceiling }
        ensures { result ≡ cut_to self a }
    {
        let to = a + self.new_bytes(a);
        if self.closed == 1 && to == self.given {
            to + 1
        } else {
            to
        }
    }
}
