// 01 section 5: nothing has arrived yet; and what has is handed up.
#![tactic(auto)]

ghost use Rattle.receiving.specs.Receiving.{Ranged};
ghost use Rattle.receiving.specs.Calls.{Starts, Takes};

use receiving::Scalars;
use ring::CAPACITY;

/// Nothing has arrived and nothing is taken: clears every mark.
pub fn start(marks: &mut [u8; CAPACITY]) -> Scalars
    ensures { Starts marks.old marks.new result }
{
    marks.fill(0);
    Scalars::default()
}

/// Hands up what is next in the stream, as much as out has room for.
pub fn take(ring: &[u8; CAPACITY], s: Scalars, out: &mut [u8]) -> Scalars
    requires { Ranged s }
    ensures { Takes ring.now s out.old out.new result }
{
    let n = (s.low - s.taken).min(out.len() as u64);
    ring::ring_get(&mut out[..n as usize], ring, s.taken);
    Scalars {
        taken: s.taken + n,
        ..s
    }
}
