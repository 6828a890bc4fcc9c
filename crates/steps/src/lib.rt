// 01 section 6, steps 2, 3 and 4: segments sent again, cut and sent, and a PROBE, as datagrams.
#![tactic(auto)]

ghost use Rattle.segments.specs.Outcome.{Room, Resends, Cuts, Both};
ghost use Rattle.sending.specs.Outcome.{Sends};

use ring::CAPACITY;
use segments::{Added, Line, Row, SEGMENTS, Stamp, Tick, Wrote};
use sending::Sent;

/// What the steps of a tick go by. What is lent stays an argument: step 2 only reads the ends that step 3 writes, and step 3 has the rest of out. Room stays a `requires`: it speaks of out's length and the scalars too, and theorems stand on it.
#[derive(Clone, Copy)]
pub struct Step {
    pub tick: Tick,
    pub stamp: Stamp,
    pub line: Line,
    pub row: Row,
}

impl Step {
    // Step 2: sends again what is due, the oldest first.
    fn resend(
        self,
        out: &mut [u8],
        ring: &[u8; CAPACITY],
        ends: &[u64; SEGMENTS as usize],
        times: &mut [u64; SEGMENTS as usize],
    ) -> Wrote
        requires { Room self.tick self.stamp self.line self.row out.old ring.now ends.now times.old }
        ensures { Resends self.tick self.stamp self.line self.row ring.now ends.now times.old out.old result times.new out.new }
    {
        let e = self.stamp;
        let mut from = self.row.acked;
        let mut bytes: usize = 0;
        let mut count: u64 = 0;
        for i in 0..self.row.kept {
            if self.tick.allowed <= count {
                break;
            }
            let at = self.row.place(i);
            let to = ends[at];
            if self.tick.due(times[at], count) {
                let number = e.number + count + 1;
                let given = self.line.given;
                bytes += output::send_data(out, bytes, ring, e.epoch, number, given, from, to);
                times[at] = self.tick.now;
                count += 1;
            }
            from = to;
        }
        Wrote { bytes, count }
    }

    // Step 3: cuts and sends new segments.
    fn cut(
        self,
        out: &mut [u8],
        ring: &[u8; CAPACITY],
        ends: &mut [u64; SEGMENTS as usize],
        times: &mut [u64; SEGMENTS as usize],
    ) -> Added
        requires { Room self.tick self.stamp self.line self.row out.old ring.now ends.old times.old }
        ensures { Cuts self.tick self.stamp self.line self.row ring.now ends.old times.old out.old result ends.new times.new out.new }
    {
        let e = self.stamp;
        let mut next = self.row.next;
        let mut kept = self.row.kept;
        let mut bytes: usize = 0;
        for count in 0..self.tick.allowed {
            let to = self.line.cut_to(next);
            if SEGMENTS <= kept || to <= next {
                return Added {
                    bytes,
                    count,
                    next,
                    kept,
                };
            }
            let number = e.number + count + 1;
            let given = self.line.given;
            bytes += output::send_data(out, bytes, ring, e.epoch, number, given, next, to);
            let at = self.row.place(kept);
            ends[at] = to;
            times[at] = self.tick.now;
            next = to;
            kept += 1;
        }
        Added {
            bytes,
            count: self.tick.allowed,
            next,
            kept,
        }
    }

    // Steps 2 and 3.
    fn resend_cut(
        self,
        out: &mut [u8],
        ring: &[u8; CAPACITY],
        ends: &mut [u64; SEGMENTS as usize],
        times: &mut [u64; SEGMENTS as usize],
    ) -> Added
        requires { Room self.tick self.stamp self.line self.row out.old ring.now ends.old times.old }
        ensures { Both self.tick self.stamp self.line self.row ring.now ends.old times.old out.old result ends.new times.new out.new }
    {
        let r = self.resend(out, ring, ends, times);
        let rest = Step {
            tick: Tick {
                allowed: self.tick.allowed - r.count,
                ..self.tick
            },
            stamp: Stamp {
                number: self.stamp.number + r.count,
                ..self.stamp
            },
            ..self
        };
        let c = rest.cut(&mut out[r.bytes..], ring, ends, times);
        Added {
            bytes: r.bytes + c.bytes,
            count: r.count + c.count,
            ..c
        }
    }

    /// Steps 2, 3 and 4 of a tick: writes the datagrams one after the other into out. probed is the last PROBE, as the table has it.
    pub fn send(
        self,
        probed: u64,
        out: &mut [u8],
        ring: &[u8; CAPACITY],
        ends: &mut [u64; SEGMENTS as usize],
        times: &mut [u64; SEGMENTS as usize],
    ) -> Sent
        requires { Room self.tick self.stamp self.line self.row out.old ring.now ends.old times.old }
        ensures { Sends self.tick self.stamp self.line self.row probed ring.now ends.old times.old out.old result ends.new times.new out.new }
    {
        let c = self.resend_cut(out, ring, ends, times);
        let sent = Sent {
            bytes: c.bytes,
            count: c.count,
            next: c.next,
            kept: c.kept,
            probed,
        };
        if sending::probes(self.tick, self.line, probed, c.next, c.kept, c.count) {
            let number = self.stamp.number + c.count + 1;
            let m = output::send_probe(out, c.bytes, self.stamp.epoch, number, c.next);
            return Sent {
                bytes: c.bytes + m,
                count: c.count + 1,
                probed: self.tick.now + 1,
                ..sent
            };
        }
        sent
    }
}
