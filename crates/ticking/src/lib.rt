// tick: what leaves now, one datagram after the other.
#![tactic(auto)]

ghost use Rattle.std.specs.Prelude.{◌≡◌, ℕ, ◌+◌, ◌-◌, ◌*◌, ◌≤◌, ◌<◌, min, length};
ghost use Rattle.refusals.specs.Refusals.{row_of};
ghost use Rattle.ring.specs.Ring.{capacity};
ghost use Rattle.wire.specs.Datagram.{head_size, ceiling, ACK, encode};
ghost use Rattle.sending.specs.Sending.{datagrams_most};
ghost use Rattle.sending.specs.Outcome.{datagram_most};
ghost use Rattle.table.specs.Layout.{table_words, sections_of, common_of};
ghost use Rattle.table.specs.Rows.{output_least, output_row};
ghost use Rattle.table.specs.ReadyLaws.{Ready};
ghost use Rattle.ticking.specs.Ticking.{clock_by, allowance_by, acks_by, AckSent, SegmentsSent, SendReady, Planned, AckReady, AckOver, TickReady, Ticked};

use refusals::Refusal;
use ring::CAPACITY;
use sending::{Row, Sent, Stamp, Tick};
use steps::Step;
use table::{
    Common, RECEIVES, SENDS, Sends, TIMES, common_in, save_common, save_sends, scalars_in, sends_in,
};
use wire::{CEILING, Header, Kind};

// At most so many datagrams leave in a tick.
const DATAGRAMS: u64 = 32;

/// 32 datagrams of 1,056 bytes.
pub const OUTPUT_LEAST: usize = 33792;

/// Refusal 13.
#[tactic(auto, using(crate::specs::TickingLaws::output_short, crate::specs::TickingLaws::output_fine))]
pub fn output_row(n: usize) -> Result<(), Refusal>
    ensures { row_of result ≡ output_row n }
{
    if n < OUTPUT_LEAST {
        return Err(Refusal::Output);
    }
    Ok(())
}

// The clock moves on by one, and stops at 2^62.
fn clock_after(clock: u64) -> u64
    ensures { result ≡ clock_by clock }
{
    clock.saturating_add(1).min(CEILING)
}

// How many datagrams may leave.
#[tactic(auto, unfolding(crate::specs::Ticking::allowance_by))]
fn allowance(now: u64, next: u64, number: u64) -> u64
    requires { number < ceiling }
    ensures { result ≡ allowance_by now next number }
{
    if now < CEILING && next < CEILING {
        DATAGRAMS.min(CEILING - 1 - number)
    } else {
        0
    }
}

// How many ACKs leave: one, if it is due and allowed. A number and no bool, here and in Plan: it is added and subtracted, and `Planned` and `AckOver` have it so.
#[tactic(auto, unfolding(crate::specs::Ticking::acks_by))]
fn acks(due: u64, allowed: u64) -> u64
    ensures { result ≡ acks_by due allowed }
{
    u64::from(due == 1 && 0 < allowed)
}

/// What a tick has to go by.
#[derive(Clone, Copy)]
pub struct Plan {
    pub now: u64,
    pub allowed: u64,
    pub acks: u64,
}

#[tactic(auto, using(crate::specs::TickingLaws::number_loaded, crate::specs::TickingLaws::planned))]
fn plan_of(t: &[u64]) -> Plan
    requires { (table_words ≤ length t.now) × Ready (sections_of t.now) }
    ensures { Planned (sections_of t.now) result }
{
    let c = common_in(t);
    let now = clock_after(c.clock);
    let allowed = allowance(now, sends_in(t).row.next, c.number);
    Plan {
        now,
        allowed,
        acks: acks(c.due, allowed),
    }
}

// The ACK, in all of out.
#[tactic(auto, using(table::specs::ReadyLaws::ready_ranged, crate::specs::TickingLaws::ack_sent))]
fn write_ack(out: &mut [u8], t: &[u64], epoch: u64, number: u64)
    requires table_words_in_bounds { (table_words ≤ length t.now) × Ready (sections_of t.now) }
    requires out_len { length out.old ≡ head_size }
    ensures { AckSent t.now epoch number out.new }
{
    let v = scalars_in(t);
    writing::write(
        out,
        Header {
            kind: u64::from(Kind::Ack),
            flags: 0,
            length: 0,
            epoch,
            number,
            position: v.position(),
            credit: v.credit(),
        },
    );
}

// Steps 2 to 4, into all of out.
fn send_segments(t: &mut [u64], outgoing: &[u8], out: &mut [u8], tick: Tick, stamp: Stamp) -> Sent
    requires { SendReady tick stamp t.old (length outgoing.now) (length out.old) }
    ensures { SegmentsSent tick stamp t.old outgoing.now out.old result t.new out.new }
{
    let Sends { line, row, probed } = sends_in(t);
    let (front, times) = t.split_at_mut(TIMES);
    let step = Step {
        tick,
        stamp,
        line,
        row,
    };
    let sent = step.send(
        probed,
        out,
        outgoing.first_chunk::<CAPACITY>().unwrap(),
        front.last_chunk_mut().unwrap(),
        times.first_chunk_mut().unwrap(),
    );
    save_sends(
        &mut t[SENDS..RECEIVES],
        Sends {
            line,
            row: Row {
                next: sent.next,
                kept: sent.kept,
                ..row
            },
            probed: sent.probed,
        },
    );
    sent
}

// Step 1: a ACKs, none or one, at the start of out. Answers the bytes written.
fn ack_first(out: &mut [u8], t: &[u64], c: Common, a: u64) -> usize
    requires { AckReady t.now c a (length out.old) }
    ensures { AckOver (sections_of t.now) c a out.old result out.new }
{
    if a == 0 {
        return 0;
    }
    write_ack(&mut out[0..32], t, c.epoch, c.number + 1);
    32
}

/// All four steps. Answers the bytes written.
pub fn tick_end(t: &mut [u64], outgoing: &[u8], out: &mut [u8]) -> u64
    requires { TickReady t.old (length outgoing.now) (length out.old) }
    ensures { Ticked t.old outgoing.now out.old result t.new out.new }
{
    let c = common_in(t);
    let p = plan_of(t);
    let from = ack_first(out, t, c, p.acks);
    let w = Tick {
        now: p.now,
        every: c.interval,
        allowed: p.allowed - p.acks,
    };
    let e = Stamp {
        epoch: c.epoch,
        number: c.number + p.acks,
    };
    let sent = send_segments(t, outgoing, &mut out[from..], w, e);
    save_common(
        &mut t[0..SENDS],
        Common {
            clock: p.now,
            number: c.number + p.acks + sent.count,
            due: c.due - p.acks,
            ..c
        },
    );
    (from + sent.bytes) as u64
}
