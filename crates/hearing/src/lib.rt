// A datagram: judged read-only, and then heard.
#![tactic(auto)]

ghost use Rattle.std.specs.Prelude.{◌≡◌, ℕ, ◌+◌, ◌≤◌, ◌<◌, length, drop};
ghost use Rattle.refusals.specs.Refusals.{row_of};
ghost use Rattle.ring.specs.Ring.{capacity};
ghost use Rattle.wire.specs.Datagram.{head_size};
ghost use Rattle.wire.specs.Reading.{fields_of};
ghost use Rattle.window.specs.Window.{width};
ghost use Rattle.table.specs.Layout.{table_words, sections_of, common_of};
ghost use Rattle.table.specs.ReadyLaws.{Ready};
ghost use Rattle.hearing.specs.Hearing.{place_row, judge_row, hear_row, Noted, DataDone, AckDone, Heard};
ghost use Rattle.hearing.specs.Judged.{Judged, Hearing, HearReady};

use refusals::Refusal;
use ring::CAPACITY;
use sending::Line;
use table::{
    Common, ENDS, RECEIVES, SENDS, Sends, TIMES, WINDOW, common_in, save_common, save_scalars,
    save_sends, scalars_in, sends_in,
};
use wire::{Header, Kind};

// Refusals 7, 8 and 9.
#[tactic(auto, using(crate::proofs::HearingLaws::rows, table::specs::ReadyLaws::ready_ranged))]
fn place(t: &[u64], h: Header) -> Result<(), Refusal>
    requires { (table_words ≤ length t.now) × Ready (sections_of t.now) }
    ensures { row_of result ≡ place_row (sections_of t.now) h }
{
    match Kind::try_from(h.kind) {
        Ok(Kind::Data) => scalars_in(t).judge(h.position, h.length, h.flags),
        Ok(Kind::Ack) => sending::ack_refusal(sends_in(t).row.next, h.position),
        _ => Ok(()),
    }
}

// Refusals 3 to 9.
#[tactic(auto, using(crate::proofs::HearingLaws::rows), unfolding(table::specs::Layout::sections_of))]
fn judge(t: &[u64], h: Header) -> Result<(), Refusal>
    requires { (table_words ≤ length t.now) × Ready (sections_of t.now) }
    ensures { row_of result ≡ judge_row (sections_of t.now) h }
{
    let c = common_in(t);
    if h.epoch != c.epoch {
        return Err(Refusal::Epoch);
    }
    window::verdict(c.high, t[WINDOW..ENDS].as_array().unwrap(), h.number)?;
    place(t, h)
}

/// Refusals 1 to 9.
#[tactic(auto, using(crate::proofs::HearingLaws::rows, crate::proofs::HearingLaws::form_header))]
pub fn hear_row(t: &[u64], d: &[u8]) -> Result<(), Refusal>
    requires { (table_words ≤ length t.now) × Ready (sections_of t.now) }
    ensures { row_of result ≡ hear_row (sections_of t.now) d.now }
{
    form::form(d)?;
    judge(t, wire::fields(d))
}

// Marks the number of an accepted datagram. due is the table's word, as `Noted` has it.
fn note(t: &mut [u64], number: u64, due: u64)
    requires { (table_words ≤ length t.old) × ((0 < number) × ((common_of (sections_of t.old).common).high < number + width)) }
    ensures { Noted t.old number due t.new }
{
    let c = common_in(t);
    let (_, after) = t.split_at_mut(WINDOW);
    let high = window::accept(c.high, after.first_chunk_mut().unwrap(), number);
    save_common(&mut t[0..SENDS], Common { due, high, ..c });
}

// An accepted DATA. Its kind in the clause, as an ACK's below, is a number, as `place_row` has it.
fn data(t: &mut [u64], incoming: &mut [u8], marks: &mut [u8], d: &[u8], h: Header)
    requires hearing { Hearing t.old (length incoming.old) (length marks.old) d.now h }
    requires kind_value { h.kind ≡ 1 }
    ensures { DataDone t.old incoming.old marks.old d.now h t.new incoming.new marks.new }
{
    let s = scalars_in(t);
    let v = filling::hear(
        incoming.first_chunk_mut::<CAPACITY>().unwrap(),
        marks.first_chunk_mut::<CAPACITY>().unwrap(),
        s,
        h.position,
        &d[32..],
        h.flags,
    );
    note(t, h.number, 1);
    save_scalars(&mut t[RECEIVES..WINDOW], v);
}

// An accepted ACK.
fn ack(t: &mut [u64], h: Header)
    requires table_words_in_bounds { table_words ≤ length t.old }
    requires ready { Ready (sections_of t.old) }
    requires judged { Judged (sections_of t.old) h × (h.credit < 4294967296) }
    requires kind_value { h.kind ≡ 2 }
    ensures { AckDone t.old h t.new }
{
    let c = common_in(t);
    let Sends { line, row, probed } = sends_in(t);
    let row = sending::ack(t[ENDS..TIMES].as_array().unwrap(), row, h.position);
    let g = sending::grant(line.limit, probed, h.position + h.credit);
    note(t, h.number, c.due);
    save_sends(
        &mut t[SENDS..RECEIVES],
        Sends {
            line: Line {
                limit: g.limit,
                ..line
            },
            row,
            probed: g.probed,
        },
    );
}

/// An accepted datagram.
#[tactic(auto, using(crate::proofs::HearingLaws::heard))]
pub fn hear(t: &mut [u64], incoming: &mut [u8], marks: &mut [u8], d: &[u8])
    requires { HearReady t.old (length incoming.old) (length marks.old) d.now }
    ensures { Heard t.old incoming.old marks.old d.now (fields_of d.now) t.new incoming.new marks.new }
{
    let h = wire::fields(d);
    match Kind::try_from(h.kind) {
        Ok(Kind::Data) => data(t, incoming, marks, d, h),
        Ok(Kind::Ack) => ack(t, h),
        _ => note(t, h.number, 1),
    }
}
