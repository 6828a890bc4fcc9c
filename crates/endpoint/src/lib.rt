// An end on lent buffers: the six calls of 01 section 1. What is lent is a parameter each, as C has them.
#![tactic(auto)]

ghost use Rattle.std.specs.Prelude.{◌≡◌, ℕ, ◌<◌, IfOk};
ghost use Rattle.refusals.specs.Refusals.{row_of};
ghost use Rattle.endpoint.specs.Answer.{answer_of, value_of, taken_of, ended_or};
ghost use Rattle.endpoint.specs.Calls.{open_row, Opens, Gives, Finishes, Hears, Takes, Ticks};

use refusals::Refusal;
use ring::CAPACITY;
use table::{interval_row, ready, scalars_in, short_row};

// Refusals 10 and 11.
#[tactic(auto, using(laws::specs::RowsLaws::rows), unfolding(crate::specs::Calls::open_row))]
fn open_row(
    interval: u64,
    table: usize,
    outgoing: usize,
    incoming: usize,
    marks: usize,
) -> Result<(), Refusal>
    ensures { row_of result ≡ open_row interval table outgoing incoming marks }
{
    interval_row(interval)?;
    short_row(table, outgoing, incoming)?;
    if marks < CAPACITY {
        return Err(Refusal::Short);
    }
    Ok(())
}

/// open epoch, R: a fresh end. The table is written in every word that an end relies on, and the marks are cleared.
#[tactic(auto, using(crate::specs::OpeningLaws::open_table, crate::specs::OpeningLaws::open_marks))]
pub fn sluice_open(
    table: &mut [u64],
    outgoing: &[u8],
    incoming: &[u8],
    marks: &mut [u8],
    epoch: u64,
    interval: u64,
) -> Result<(), Refusal>
    ensures { Opens table.old outgoing.now incoming.now marks.old epoch interval (answer_of (row_of result) 0) table.new marks.new }
{
    open_row(
        interval,
        table.len(),
        outgoing.len(),
        incoming.len(),
        marks.len(),
    )?;
    stream::open_end(table, marks, epoch, interval);
    Ok(())
}

/// give bytes: takes as many of them, from the first on, as there is room for, and answers how many.
#[tactic(auto, using(table::specs::ReadyLaws::readied))]
pub fn sluice_give(table: &mut [u64], outgoing: &mut [u8], bytes: &[u8]) -> Result<u64, Refusal>
    ensures gives { Gives table.old outgoing.old bytes.now (answer_of (row_of result) (value_of result)) table.new outgoing.new }
    ensures small { IfOk result (λ n. n < 4294967296) }
{
    ready(table, outgoing.len(), CAPACITY)?;
    Ok(stream::give(table, outgoing, bytes))
}

/// finish: no more bytes will be given.
#[tactic(auto, using(table::specs::ReadyLaws::readied))]
pub fn sluice_finish(table: &mut [u64]) -> Result<(), Refusal>
    ensures { Finishes table.old (answer_of (row_of result) 0) table.new }
{
    ready(table, CAPACITY, CAPACITY)?;
    stream::finish(table);
    Ok(())
}

/// take: hands up as many of the bytes that are next as out has room for. Answers how many, and whether the END has been reached.
#[tactic(auto, using(table::specs::ReadyLaws::readied))]
pub fn sluice_take(
    table: &mut [u64],
    incoming: &[u8],
    out: &mut [u8],
) -> Result<(u64, bool), Refusal>
    ensures takes { (e : ℕ) → Takes table.old incoming.now out.old e (answer_of (row_of result) (taken_of result)) table.new out.new (ended_or e result) }
    ensures small { IfOk result (λ taken. taken.0 < 4294967296) }
{
    ready(table, incoming.len(), CAPACITY)?;
    let before = scalars_in(table);
    let after = stream::take(table, incoming, out);
    Ok((after.taken - before.taken, after.ended()))
}

/// datagram bytes: one datagram from the network, of any length.
#[tactic(auto, using(table::specs::ReadyLaws::readied, crate::specs::HeardLaws::hear_ready))]
pub fn sluice_datagram(
    table: &mut [u64],
    incoming: &mut [u8],
    marks: &mut [u8],
    bytes: &[u8],
) -> Result<(), Refusal>
    ensures { Hears table.old incoming.old marks.old bytes.now (answer_of (row_of result) 0) table.new incoming.new marks.new }
{
    ready(table, incoming.len(), marks.len())?;
    hearing::hear_row(table, bytes)?;
    hearing::hear(table, incoming, marks, bytes);
    Ok(())
}

/// tick: the clock moves on by one. Writes the datagrams to be sent now into out, one after the other, and answers their bytes in all.
#[tactic(auto, using(table::specs::ReadyLaws::readied))]
pub fn sluice_tick(table: &mut [u64], outgoing: &[u8], out: &mut [u8]) -> Result<u64, Refusal>
    ensures ticks { Ticks table.old outgoing.now out.old (answer_of (row_of result) (value_of result)) table.new out.new }
    ensures small { IfOk result (λ n. n < 4294967296) }
{
    ready(table, outgoing.len(), CAPACITY)?;
    ticking::output_row(out.len())?;
    Ok(ticking::tick_end(table, outgoing, out))
}
