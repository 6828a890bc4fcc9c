// The six calls, exported for C under their names (include/sluicestream.h): each is `endpoint`'s, with its answer as C reads it, a value or minus the number of a refusal.
#![tactic(auto)]

ghost use Rattle.std.specs.Prelude.{◌≡◌, ◌<◌, IfOk};
ghost use Rattle.refusals.specs.Refusals.{number_of, row_of};
ghost use Rattle.endpoint.specs.Answer.{answer_of, value_of};
ghost use Rattle.endpoint.specs.Calls.{Opens, Gives, Finishes, Hears, Takes, Ticks};

use refusals::Refusal;

fn minus(refusal: Refusal) -> i64
    ensures { result ≡ answer_of (number_of refusal) 0 }
{
    -(u64::from(refusal) as i64)
}

fn done(answer: Result<(), Refusal>) -> i64
    ensures { result ≡ answer_of (row_of answer) 0 }
{
    match answer {
        Ok(()) => 0,
        Err(refusal) => minus(refusal),
    }
}

fn value(answer: Result<u64, Refusal>) -> i64
    requires { IfOk answer (λ n. n < 4294967296) }
    ensures { result ≡ answer_of (row_of answer) (value_of answer) }
{
    match answer {
        Ok(n) => n as i64,
        Err(refusal) => minus(refusal),
    }
}

/// open epoch, R: a fresh end. The table is written in every word that an end relies on, and the marks are cleared.
#[unsafe(no_mangle)]
pub extern "C" fn sluice_open(
    table: &mut [u64],
    outgoing: &[u8],
    incoming: &[u8],
    marks: &mut [u8],
    epoch: u64,
    interval: u64,
) -> i64
    ensures { Opens table.old outgoing.now incoming.now marks.old epoch interval result table.new marks.new }
{
    done(endpoint::sluice_open(table, outgoing, incoming, marks, epoch, interval))
}

/// give bytes: takes as many of them, from the first on, as there is room for, and answers how many.
#[unsafe(no_mangle)]
pub extern "C" fn sluice_give(table: &mut [u64], outgoing: &mut [u8], bytes: &[u8]) -> i64
    ensures { Gives table.old outgoing.old bytes.now result table.new outgoing.new }
{
    value(endpoint::sluice_give(table, outgoing, bytes))
}

/// finish: no more bytes will be given.
#[unsafe(no_mangle)]
pub extern "C" fn sluice_finish(table: &mut [u64]) -> i64
    ensures { Finishes table.old result table.new }
{
    done(endpoint::sluice_finish(table))
}

/// take: hands up as many of the bytes that are next as out has room for, and answers how many; *ended is 1 where the END has been reached.
#[unsafe(no_mangle)]
pub extern "C" fn sluice_take(
    table: &mut [u64],
    incoming: &[u8],
    out: &mut [u8],
    ended: &mut u8,
) -> i64
    ensures { Takes table.old incoming.now out.old ended.old result table.new out.new ended.new }
{
    match endpoint::sluice_take(table, incoming, out) {
        Ok((bytes, reached)) => {
            *ended = u8::from(reached);
            bytes as i64
        }
        Err(refusal) => minus(refusal),
    }
}

/// datagram bytes: one datagram from the network, of any length. Answers 0, or minus the number of its refusal.
#[unsafe(no_mangle)]
pub extern "C" fn sluice_datagram(
    table: &mut [u64],
    incoming: &mut [u8],
    marks: &mut [u8],
    bytes: &[u8],
) -> i64
    ensures { Hears table.old incoming.old marks.old bytes.now result table.new incoming.new marks.new }
{
    done(endpoint::sluice_datagram(table, incoming, marks, bytes))
}

/// tick: the clock moves on by one. Writes the datagrams to be sent now into out, one after the other, and answers their bytes in all.
#[unsafe(no_mangle)]
pub extern "C" fn sluice_tick(table: &mut [u64], outgoing: &[u8], out: &mut [u8]) -> i64
    ensures { Ticks table.old outgoing.now out.old result table.new out.new }
{
    value(endpoint::sluice_tick(table, outgoing, out))
}
