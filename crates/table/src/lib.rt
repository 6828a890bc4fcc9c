// The table of an end: its sections, loaded into structs and stored; and refusals 10 to 12, which need no more than the table and lengths.
// That a table has its words, and that it is ready, are clauses here and above, and not a type: a host may lend a longer one, and a struct around a lent `&mut` would have to promise in each function that it still lends the same.
#![tactic(auto)]

ghost use Rattle.std.specs.Prelude.{◌≡◌, ℕ, ◌+◌, ◌≤◌, ◌<◌, length};
ghost use Rattle.refusals.specs.Refusals.{row_of};
ghost use Rattle.table.specs.Layout.{common_size, sends_size, receives_size, table_words, sections_of, common_of, common_words, sends_of, sends_words, scalars_of, scalars_words};
ghost use Rattle.table.specs.Rows.{interval_row, short_row, going_of, opened_of, ready_of};

use receiving::Scalars;
use refusals::Refusal;
use ring::CAPACITY;
use sending::{Line, Row};
use wire::CEILING;

/// Where each section of the table begins, after the common one; and the words in all.
pub const SENDS: usize = 7;

pub const RECEIVES: usize = 15;

pub const WINDOW: usize = 21;

pub const ENDS: usize = 37;

pub const TIMES: usize = 101;

pub const TABLE_WORDS: usize = 165;

const INTERVAL_MOST: u64 = 65535;

/// What belongs to neither side: whether the end was opened, R, the clock, the last number used, whether an ACK is due, and the highest number accepted. opened and due are the table's words as they are: a damaged table may have any, and `going` judges them.
#[derive(Clone, Copy)]
pub struct Common {
    pub opened: u64,
    pub epoch: u64,
    pub interval: u64,
    pub clock: u64,
    pub number: u64,
    pub due: u64,
    pub high: u64,
}

/// The sending side's scalars. probed is the table's word, as in `sending::Credit`.
#[derive(Clone, Copy)]
pub struct Sends {
    pub line: Line,
    pub row: Row,
    pub probed: u64,
}

// The three sections are loaded and stored by functions of their own: they differ in their fields. From would need arrays cut out of the table and put back, and can't stand here for Scalars, which is `receiving`'s.

#[tactic(auto, unfolding(crate::specs::Layout::sections_of, crate::specs::Layout::common_of))]
pub fn common_in(t: &[u64]) -> Common
    requires { table_words ≤ length t.now }
    ensures { result ≡ common_of (sections_of t.now).common }
{
    let w = &t[0..SENDS];
    Common {
        opened: w[0],
        epoch: w[1],
        interval: w[2],
        clock: w[3],
        number: w[4],
        due: w[5],
        high: w[6],
    }
}

#[tactic(auto, unfolding(crate::specs::Layout::sections_of, crate::specs::Layout::sends_of))]
pub fn sends_in(t: &[u64]) -> Sends
    requires { table_words ≤ length t.now }
    ensures { result ≡ sends_of (sections_of t.now).sends }
{
    let w = &t[SENDS..RECEIVES];
    Sends {
        line: Line {
            given: w[0],
            closed: w[1],
            limit: w[2],
        },
        row: Row {
            acked: w[3],
            next: w[4],
            oldest: w[5],
            kept: w[6],
        },
        probed: w[7],
    }
}

#[tactic(auto, unfolding(crate::specs::Layout::sections_of, crate::specs::Layout::scalars_of))]
pub fn scalars_in(t: &[u64]) -> Scalars
    requires { table_words ≤ length t.now }
    ensures { result ≡ scalars_of (sections_of t.now).receives }
{
    let w = &t[RECEIVES..WINDOW];
    Scalars {
        taken: w[0],
        low: w[1],
        tail: w[2],
        high: w[3],
        known: w[4],
        end: w[5],
    }
}

/// Stores the common section.
#[tactic(auto, unfolding(crate::specs::Layout::common_words))]
pub fn save_common(w: &mut [u64], c: Common)
    requires { length w.old ≡ common_size }
    ensures { w.new ≡ common_words c }
{
    w.copy_from_slice(&[
        c.opened, c.epoch, c.interval, c.clock, c.number, c.due, c.high,
    ]);
}

#[tactic(auto, unfolding(crate::specs::Layout::sends_words))]
pub fn save_sends(w: &mut [u64], s: Sends)
    requires { length w.old ≡ sends_size }
    ensures { w.new ≡ sends_words s }
{
    let Sends { line, row, probed } = s;
    w.copy_from_slice(&[
        line.given,
        line.closed,
        line.limit,
        row.acked,
        row.next,
        row.oldest,
        row.kept,
        probed,
    ]);
}

#[tactic(auto, unfolding(crate::specs::Layout::scalars_words))]
pub fn save_scalars(w: &mut [u64], s: Scalars)
    requires { length w.old ≡ receives_size }
    ensures { w.new ≡ scalars_words s }
{
    w.copy_from_slice(&[s.taken, s.low, s.tail, s.high, s.known, s.end]);
}

/// Refusal 10.
#[tactic(auto, using(laws::specs::RowsLaws::rows), unfolding(crate::specs::Rows::interval_row))]
pub fn interval_row(interval: u64) -> Result<(), Refusal>
    ensures { row_of result ≡ interval_row interval }
{
    if interval == 0 || INTERVAL_MOST < interval {
        return Err(Refusal::Interval);
    }
    Ok(())
}

#[tactic(auto, using(laws::specs::RowsLaws::tests), unfolding(crate::specs::Rows::going_of))]
fn going(c: Common) -> bool
    ensures { result ≡ going_of c }
{
    matches!(
        c,
        Common {
            opened: 1,
            interval: 1..=INTERVAL_MOST,
            clock: ..=CEILING,
            number: ..CEILING,
            due: ..=1,
            ..
        }
    )
}

// Whether the table's words are those of an opened end.
#[tactic(auto, using(crate::specs::ReadyLaws::opened_laws))]
fn opened(t: &[u64]) -> bool
    requires { table_words ≤ length t.now }
    ensures { result ≡ opened_of (sections_of t.now) }
{
    let Sends { line, row, .. } = sends_in(t);
    going(common_in(t)) && sending::plausible(line, row) && scalars_in(t).plausible()
}

/// Refusal 11, of a table and two buffers as long as this.
#[tactic(auto, using(laws::specs::RowsLaws::rows), unfolding(crate::specs::Rows::short_row))]
pub fn short_row(table: usize, a: usize, b: usize) -> Result<(), Refusal>
    ensures { row_of result ≡ short_row table a b }
{
    if table < TABLE_WORDS || a < CAPACITY || b < CAPACITY {
        return Err(Refusal::Short);
    }
    Ok(())
}

/// Refusals 11 and 12, of a table and two buffers as long as this: a call without the second one says CAPACITY for it, as `ready_of` has two.
#[tactic(auto, using(crate::specs::ReadyLaws::ready_laws))]
pub fn ready(t: &[u64], a: usize, b: usize) -> Result<(), Refusal>
    ensures { row_of result ≡ ready_of t.now a b }
{
    short_row(t.len(), a, b)?;
    if !opened(t) {
        return Err(Refusal::NotOpen);
    }
    Ok(())
}
