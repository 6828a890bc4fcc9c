// The host's side of an end on its table: open, whatever table and marks held; give, finish and take, of an end that is ready. A lent ring may be longer than CAPACITY, as a host lends it (`Opened`, `Gave`, `Took`): so its length is a clause and no type.
#![tactic(auto)]

ghost use Rattle.std.specs.Prelude.{◌≡◌, ℕ, ◌≤◌, length};
ghost use Rattle.ring.specs.Ring.{capacity};
ghost use Rattle.table.specs.Layout.{table_words, sections_of};
ghost use Rattle.table.specs.ReadyLaws.{Ready};
ghost use Rattle.stream.specs.Opening.{Saved, Opened};
ghost use Rattle.stream.specs.Streams.{Finished, Gave, Took};

use receiving::Scalars;
use ring::CAPACITY;
use sending::Line;
use table::{
    Common, RECEIVES, SENDS, Sends, WINDOW, save_common, save_scalars, save_sends, scalars_in,
    sends_in,
};

// Stores all three sections of scalars.
#[tactic(auto, using(crate::specs::OpeningLaws::saved))]
fn save_all(t: &mut [u64], c: Common, s: Sends, v: Scalars)
    requires { table_words ≤ length t.old }
    ensures { Saved t.old c s v t.new }
{
    save_common(&mut t[0..SENDS], c);
    save_sends(&mut t[SENDS..RECEIVES], s);
    save_scalars(&mut t[RECEIVES..WINDOW], v);
}

pub fn open_end(t: &mut [u64], marks: &mut [u8], epoch: u64, interval: u64)
    requires { (table_words ≤ length t.old) × (capacity ≤ length marks.old) }
    ensures { Opened t.old marks.old epoch interval t.new marks.new }
{
    let v = taking::start(marks.first_chunk_mut::<CAPACITY>().unwrap());
    let c = Common {
        opened: 1,
        epoch,
        interval,
        clock: 0,
        number: 0,
        due: 0,
        high: 0,
    };
    let s = Sends {
        line: sending::fresh_line(),
        row: sending::fresh_row(),
        probed: 0,
    };
    save_all(t, c, s, v);
}

pub fn finish(t: &mut [u64])
    requires { (table_words ≤ length t.old) × Ready (sections_of t.old) }
    ensures { Finished t.old t.new }
{
    let s = sends_in(t);
    let line = sending::finish(s.line);
    save_sends(&mut t[SENDS..RECEIVES], Sends { line, ..s });
}

pub fn give(t: &mut [u64], outgoing: &mut [u8], bytes: &[u8]) -> u64
    requires table_words_in_bounds { (table_words ≤ length t.old) × Ready (sections_of t.old) }
    requires capacity_in_bounds { capacity ≤ length outgoing.old }
    ensures { Gave t.old outgoing.old bytes.now result t.new outgoing.new }
{
    let s = sends_in(t);
    let ring = outgoing.first_chunk_mut::<CAPACITY>().unwrap();
    let n = sending::give(ring, s.line, s.row.acked, bytes);
    let line = Line {
        given: s.line.given + n,
        ..s.line
    };
    save_sends(&mut t[SENDS..RECEIVES], Sends { line, ..s });
    n
}

pub fn take(t: &mut [u64], incoming: &[u8], out: &mut [u8]) -> Scalars
    requires table_words_in_bounds { (table_words ≤ length t.old) × Ready (sections_of t.old) }
    requires capacity_in_bounds { capacity ≤ length incoming.now }
    ensures { Took t.old incoming.now out.old result t.new out.new }
{
    let s = scalars_in(t);
    let ring = incoming.first_chunk::<CAPACITY>().unwrap();
    let after = taking::take(ring, s, out);
    save_scalars(&mut t[RECEIVES..WINDOW], after);
    after
}
