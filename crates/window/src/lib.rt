// Numbers, taken at most once: 01 section 4. A window is h, the highest number accepted, and 16 words of marks.
#![tactic(auto)]

ghost use Rattle.std.specs.Prelude.{◌≡◌, ℕ, ◌+◌, ◌-◌, ◌≤◌, ◌<◌, not, eqb};
ghost use Rattle.std.specs.Int.{from_bool};
ghost use Rattle.refusals.specs.Refusals.{row_of};
ghost use Rattle.window.specs.Window.{width, verdict_of};
ghost use Rattle.window.specs.Marks.{mark, window_of, Put, Accepts};

use refusals::Refusal;

pub const WIDTH: u64 = 1024;

/// The words of its marks.
pub const WORDS: usize = 16;

// Whether q has its mark.
fn marked(m: &[u64; WORDS], q: u64) -> bool
    ensures { result ≡ not (eqb (mark m.now q) 0) }
{
    let i = (q / 64) as usize % WORDS;
    m[i] >> (q % 64) & 1 != 0
}

// Sets the mark of q, or clears it where v is false. Not `marks::put`: the definitions speak of words here (`window_of`), and of bytes there (`mark`).
#[tactic(auto, using(crate::proofs::Marks::put_one, crate::proofs::Marks::put_zero))]
fn put(m: &mut [u64; WORDS], q: u64, v: bool)
    ensures { Put m.old q (from_bool v) m.new }
{
    let i = (q / 64) as usize % WORDS;
    let bit: u64 = 1 << (q % 64);
    if v {
        m[i] = m[i] | bit;
    } else {
        m[i] = (m[i] | bit) ^ bit;
    }
}

/// What becomes of the number p: refused with 4, 5 or 6, or new. h and the marks are two parameters: they stand in two sections of the table, which is lent `&` here and `&mut` to `accept`.
#[tactic(auto, using(crate::proofs::MarksLaws::verdicts))]
pub fn verdict(h: u64, m: &[u64; WORDS], p: u64) -> Result<(), Refusal>
    ensures { row_of result ≡ verdict_of (window_of h m.now) p }
{
    if p == 0 {
        return Err(Refusal::NumberZero);
    }
    if h < p {
        return Ok(());
    }
    if WIDTH <= h - p {
        return Err(Refusal::TooOld);
    }
    if marked(m, p) {
        return Err(Refusal::Taken);
    }
    Ok(())
}

/// Marks p, clears the marks of the numbers that are passed, and answers the highest number.
pub fn accept(h: u64, m: &mut [u64; WORDS], p: u64) -> u64
    requires { (0 < p) × (h < p + width) }
    ensures { Accepts h m.old p result m.new }
{
    if p <= h {
        put(m, p, true);
        return h;
    }
    let first = (h + 1).max(p.saturating_sub(WIDTH));
    for q in first..p {
        put(m, q, false);
    }
    put(m, p, true);
    p
}
