// 01 section 5: what the scalars of a receiving side tell: refusals 8 and 9, the ACK's position and credit, the END.
#![tactic(auto)]

ghost use Rattle.std.specs.Prelude.{◌≡◌, MatchOption};
ghost use Rattle.std.specs.Int.{from_bool};
ghost use Rattle.refusals.specs.Refusals.{row_of};
ghost use Rattle.receiving.specs.Receiving.{none, at, end_of, end_at, beyond_of, misplaced_of, Ranged, plausible_of};
ghost use Rattle.receiving.specs.Calls.{refusal, ended_by, position_by, credit_by};

use refusals::Refusal;
use ring::CAPACITY;
use wire::CEILING;

/// Bytes below taken are with the host. low is the lowest missing position, high one more than the highest that has arrived, or taken; all from tail up to high have arrived. end is the END's position where known is not 0.
#[derive(Clone, Copy, Default)]
pub struct Scalars {
    pub taken: u64,
    pub low: u64,
    pub tail: u64,
    pub high: u64,
    pub known: u64,
    pub end: u64,
}

// Ranged stays a `requires` and is no invariant of the type: a damaged table has other scalars, which `plausible` is asked about. A second type for those that are ranged is no plainer: `New`, `Fills` and `Takes` speak of Scalars before and after.
impl Scalars {
    /// Whether they may be an end's.
    #[tactic(auto, unfolding(crate::specs::Receiving::plausible_of))]
    pub fn plausible(self) -> bool
        ensures { result ≡ plausible_of self }
    {
        self.taken <= self.low
            && self.low <= self.tail
            && self.tail <= self.high
            && self.high <= CEILING
            && self.high <= self.taken + CAPACITY as u64
    }

    // The END's position, where it is known. The fields stay the table's two words (`end_of`, `scalars_of`): in a damaged table known may be any number.
    #[tactic(auto, using(crate::specs::ReadLaws::end_laws))]
    fn end(self) -> Option<u64>
        ensures { MatchOption result (end_of self.known self.end ≡ none) (λ k. end_of self.known self.end ≡ at k) }
    {
        (self.known != 0).then_some(self.end)
    }

    // Refuses n bytes from position p on of which one may not be kept.
    #[tactic(auto, using(crate::specs::RefusalLaws::beyond_laws))]
    fn beyond(self, p: u64, n: u64) -> Result<(), Refusal>
        requires { Ranged self }
        ensures { row_of result ≡ beyond_of self.taken p n }
    {
        let limit = CEILING.min(self.taken + CAPACITY as u64);
        if limit.saturating_sub(p) < n {
            return Err(Refusal::Credit);
        }
        Ok(())
    }

    // Refuses n bytes that end before q, with an END there where e is 1, where they contradict what is known.
    #[tactic(auto, using(crate::specs::RefusalLaws::misplaced_laws))]
    fn misplaced(self, q: u64, n: u64, e: u64) -> Result<(), Refusal>
        ensures { row_of result ≡ misplaced_of (end_of self.known self.end) self.high q n e }
    {
        let wrong = match self.end() {
            None => e == 1 && q < self.high,
            Some(end) => e == 1 && q != end || n != 0 && end < q,
        };
        if wrong {
            return Err(Refusal::End);
        }
        Ok(())
    }

    /// Judges a DATA of n bytes at position p. e is its flags as they came, of which 1 says END: all is said of any number. `refusal` has the three one by one.
    #[tactic(auto, using(crate::proofs::JudgeLaws::judge_laws))]
    pub fn judge(self, p: u64, n: u64, e: u64) -> Result<(), Refusal>
        requires { Ranged self }
        ensures { row_of result ≡ refusal self p n e }
    {
        self.beyond(p, n)?;
        self.misplaced(p + n, n, e)
    }

    // Whether the END is known to be at q.
    #[tactic(auto, unfolding(crate::specs::Receiving::end_at))]
    fn end_at(self, q: u64) -> bool
        ensures { from_bool result ≡ end_at (end_of self.known self.end) q }
    {
        self.end() == Some(q)
    }

    /// Whether every byte before the END has been taken.
    #[tactic(auto, unfolding(crate::specs::Calls::ended_by))]
    pub fn ended(self) -> bool
        ensures { from_bool result ≡ ended_by self }
    {
        self.end_at(self.taken)
    }

    /// The position of an ACK.
    #[tactic(auto, unfolding(crate::specs::Calls::position_by))]
    pub fn position(self) -> u64
        requires { Ranged self }
        ensures { result ≡ position_by self }
    {
        self.low + u64::from(self.end_at(self.low))
    }

    /// The credit of an ACK.
    #[tactic(auto, unfolding(crate::specs::Calls::credit_by))]
    pub fn credit(self) -> u64
        requires { Ranged self }
        ensures { result ≡ credit_by self }
    {
        let limit = self.taken + CAPACITY as u64;
        limit.saturating_sub(self.position())
    }
}
