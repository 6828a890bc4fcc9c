// 01 section 3: why a call is refused.
#![tactic(auto)]

ghost use Rattle.std.specs.Prelude.{◌≡◌, ◌++◌, Some, codes};
ghost use Rattle.std.specs.Fmt.{decimal};
ghost use Rattle.refusals.specs.Refusals.{number_of};

use std::fmt;

/// The refusals in the order of document 01, which begins at 1.
#[derive(Clone, Copy, Debug, PartialEq, Eq, PartialOrd, Ord)]
pub enum Refusal {
    /// A datagram shorter than 32 bytes, or not as long as its length field says.
    Length = 1,
    /// An unknown kind, or a flag or field that is not allowed.
    Form,
    /// A datagram of another epoch.
    Epoch,
    /// A datagram with number 0.
    NumberZero,
    /// A number 1,024 or more behind the highest accepted.
    TooOld,
    /// A number taken before.
    Taken,
    /// An ACK for a position that was never sent.
    NeverSent,
    /// DATA beyond the credit that was granted, or at 2^62 or above.
    Credit,
    /// DATA at odds with the END, or an END at odds with what has arrived.
    End,
    /// An open with an interval of 0 or above 65,535.
    Interval,
    /// A lent buffer or table that is too short.
    Short,
    /// A table that is not one of an open end.
    NotOpen,
    /// A tick with an output buffer below 33,792 bytes.
    Output,
}

// Its number in document 01.
impl From<Refusal> for u64 {
    ghost from_gives = { λ refusal number. number ≡ number_of refusal };

    fn from(refusal: Refusal) -> u64 {
        refusal as u64
    }
}

impl fmt::Display for Refusal {
    ghost output = { λ refusal. Some (codes "refused with " ++ decimal (number_of refusal)) };

    fn fmt<W: fmt::Write>(&self, f: &mut fmt::Formatter<W>) -> fmt::Result {
        write!(f, "refused with {}", u64::from(*self))
    }
}
