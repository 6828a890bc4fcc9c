// Numbers offered to the window of 01 section 4.
ghost use Rattle.std.specs.Prelude.{◌≡◌, ◌<◌, OnOk, OnErr};
ghost use Rattle.window.specs.Marks.{Accepts};

use super::Line;
use refusals::Refusal;
use window::WORDS;

/// The highest number accepted, and the marks.
#[derive(Clone, Copy)]
pub struct Window {
    pub high: u64,
    pub marks: [u64; WORDS],
}

impl Window {
    /// One that has accepted no number.
    pub fn new() -> Window
        ensures { result.high ≡ 0 }
    {
        Window {
            high: 0,
            marks: [0; WORDS],
        }
    }

    /// One number is offered: it is accepted or refused.
    pub fn offer(&mut self, p: u64) -> Result<(), Refusal>
        ensures accepted { OnOk result (Accepts self.old.high self.old.marks p self.new.high self.new.marks) }
        ensures refused { OnErr result (self.new ≡ self.old) }
    {
        window::verdict(self.high, &self.marks, p)?;
        self.high = window::accept(self.high, &mut self.marks, p);
        Ok(())
    }
}

/// 32 datagrams in each tick, all of which arrive a tick later but the first, which takes D ticks, 1 to 64: how far behind the highest it comes.
pub fn behind(line: Line<'_>) -> u64
    ensures { result < 65535 }
{
    (32 * line.size(b"D", 1, 64) as u64).saturating_sub(1)
}

/// Numbers 2 to behind + 1 have come, then 1: the verdict on it.
pub fn late(behind: u64) -> Result<(), Refusal>
    requires { behind < 65535 }
{
    let mut window = Window::new();
    for p in 2..behind + 2 {
        window.offer(p)?;
    }
    window.offer(1)
}
