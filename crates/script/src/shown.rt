// Bytes, as they are shown.
ghost use Rattle.std.specs.Prelude.{◌≡◌, ◌↔◌, IsTrue, EachIndex, slice_index, Some};
ghost use Rattle.std.specs.List.{flat_map};
ghost use Rattle.script.specs.Shown.{pair};

use std::fmt;

/// Each byte as two digits after a space.
#[derive(Clone, Copy)]
pub struct Hex<'a> {
    pub bytes: &'a [u8],
}

impl fmt::Display for Hex<'_> {
    ghost output = { λ h. Some (flat_map pair h.bytes.now) };

    fn fmt<W: fmt::Write>(&self, f: &mut fmt::Formatter<W>) -> fmt::Result {
        for &b in self.bytes {
            write!(f, " {b:02x}")?;
        }
        Ok(())
    }
}

/// Whether all bytes are b.
pub fn same(d: &[u8], b: u8) -> bool
    ensures { IsTrue result ↔ EachIndex d.now (λ k. slice_index d.now k ≡ b) }
{
    d.iter().all(|x| *x == b)
}
