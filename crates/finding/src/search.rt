// The first byte that is not v, in blocks.

ghost use Rattle.std.specs.Prelude.{◌≡◌, ◌==◌, All, IsTrue};
ghost use Rattle.std.specs.List.{prefix_len};
ghost use Rattle.finding.specs.Search.{Other};

// The bytes of a block.
const BLOCK: usize = 64;

// Whether each byte of a block is v. All of them are looked at, sixteen at a time: a search that ends at the first other byte goes byte by byte, and takes ten times as long.
fn all_are(block: &[u8], v: u8) -> bool
    ensures { IsTrue result → All (λ x. x ≡ v) block.now }
{
    block.iter().fold(0, |z, x| z | (*x ^ v)) == 0
}

// How many bytes at the start of m are v, one by one.
fn run_of(m: &[u8], v: u8) -> usize
    ensures { result ≡ prefix_len (λ x. x == v) m.now }
{
    m.iter().take_while(|x| **x == v).count()
}

/// The index of the first byte of m that is not v, or m's length where there is none (`Other` says so).
pub fn first_other(m: &[u8], v: u8) -> usize
    ensures { Other m.now v 0 result }
{
    // Block by block off the front: of a chain over `chunks_exact` the check found no proof.
    let mut rest = m;
    while let Some((block, after)) = rest.split_first_chunk::<BLOCK>() {
        if !all_are(block, v) {
            break;
        }
        rest = after;
    }
    m.len() - rest.len() + run_of(rest, v)
}
