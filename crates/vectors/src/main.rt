// Every worked example of the documents, computed: a script of at most 16,384 bytes, the file `stdin`, is played to two ends, near and far. `stdout` was written by hand from the documents.
#![tactic(auto)]

ghost use Rattle.std.specs.Prelude.{◌≤◌, length, IfOk};

mod alone;
mod ends;
mod play;
mod show;

use std::io::{self, Read};

// Reads until buf is full or the input ends. Answers how many bytes were read. std's `read_exact` fails where the input ends first, and its `read_to_end` wants a heap.
fn read_full<R: Read>(from: &mut R, buf: &mut [u8]) -> io::Result<usize>
    ensures { IfOk result (λ n. n ≤ length buf.new) }
{
    let mut done: usize = 0;
    while done < buf.len() {
        let n = from.read(&mut buf[done..])?;
        if n == 0 {
            return Ok(done);
        }
        done += n;
    }
    Ok(done)
}

fn main(rt: HostRuntime) -> io::Result<()> {
    let mut text = [0u8; 16384];
    let n = read_full(&mut rt.stdin(), &mut text)?;
    play::play(rt.stdout(), &text[..n])
}
