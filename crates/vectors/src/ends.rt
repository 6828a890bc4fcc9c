// Lines for one end: the calls of 01 section 1 on its buffers, and what they answer.
ghost use Rattle.std.specs.Prelude.{◌≤◌};

use super::show;
use refusals::Refusal;
use ring::CAPACITY;
use script::Line;
use script::datagram::{Datagram, Datagrams};
use std::io::{self, Print, Stdout};
use table::TABLE_WORDS;
use ticking::OUTPUT_LEAST;

/// What a host lends to the calls of one end.
#[derive(Clone, Copy)]
pub struct End {
    table: [u64; TABLE_WORDS],
    outgoing: [u8; CAPACITY],
    incoming: [u8; CAPACITY],
    marks: [u8; CAPACITY],
}

/// An output buffer, an array as there is no heap. A tick sends its first bytes, `sent` of them the last one. No ghost field bounds `sent`: the check has no rule for lending a part of the array of a struct that has one.
#[derive(Clone, Copy)]
pub struct Output {
    bytes: [u8; OUTPUT_LEAST],
    sent: usize,
}

impl Output {
    pub fn new() -> Output {
        Output {
            bytes: [0; OUTPUT_LEAST],
            sent: 0,
        }
    }

    // What the last tick has sent.
    fn sent(&self) -> Datagrams<'_> {
        Datagrams {
            rest: &self.bytes[..self.sent.min(OUTPUT_LEAST)],
        }
    }
}

impl End {
    /// An end that was never opened: zeros.
    pub fn new() -> End {
        End {
            table: [0; TABLE_WORDS],
            outgoing: [0; CAPACITY],
            incoming: [0; CAPACITY],
            marks: [0; CAPACITY],
        }
    }

    // open epoch E R I, with a table of `words W`.
    fn open(&mut self, to: Stdout, line: Line<'_>) -> io::Result<()> {
        let epoch = line.number(b"epoch", 7);
        let interval = line.number(b"R", 0);
        let words = line.size(b"words", TABLE_WORDS, TABLE_WORDS);
        // A slice first: the check has no rule for a part of an array lent beside other fields.
        let table: &mut [u64] = &mut self.table;
        show::answer(
            to,
            endpoint::sluice_open(
                &mut table[..words],
                &self.outgoing,
                &self.incoming,
                &mut self.marks,
                epoch,
                interval,
            )
            .map(|()| 0),
        )
    }

    // give line: what is left of the line, with its newline; and give N of a byte.
    fn give(&mut self, to: Stdout, line: Line<'_>) -> io::Result<()> {
        match line.after(b"line") {
            [] => self.give_many(to, line),
            rest => self.give_bytes(to, rest),
        }
    }

    // A function of its own: its array is filled where it begins, and in `give` it would be cleared for each line first.
    fn give_many(&mut self, to: Stdout, line: Line<'_>) -> io::Result<()> {
        let given = script::many(line.letter());
        let n = line.size(b"give", 0, given.len());
        self.give_bytes(to, &given[..n])
    }

    fn give_bytes(&mut self, to: Stdout, bytes: &[u8]) -> io::Result<()> {
        show::answer(
            to,
            endpoint::sluice_give(&mut self.table, &mut self.outgoing, bytes),
        )
    }

    fn finish(&mut self, to: Stdout) -> io::Result<()> {
        show::answer(to, endpoint::sluice_finish(&mut self.table).map(|()| 0))
    }

    fn hear(&mut self, to: Stdout, datagram: &[u8]) -> io::Result<()> {
        show::answer(
            to,
            endpoint::sluice_datagram(
                &mut self.table,
                &mut self.incoming,
                &mut self.marks,
                datagram,
            )
            .map(|()| 0),
        )
    }

    // hear: the datagram of the line. A function of its own, as `give_many` is.
    fn hear_one(&mut self, to: Stdout, line: Line<'_>) -> io::Result<()> {
        let datagram = Datagram::new(line);
        self.hear(to, datagram.as_slice())
    }

    // take N.
    fn take(&mut self, to: Stdout, line: Line<'_>) -> io::Result<()> {
        let mut room = [0u8; CAPACITY];
        let n = line.size(b"take", 0, CAPACITY);
        let taken = endpoint::sluice_take(&mut self.table, &self.incoming, &mut room[..n]);
        show::taken(to, taken, &room)
    }

    // A tick into the first bytes of the output.
    fn tick(&mut self, output: &mut Output, room: usize) -> Result<u64, Refusal>
        requires { room ≤ 33792 }
    {
        let ticked = endpoint::sluice_tick(
            &mut self.table,
            &self.outgoing,
            &mut output.bytes[..room],
        );
        output.sent = match ticked {
            Ok(sent) => sent as usize,
            Err(_) => 0,
        };
        ticked
    }

    // ticks N: how many datagrams each sends.
    fn ticks(&mut self, to: Stdout, line: Line<'_>, output: &mut Output) -> io::Result<()> {
        output.sent = 0;
        for _ in 0..line.size(b"ticks", 0, 1000) {
            let _ = self.tick(output, OUTPUT_LEAST);
            let sent = output.sent().count();
            print!(to; " {sent}")?;
        }
        Ok(())
    }
}

/// Any line for an end.
pub fn line(to: Stdout, line: Line<'_>, end: &mut End, output: &mut Output) -> io::Result<()> {
    match line.second() {
        b"open" => end.open(to, line),
        b"give" => end.give(to, line),
        b"finish" => end.finish(to),
        b"hear" => end.hear_one(to, line),
        b"hears" => {
            for datagram in output.sent() {
                end.hear(to, datagram)?;
            }
            Ok(())
        }
        b"take" => end.take(to, line),
        b"tick" => {
            let room = line.size(b"room", OUTPUT_LEAST, OUTPUT_LEAST);
            show::answer(to, end.tick(output, room))?;
            show::datagrams(to, output.sent())
        }
        b"ticks" => end.ticks(to, line, output),
        _ => to.write_all(b" what?"),
    }
}
