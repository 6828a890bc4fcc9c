// The script of `vectors`: its lines, and the words and numbers of a line.
#![tactic(auto)]

ghost use Rattle.std.specs.Prelude.{◌≡◌, ◌-◌, ◌≤◌, ◌<◌, ◌++◌, length, take, drop, MatchOption, IsTrue};
ghost use Rattle.std.specs.Iterator.{at_most};

pub mod datagram;
pub mod numbers;
pub mod shown;

/// The pieces of a text, each with the byte that ends it. std's `split_inclusive` keeps what is left to itself, and `Line::after` needs what is left after a word.
#[derive(Clone, Copy)]
pub struct Pieces<'a> {
    pub rest: &'a [u8],
    end: u8,
}

impl<'a> Iterator for Pieces<'a> {
    type Item = &'a [u8];

    ghost next_gives = { λ s r t. MatchOption r ((length s.rest.now ≡ 0) × (t ≡ s)) (λ p. (0 < length p.now) × (s.rest.now ≡ p.now ++ t.rest.now)) };

    ghost remaining = { λ s. at_most (length s.rest.now) };

    fn next(&mut self) -> Option<&'a [u8]> {
        let rest = self.rest;
        if rest.is_empty() {
            return None;
        }
        let end = self.end;
        let size = match rest.iter().position(|b| *b == end) {
            Some(at) => at + 1,
            None => rest.len(),
        };
        let (piece, rest) = rest.split_at(size);
        self.rest = rest;
        Some(piece)
    }
}

/// The lines of a script, each with its newline.
pub fn lines(text: &[u8]) -> Pieces<'_>
    ensures { result.rest.now ≡ text.now }
{
    Pieces {
        rest: text,
        end: b'\n',
    }
}

// The letters of a word that are looked at: one more than the longest word of a script has, so that one that is longer still is none of them.
const LETTERS: usize = 9;

// A word's letters, but for those after the first `most`: it ends at the first byte that is none.
fn letters(word: &[u8], most: usize) -> &[u8]
    ensures { length result.now ≤ length word.now }
{
    let word = &word[..most.min(word.len())];
    match word.iter().position(|b| *b <= b' ') {
        Some(at) => &word[..at],
        None => word,
    }
}

/// The digits that a text begins with, as a number below 10^19.
pub fn decimal(text: &[u8]) -> u64
    ensures { result < 10000000000000000000 }
{
    let mut v: u64 = 0;
    for b in text {
        if !b.is_ascii_digit() || 1000000000000000000 <= v {
            return v;
        }
        v = v * 10 + u64::from(*b - b'0');
    }
    v
}

/// A line of a script, with its newline where it has one.
#[derive(Clone, Copy)]
pub struct Line<'a> {
    pub bytes: &'a [u8],
}

impl<'a> Line<'a> {
    /// The line without its newline.
    pub fn bare(self) -> &'a [u8]
        ensures short { length result.now ≤ length self.entry.bytes.now }
        ensures beginning { result.now ≡ take (length result.now) self.entry.bytes.now }
    {
        self.bytes.strip_suffix(b"\n").unwrap_or(self.bytes)
    }

    /// Its words, each with the space after it.
    pub fn words(self) -> Pieces<'a>
        ensures { result.rest.now ≡ self.entry.bytes.now }
    {
        Pieces {
            rest: self.bytes,
            end: b' ',
        }
    }

    /// Its first word; a long one is cut after nine letters, as no word of a script has more than eight.
    pub fn first(self) -> &'a [u8]
        ensures { length result.now ≤ length self.entry.bytes.now }
    {
        letters(self.bytes, LETTERS)
    }

    /// A comment, or an empty line, which is one too.
    pub fn is_comment(self) -> bool
        ensures { length self.entry.bytes.now ≡ 0 → IsTrue result }
    {
        self.bare().is_empty() || matches!(self.first(), b"#")
    }

    /// Its second word, cut in the same way, which is empty where there is none.
    pub fn second(self) -> &'a [u8] {
        let mut words = self.words();
        let _ = words.next();
        letters(words.rest, LETTERS)
    }

    /// What follows the word, which is nothing in a line without it: callers take the two alike.
    pub fn after(self, word: &[u8]) -> &'a [u8]
        ensures short { length result.now ≤ length self.entry.bytes.now }
        ensures end { result.now ≡ drop (length self.entry.bytes.now - length result.now) self.entry.bytes.now }
    {
        let mut words = self.words();
        match words.find(|w| letters(w, word.len() + 1) == word) {
            // Cut from the line where the rest begins: that the rest is a part of the line, the check does not see through `find`.
            Some(_) => &self.bytes[self.bytes.len() - words.rest.len()..],
            None => b"",
        }
    }

    /// The number after the word, or `other` in a line without it.
    pub fn number(self, word: &[u8], other: u64) -> u64 {
        match self.after(word) {
            [] => other,
            rest => decimal(rest),
        }
    }

    /// The same, and `most` where it is more.
    pub fn size(self, word: &[u8], other: usize, most: usize) -> usize
        ensures { result ≤ most }
    {
        (self.number(word, other as u64) as usize).min(most)
    }

    /// The byte after the word `of`. A line without it means zeros.
    pub fn letter(self) -> u8 {
        self.after(b"of").first().copied().unwrap_or(0)
    }
}

/// As many of a byte as `give` can name: a segment's worth more than a buffer has. An array, as there is no heap.
pub fn many(byte: u8) -> [u8; 66560]
    ensures { 66560 ≡ length result }
{
    [byte; 66560]
}
