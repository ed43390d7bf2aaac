//! Bytes that are gathered in one array on their way to a sink.
ghost use Rattle.std.specs.Prelude.{◌≡◌, ◌↔◌, ◌<◌, ◌≤◌, ◌-◌, ◌++◌, [], ◌∷◌, Ok, false, IsTrue, length, min, take};
ghost use Rattle.xes_writer.specs.Gathered.{Puts};
ghost use Rattle.xes_writer.specs.Xes.{escaped, escaped_byte};

use outside::{Sink, Stop, fill, write_all};
use std::marker::Model;

/// Bytes that wait to be written, at most 4,096, and whether all writing before was done. After a
/// write that stopped nothing is written, and what is put is lost.
#[derive(Drop)]
pub(crate) struct Gather {
    array: [u8; 4096],
    len: usize,
    done: Result<(), Stop>,
}

impl Model for Gather {
    ghost use Rattle.std.specs.Prelude.{◌≤◌, take};
    ghost use Rattle.xes_writer.specs.Gathered.{Waiting};

    ghost Value = { Waiting };

    ghost view = { λ g. record { bytes = take g.len g.array; done = g.done } };

    ghost invariant = { λ g. g.len ≤ 4096 };
}

// Whether a byte has an escape.
fn has_escape(byte: u8) -> bool
    ensures { result ≡ false → escaped_byte byte ≡ byte ∷ [] }
{
    matches!(byte, b'&' | b'<' | b'"' | b'\t' | b'\n' | b'\r')
}

// How many bytes at the front stand for themselves.
#[tactic(auto, unfolding(crate::specs::Xes::escaped))]
fn plain_len(text: &[u8]) -> usize
    ensures within { result ≤ length text.now }
    ensures plain { escaped (take result text.now) ≡ take result text.now }
{
    for (at, byte) in text.iter().enumerate() {
        if has_escape(*byte) {
            return at;
        }
    }
    text.len()
}

impl Gather {
    pub fn new() -> Gather
        ensures { result ≡ record { bytes = []; done = Ok tt } }
    {
        Gather {
            array: [0; 4096],
            len: 0,
            done: Ok(()),
        }
    }

    /// Whether all that was put and does not wait is written.
    pub fn done(&self) -> Result<(), Stop>
        ensures { result ≡ self.now.done }
    {
        self.done
    }

    fn held(&self) -> &[u8]
        ensures { result.now ≡ self.now.bytes }
    {
        &self.array[..self.len]
    }

    /// Writes what waits.
    pub fn flush<O: Sink>(&mut self, out: &mut O)
        ensures empty { self.new.bytes ≡ [] }
        ensures put { Puts O.written O.wants O.failed O.faults out.old self.old out.new self.new [] }
    {
        match self.done {
            Ok(()) => {
                self.done = write_all(out, self.held());
                self.len = 0;
            }
            Err(_) => self.len = 0,
        }
    }

    fn make_room<O: Sink>(&mut self, out: &mut O)
        ensures room { length self.new.bytes < 4096 }
        ensures put { Puts O.written O.wants O.failed O.faults out.old self.old out.new self.new [] }
    {
        if self.len == 4096 {
            self.flush(out);
        }
    }

    // Takes as much of the text as there is room for, and answers how much.
    fn hold(&mut self, text: &[u8]) -> usize
        ensures count { result ≡ min (length text.now) (4096 - length self.old.bytes) }
        ensures bytes { self.new.bytes ≡ self.old.bytes ++ take result text.now }
        ensures done { self.new.done ≡ self.old.done }
    {
        let count = fill(&mut self.array, self.len, text);
        self.len += count;
        count
    }

    /// Puts a text behind what was put before.
    pub fn put<O: Sink>(&mut self, out: &mut O, text: &[u8])
        ensures { Puts O.written O.wants O.failed O.faults out.old self.old out.new self.new text.now }
    {
        let mut at = 0;
        while at < text.len() {
            self.make_room(out);
            at += self.hold(&text[at..]);
        }
    }

    fn put_byte<O: Sink>(&mut self, out: &mut O, byte: u8)
        ensures { Puts O.written O.wants O.failed O.faults out.old self.old out.new self.new (escaped_byte byte) }
    {
        match byte {
            b'&' => self.put(out, b"&amp;"),
            b'<' => self.put(out, b"&lt;"),
            b'"' => self.put(out, b"&quot;"),
            b'\t' => self.put(out, b"&#9;"),
            b'\n' => self.put(out, b"&#10;"),
            b'\r' => self.put(out, b"&#13;"),
            _ => self.put(out, &[byte]),
        }
    }

    // Puts the front of a text up to its first byte that has an escape, or that byte, and answers how
    // much that is.
    fn put_front<O: Sink>(&mut self, out: &mut O, text: &[u8]) -> usize
        requires { 0 < length text.now }
        ensures some { 0 < result }
        ensures within { result ≤ length text.now }
        ensures put { Puts O.written O.wants O.failed O.faults out.old self.old out.new self.new (escaped (take result text.now)) }
    {
        let plain = plain_len(text);
        if plain > 0 {
            self.put(out, &text[..plain]);
            plain
        } else {
            self.put_byte(out, text[0]);
            1
        }
    }

    /// Puts a text as it stands between double quotes.
    pub fn put_escaped<O: Sink>(&mut self, out: &mut O, text: &[u8])
        ensures { Puts O.written O.wants O.failed O.faults out.old self.old out.new self.new (escaped text.now) }
    {
        let mut at = 0;
        while at < text.len() {
            at += self.put_front(out, &text[at..]);
        }
    }
}
