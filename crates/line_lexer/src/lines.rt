//! The lines of a text.
ghost use Rattle.std.specs.Prelude.{◌≡◌, ◌<◌, ◌≤◌, ◌^◌, ◌-◌, ◌∷◌, [], length};
ghost use Rattle.std.specs.Str.Lines.{lines, strip_carriage_return};
ghost use Rattle.line_lexer.specs.Lines.{unmarked};

use std::marker::Model;

/// A line of a text, without its end. Lines count from 1.
#[derive(Clone, Copy, Debug)]
pub struct Line<'a> {
    pub number: u32,
    pub text: &'a str,
}

// A text without the byte order mark at its front.
fn unmarked(text: &str) -> &str
    ensures value { result.now ≡ unmarked text.now }
    ensures within { length result.now ≤ length text.now }
{
    match text.strip_prefix("\u{FEFF}") {
        Some(rest) => rest,
        None => text,
    }
}

// A line without the carriage return before its line feed.
#[tactic(auto, using(crate::proofs::Ends::carriage_boundary))]
fn uncarried(line: &str) -> &str
    ensures { result.now ≡ strip_carriage_return line.now }
{
    let n = line.len();
    if n > 0 && line.as_bytes()[n - 1] == b'\r' {
        let (front, _) = line.split_at(n - 1);
        front
    } else {
        line
    }
}

// The first line of a text, and what is left behind it.
#[tactic(auto, using(crate::proofs::Cuts::lines_cut, crate::proofs::Cuts::lines_whole))]
fn first_line(text: &str) -> (&str, &str)
    requires { 0 < length text.now }
    ensures first { lines text.now ≡ result.0.now ∷ lines result.1.now }
    ensures shorter { length result.1.now < length text.now }
{
    match text.split_once('\n') {
        Some((line, rest)) => (uncarried(line), rest),
        None => (text, ""),
    }
}

/// The lines of a text that are still to come. They end with LF or CRLF, and the last one may lack its end. A byte order
/// mark at the front is no part of the first line.
#[derive(Drop)]
pub struct Lines<'a> {
    rest: &'a str,
    number: u32,
}

impl<'a> Model for Lines<'a> {
    ghost use Rattle.std.specs.Prelude.{◌<◌, ◌+◌, ◌-◌, ◌^◌, length};
    ghost use Rattle.std.specs.Str.Lines.{lines};
    ghost use Rattle.line_lexer.specs.Left.{Left};

    ghost Value = { Left };

    ghost view = { λ l. record { number = l.number; lines = lines l.rest.now } };

    ghost invariant = { λ l. l.number + length l.rest.now < 2 ^ 32 - 1 };
}

impl<'a> Lines<'a> {
    ghost use Rattle.line_lexer.specs.Lines.{lines_of, IsNextLine};

    /// All lines of a text.
    pub fn new(text: &'a str) -> Self
        requires { length text.now < 2 ^ 32 - 1 }
        ensures { result ≡ record { number = 0; lines = lines_of text.now } }
    {
        Lines {
            rest: unmarked(text),
            number: 0,
        }
    }

    /// The next line, without its end. There is none behind the last one.
    pub fn next(&mut self) -> Option<Line<'a>>
        ensures { IsNextLine self.old.lines self.old self.new result }
    {
        if self.rest.is_empty() {
            return None;
        }
        let (text, rest) = first_line(self.rest);
        self.rest = rest;
        self.number += 1;
        Some(Line {
            number: self.number,
            text,
        })
    }
}
