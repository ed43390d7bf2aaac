//! That the definitions mean what the format says, and that calls succeed where there is memory.
ghost use Rattle.std.specs.Prelude.{◌<◌, ◌^◌, ◌-◌, length};

use line_lexer::grammar::{any_number, any_quoted, any_word, ended, expect, name};
use line_lexer::{Counted, LineFault, Lines, Token, Tokens, tokens_of};
use std::alloc::{AllocError, Global};
use std::test::Fail;

// The spans of so many tokens, the place of a fault, and `end`.
fn spans(alloc: Global, line: &str, count: u32) -> Result<String, AllocError> {
    let mut text = String::new(alloc);
    let mut tokens = Tokens::new(line);
    for _ in 0..count {
        let next = match tokens.next() {
            Some(Ok(token)) => format!(in alloc; "{}-{} ", token.start, token.end)?,
            Some(Err(fault)) => format!(in alloc; "fault {} ", fault.place)?,
            None => String::from_str(alloc, "end ")?,
        };
        text.push_str(next.as_str())?;
    }
    Ok(text)
}

// So many lines with their numbers, and `end`.
fn numbered(alloc: Global, text: &str, count: u32) -> Result<String, AllocError>
    requires { length text.now < 2 ^ 32 - 1 }
{
    let mut shown = String::new(alloc);
    let mut lines = Lines::new(text);
    for _ in 0..count {
        let next = match lines.next() {
            Some(line) => format!(in alloc; "{}|{}|", line.number, line.text)?,
            None => String::from_str(alloc, "end")?,
        };
        shown.push_str(next.as_str())?;
    }
    Ok(shown)
}

#[test]
fn tokens_stand_at_their_spans(rt: HostRuntime) -> Result<(), Fail> {
    let text = spans(rt.alloc(), "\tkey t(a1) \"é # x\"..$ b # c", 9)?;
    assert!(rt; text.as_str() == "1-4 5-6 6-7 7-9 9-10 11-19 19-21 fault 21 end ");
    Ok(())
}

#[test]
fn lines_lose_their_ends(rt: HostRuntime) -> Result<(), Fail> {
    let text = "\u{FEFF}class A\r\n\r\nclass B\rC\n# d\nclass E\r";
    let shown = numbered(rt.alloc(), text, 6)?;
    assert!(rt; shown.as_str() == "1|class A|2||3|class B\rC|4|# d|5|class E\r|end");
    assert!(rt;
        numbered(rt.alloc(), "\u{FEFF}", 1)?.as_str() == "end",
        "a mark alone is no line"
    );
    Ok(())
}

// What `set E "KEY" NUMBER` says.
fn set_line<'a>(tokens: &[Token<'a>]) -> Option<(&'a str, &'a str, u64)> {
    let rest = expect("set", tokens)?;
    let (event, rest) = name(rest)?;
    let (key, rest) = any_quoted(rest)?;
    let (most, rest) = any_number(rest)?;
    if ended(rest) {
        Some((event, key, most))
    } else {
        None
    }
}

fn is_set(alloc: Global, line: &str, event: &str, key: &str, most: u64) -> Result<bool, LineFault> {
    match set_line(&tokens_of(alloc, line)?) {
        Some((e, k, m)) => Ok(e == event && k == key && m == most),
        None => Ok(false),
    }
}

fn is_no_set(alloc: Global, line: &str) -> Result<bool, LineFault> {
    Ok(set_line(&tokens_of(alloc, line)?).is_none())
}

fn is_word(alloc: Global, line: &str) -> Result<bool, LineFault> {
    match any_word(&tokens_of(alloc, line)?) {
        Some((word, _)) => Ok(word == line),
        None => Ok(false),
    }
}

#[test]
fn grammar_reads_from_the_front(rt: HostRuntime) -> Result<(), Fail> {
    let alloc = rt.alloc();
    let line = "set E \"time:timestamp\" 18446744073709551615 # many";
    assert!(rt; is_set(alloc, line, "E", "time:timestamp", 18446744073709551615)?);
    assert!(rt; is_word(alloc, "_")?);
    assert!(rt; tokens_of(alloc, "class \"A").is_err());
    Ok(())
}

const NO_SETS: &str = "set _ \"\" 1
set from \"\" 1
set \"\" 1
set E e 1
set E \"\" 18446744073709551616
set E \"\" 1 1
";

#[test]
fn grammar_reads_nothing_else(rt: HostRuntime) -> Result<(), Fail> {
    for line in NO_SETS.split('\n') {
        assert!(rt; is_no_set(rt.alloc(), line)?, "at {line}");
    }
    Ok(())
}

fn has_name_and_limit(counted: Counted, name: &str, limit: u64) -> bool {
    counted.name() == name && counted.limit() == limit
}

#[test]
fn names_are_printed_with_their_limits(rt: HostRuntime) {
    for (counted, name, limit) in [
        (Counted::TablesTogether, "tables together", 268435456),
        (Counted::TablesOfMapping, "tables of a mapping", 6),
        (Counted::EventKeys, "event keys", 64),
    ] {
        assert!(rt; has_name_and_limit(counted, name, limit), "{name}");
    }
    assert!(rt; LineFault::MixedSort.kind() == "MixedSort");
}
