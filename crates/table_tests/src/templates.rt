//! Templates against their faults, their texts and their unifiers.
use iri_templates::{HoleCells, Meet, Part, Segment, Template, Unifier, unify};
use std::alloc::{AllocError, Global};
use std::test::Fail;
use vocabulary::{List, Name};

// A text and its first fault, or the number of its holes.
const TEXTS: &str = "/p/{x}/{y} => Ok(2)
/%2f/{x y} => Ok(1)
 => Err(Empty)
/{a}b% => Err(BadChar(5))
/{a{b} => Err(Unclosed(1))
/{a}/%2F{b} => Err(NotBounded(1))";

// A template, its cells behind bars, and its text over them.
const FILLED: &str = "http://e/{a}|a/b => http://e/a%2Fb
http://e/{a}|a%2Fb => http://e/a%252Fb
http://e/{a}|ü => http://e/%C3%BC
http://e/{a}|x y => http://e/x%20y
http://e/{a}| => none
/p/{x}/{y}|1|a b => /p/1/a%20b";

// Two templates, and when they give one text: holes of either count from 0.
const UNIFIED: &str = "/paper/{id} /paper/7 => first 0 7;
/paper/{id} /paper/%2F => first 0 /;
/paper/{id} /paper/%37 => never
/paper/{id} /paper/ => never
/paper/{id} /paper/%c3%bc => never
/paper/{id} /paper/%C3 => never
/paper/{id} /paper/%01 => never
/paper/{id} /paper => never
/a/{x} /{y}/b => second 0 a;first 0 b;
/a/{x} /a/{y} => same 0 0;
/a /a => ";

// Texts, and what fills the holes of `/p/{x}/{y}` in them.
const MATCHED: &str = "/p/1/a%20b => 1;a b;
/p/1 => none
/p/1/%c3%bc => none
/p//2 => none";

/// Cells that lie side by side.
#[derive(Drop)]
struct Row {
    cells: Vec<Option<Name>>,
}

impl HoleCells for Row {
    ghost cells = { λ row. row.cells.items };

    fn hole(&self, i: u32) -> Option<&str> {
        match self.cells.get(i as usize)? {
            Some(name) => Some(name.text()),
            None => None,
        }
    }
}

// Null where the text is empty.
fn cell_of(alloc: Global, text: &str) -> Result<Option<Name>, AllocError> {
    if text.is_empty() {
        Ok(None)
    } else {
        Ok(Some(Name::new(alloc, text)?))
    }
}

fn row_of(alloc: Global, cells: &str) -> Result<Row, AllocError> {
    let mut row = Row {
        cells: Vec::new(alloc),
    };
    for text in cells.split('|') {
        row.cells.push(cell_of(alloc, text)?)?;
    }
    Ok(row)
}

fn is_filled(
    alloc: Global,
    template: &Template,
    row: &Row,
    want: &str,
) -> Result<bool, AllocError> {
    if row.cells.len() != template.holes() as usize {
        return Ok(false);
    }
    match template.fill(alloc, row)? {
        Some(text) => Ok(text.text() == want),
        None => Ok(want == "none"),
    }
}

// Parts of a case that stand between bars and before an arrow.
fn parts(case: &str) -> Option<(&str, &str, &str)> {
    let (front, want) = case.split_once(" => ")?;
    let (template, cells) = front.split_once('|')?;
    Some((template, cells, want))
}

fn is_filled_case(alloc: Global, case: &str) -> Result<bool, Fail> {
    match parts(case) {
        Some((text, cells, want)) => {
            let template = Template::parse(alloc, text)?;
            let row = row_of(alloc, cells)?;
            Ok(is_filled(alloc, &template, &row, want)?)
        }
        None => Ok(false),
    }
}

fn is_read(alloc: Global, case: &str) -> Result<bool, AllocError> {
    match case.split_once(" => ") {
        Some((text, want)) => {
            let holes = match Template::parse(alloc, text) {
                Ok(template) => Ok(template.holes()),
                Err(fault) => Err(fault),
            };
            Ok(format!(in alloc; "{holes:?}")?.as_str() == want)
        }
        None => Ok(false),
    }
}

fn spell_meet(alloc: Global, meet: &Meet) -> Result<String, AllocError> {
    match meet {
        Meet::Same(i, j) => format!(in alloc; "same {i} {j};"),
        Meet::First(i, text) => format!(in alloc; "first {i} {};", text.text()),
        Meet::Second(j, text) => format!(in alloc; "second {j} {};", text.text()),
    }
}

fn spell_unifier(alloc: Global, unifier: &Unifier) -> Result<String, AllocError> {
    let mut text = String::new(alloc);
    match unifier {
        Unifier::Never => text.push_str("never")?,
        Unifier::When(meets) => {
            for meet in meets.items() {
                text.push_str(spell_meet(alloc, meet)?.as_str())?;
            }
        }
    }
    Ok(text)
}

fn is_unified(alloc: Global, a: &Template, b: &Template, want: &str) -> Result<bool, AllocError> {
    let unifier = unify(alloc, a, b)?;
    Ok(spell_unifier(alloc, &unifier)?.as_str() == want)
}

fn is_unified_case(alloc: Global, case: &str) -> Result<bool, Fail> {
    match case.split_once(" => ") {
        Some((both, want)) => match both.split_once(' ') {
            Some((a, b)) => {
                let a = Template::parse(alloc, a)?;
                let b = Template::parse(alloc, b)?;
                Ok(is_unified(alloc, &a, &b, want)?)
            }
            None => Ok(false),
        },
        None => Ok(false),
    }
}

fn spell_texts(alloc: Global, texts: &Option<List<Name>>) -> Result<String, AllocError> {
    let mut spelled = String::new(alloc);
    match texts {
        None => spelled.push_str("none")?,
        Some(list) => {
            for name in list.items() {
                spelled.push_str(name.text())?;
                spelled.push(';')?;
            }
        }
    }
    Ok(spelled)
}

fn is_matched(alloc: Global, template: &Template, case: &str) -> Result<bool, AllocError> {
    match case.split_once(" => ") {
        Some((text, want)) => {
            let texts = template.match_text(alloc, text)?;
            Ok(spell_texts(alloc, &texts)?.as_str() == want)
        }
        None => Ok(false),
    }
}

fn has_two_holes(alloc: Global, template: &Template) -> Result<bool, AllocError> {
    let holes = template.hole_texts(alloc)?;
    Ok(holes.len() == 2 && holes[0] == "x" && holes[1] == "y")
}

fn is_hole(segment: &Segment, want: &str) -> bool {
    match segment {
        Segment::Hole(text) => text.text() == want,
        Segment::Literal(_) => false,
    }
}

fn is_part(part: &Part) -> bool {
    part.sign == b'/' && is_hole(&part.segment, "p.id")
}

fn part(alloc: Global) -> Result<Part, AllocError> {
    Ok(Part {
        sign: b'/',
        segment: Segment::Hole(Name::new(alloc, "p.id")?),
    })
}

fn is_part_copied(alloc: Global) -> Result<bool, AllocError> {
    Ok(is_part(&part(alloc)?.copy(alloc)?))
}

#[test]
fn texts_are_templates_or_have_a_first_fault(rt: HostRuntime) -> Result<(), Fail> {
    for case in TEXTS.split('\n') {
        assert!(rt; is_read(rt.alloc(), case)?, "{case}");
    }
    Ok(())
}

#[test]
fn holes_are_filled_with_escaped_texts(rt: HostRuntime) -> Result<(), Fail> {
    for case in FILLED.split('\n') {
        assert!(rt; is_filled_case(rt.alloc(), case)?, "{case}");
    }
    Ok(())
}

#[test]
fn templates_are_unified_exactly(rt: HostRuntime) -> Result<(), Fail> {
    for case in UNIFIED.split('\n') {
        assert!(rt; is_unified_case(rt.alloc(), case)?, "{case}");
    }
    Ok(())
}

fn are_matched(alloc: Global, template: &Template, cases: &str) -> Result<bool, AllocError> {
    for case in cases.split('\n') {
        if !is_matched(alloc, template, case)? {
            return Ok(false);
        }
    }
    Ok(true)
}

#[test]
fn the_filling_is_read_back_from_a_text(rt: HostRuntime) -> Result<(), Fail> {
    let template = Template::parse(rt.alloc(), "/p/{x}/{y}")?;
    assert!(rt; has_two_holes(rt.alloc(), &template)?);
    assert!(rt; are_matched(rt.alloc(), &template, MATCHED)?);
    Ok(())
}

fn copies_are_filled(alloc: Global) -> Result<bool, Fail> {
    let template = Template::parse(alloc, "/p/{x}/{y}")?.copy(alloc)?;
    let row = row_of(alloc, "1|a b")?;
    Ok(is_filled(alloc, &template, &row, "/p/1/a%20b")?)
}

#[test]
fn copies_are_the_same(rt: HostRuntime) -> Result<(), Fail> {
    assert!(rt; is_part_copied(rt.alloc())?);
    assert!(rt; copies_are_filled(rt.alloc())?);
    Ok(())
}
