//! The project text.
ghost use Rattle.std.specs.Prelude.{◌≡◌};
ghost use Rattle.big_project.specs.Files.{project_file};

/// The project text, which is the same for every size.
#[tactic(auto, unfolding(crate::specs::Files::project_file))]
pub fn project_text() -> &'static str
    ensures { result.now ≡ project_file }
{
    "onprom 1\ntable doc \"doc.csv\"\ncolumn doc id int\ncolumn doc made time\nkey doc (id)\ntable step \"step.csv\"\ncolumn step id int\ncolumn step doc int\ncolumn step done time\nkey step (id)\nclass Doc\nclass Step\nclass Actor\nassoc of Step * -> Doc 1\nassoc by Step 1..* -> Actor 1\nattr Doc made time 0..1\nattr Step done time 0..1\nmap docs from doc d then Doc(iri \"http://big.org/doc/{d.id}\"), made(iri \"http://big.org/doc/{d.id}\", d.made)\nmap steps from step s then of(iri \"http://big.org/step/{s.id}\", iri \"http://big.org/doc/{s.doc}\"), done(iri \"http://big.org/step/{s.id}\", s.done)\ncase c where Doc(c)\nevent create x where Doc(x)\ncases create (x, x) where Doc(x)\nset create \"concept:name\" mandatory is text \"create\"\nset create \"time:timestamp\" mandatory (x, t) where made(x, t)\nevent work x where Step(x), by(x, a), Actor(a)\ncases work (x, c) where of(x, c)\nset work \"concept:name\" mandatory is text \"work\"\nset work \"time:timestamp\" mandatory (x, t) where done(x, t)\nset work \"made\" single (x, t) where of(x, c), made(c, t)\n"
}
