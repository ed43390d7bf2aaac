//! Queries over links that many mappings give: of their atoms more row queries can be made than are made at once.
use crate::cases::repeated;
use crate::folds::{FRONT, is_answered};
use crate::models::shows;
use std::alloc::{AllocError, Global};
use std::test::Fail;

// Each mapping gives one link. Together they are a path from 1 to 9, and what stands at both ends of it.
const PATH: &str = "class A
class B
assoc p A * -> A *
attr A u text *
[map m% from t x where x.a = \"%\" then p(iri \"http://e/{x.a}\", iri \"http://e/{x.b}\")
][map n% from t x where x.a = \"%\" then u(iri \"http://e/{x.a}\", x.b)
]map o from t x where x.b is null then B(iri \"http://e/{x.a}\")
";

const ROWS: &str = "a,b\n1,2\n2,3\n3,4\n4,5\n5,6\n6,7\n7,8\n8,9\n9,\n";

// Four links of eight mappings each have 4,096 choices.
const OF_PATH: &str =
    "(v, z) where p(v, w), p(w, x), p(x, y), p(y, z) => <http://e/1> <http://e/5>; <http://e/2> <http://e/6>; <http://e/3> <http://e/7>; <http://e/4> <http://e/8>; <http://e/5> <http://e/9>
(v, y) where p(v, w), p(x, y), p(w, x), p(w, z) => <http://e/1> <http://e/4>; <http://e/2> <http://e/5>; <http://e/3> <http://e/6>; <http://e/4> <http://e/7>; <http://e/5> <http://e/8>; <http://e/6> <http://e/9>
(z) where p(v, w), p(w, x), p(x, y), p(y, z), B(z) => <http://e/9>
(v) where p(v, w), p(w, x), p(x, y), p(y, iri \"http://e/7\") => <http://e/3>
(v, n) where p(v, w), p(w, x), p(x, y), p(y, z), u(z, n) => <http://e/1> \"6\"; <http://e/2> \"7\"; <http://e/3> \"8\"; <http://e/4> \"9\"
(v) where p(v, w), p(w, x), p(x, y), p(y, z), u(z, n), u(v, m), p(k, v) => <http://e/2>; <http://e/3>; <http://e/4>
(x) where p(w, x), p(x, y), p(v, w), u(x, \"6\") => <http://e/5>
() where p(v, w), p(w, x), p(x, y), p(y, z) => ()
() where p(v, w), p(w, x), p(x, y), p(y, v) => none
(v) where p(v, v), p(v, w), p(w, x), p(x, y) => none
(v) where p(v, w), p(w, x), p(x, y), p(iri \"http://e/9\", z) => none
(w) where p(iri \"http://e/3\", w), p(iri \"http://e/7\", x), p(y, w), p(z, x) => <http://e/4>
() where p(v, w), p(x, y), u(y, n), u(w, n), B(z) => ()";

#[test]
fn links_of_many_mappings_are_joined(rt: HostRuntime) -> Result<(), Fail> {
    let model = repeated(rt.alloc(), PATH, &[8, 8])?;
    for case in OF_PATH.lines() {
        assert!(rt;
            is_answered(rt.alloc(), model.as_str(), ROWS, case)?,
            "{case}"
        );
    }
    Ok(())
}

const ASKED: &str = "query w (v, z) where p(v, w), p(w, x), p(x, y), p(y, z)\n";

const EXPLAINED: &str = "why p w 2
=> 0
atom 1
atom 2
atom 3
atom 4
end
--
why <http://e/2> <http://e/6>
~
why p w 6
=> 3
--
refused: answer 6: Unknown";

fn is_explained(alloc: Global, model: &str, case: &str) -> Result<bool, AllocError> {
    let project = format!(in alloc; "{FRONT}{model}{ASKED}")?;
    shows(alloc, &[("p", project.as_str()), ("t.csv", ROWS)], case)
}

#[test]
fn an_answer_over_many_mappings_is_explained(rt: HostRuntime) -> Result<(), Fail> {
    let model = repeated(rt.alloc(), PATH, &[8, 8])?;
    for case in EXPLAINED.split("\n~\n") {
        assert!(rt; is_explained(rt.alloc(), model.as_str(), case)?, "{case}");
    }
    Ok(())
}
