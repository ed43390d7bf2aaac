//! The answers of the queries of annotations.
ghost use Rattle.std.specs.Prelude.{◌≡◌, ◌↔◌, IsTrue};
ghost use Rattle.log_assembly.specs.Answered.{InOrder, IsEventInOrder, IsInOrder};

use certain_answers::Answers;
use queries::compare_tuples;
use vocabulary::List;

/// The answers of the queries of annotations. Without a query of the cases' names, `names` is empty.
#[derive(Debug, Drop)]
pub struct Asked {
    pub cases: Answers,
    pub names: Answers,
    pub events: List<AskedEvent>,
}

/// The answers of the queries of an event annotation. `keys` has a list for each key, which is empty
/// for a constant, since that asks nothing.
#[derive(Debug, Drop)]
pub struct AskedEvent {
    pub objects: Answers,
    pub cases: Answers,
    pub keys: List<Answers>,
}

impl Asked {
    /// Whether each list of answers is in order, as the answers of queries always are.
    pub fn is_in_order(&self) -> bool
        ensures { IsTrue result ↔ IsInOrder self.now }
    {
        let events = self.events.items();
        is_in_order(&self.cases)
            && is_in_order(&self.names)
            && events.iter().all(|event| event.is_in_order())
    }
}

impl AskedEvent {
    fn is_in_order(&self) -> bool
        ensures { IsTrue result ↔ IsEventInOrder self.now }
    {
        let keys = self.keys.items();
        is_in_order(&self.objects)
            && is_in_order(&self.cases)
            && keys.iter().all(|answers| is_in_order(answers))
    }
}

fn is_in_order(answers: &Answers) -> bool
    ensures { IsTrue result ↔ InOrder answers.now }
{
    let tuples = answers.tuples();
    tuples.is_sorted_by(|a, b| compare_tuples(a.items(), b.items()).is_lt())
}
