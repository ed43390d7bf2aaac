//! Asking whether one tuple is an answer.
ghost use Rattle.std.specs.Prelude.{◌≡◌, [], IfOk};
ghost use Rattle.why_answers.specs.Asking.{put_term, put_tuple};

use queries::{Arg, Query};
use std::alloc::{AllocError, Global};
use vocabulary::{List, Term};

fn put_term(alloc: Global, query: Query, arg: &Arg, term: &Term) -> Result<Query, AllocError>
    ensures { IfOk result (λ q. q.atoms ≡ put_term arg.now term.now query.atoms) }
{
    match arg {
        Arg::Var(v) => {
            let by = Arg::Fixed(term.copy(alloc)?);
            query.substitute(alloc, *v, &by)
        }
        _ => Ok(query),
    }
}

fn put_tuple(alloc: Global, query: Query, head: &[Arg], tuple: &[Term]) -> Result<Query, AllocError>
    ensures { IfOk result (λ q. q.atoms ≡ put_tuple head.now tuple.now query.atoms) }
{
    match head {
        [] => Ok(query),
        [arg, head @ ..] => match tuple {
            [] => Ok(query),
            [term, tuple @ ..] => {
                let query = put_term(alloc, query, arg, term)?;
                put_tuple(alloc, query, head, tuple)
            }
        },
    }
}

/// Whether the tuple is an answer, as a query without a head: the terms of the tuple stand in the places
/// of the head's variables.
pub fn asked(alloc: Global, query: &Query, tuple: &[Term]) -> Result<Query, AllocError>
    ensures { IfOk result (λ q. q ≡ record { head = []; atoms = put_tuple query.now.head tuple.now query.now.atoms }) }
{
    let copy = query.copy(alloc)?;
    let Query { head: _, atoms } = put_tuple(alloc, copy, query.head.items(), tuple)?;
    Ok(Query {
        head: List::new(alloc),
        atoms,
    })
}
