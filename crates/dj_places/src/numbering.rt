//! How many places an expression takes, and places that are told.

ghost use Rattle.std.specs.Prelude.{◌≡◌, ◌+◌, option_map};
ghost use Rattle.dj_syntax.specs.Trees.{view_exp, view_exps};
ghost use Rattle.dj_syntax.specs.Weight.{weight_of_exp, weight_of_exps, weight_of_value};
ghost use Rattle.dj_places.specs.Places as spec;
ghost use Rattle.dj_places.specs.Places.{told};

use dj_syntax::Exp;

/// A place so much later, at most 4,294,967,295.
pub fn plus(place: u32, more: u32) -> u32
    ensures place { result ≡ told (place + more) }
{
    place.saturating_add(more)
}

/// The lower of two places, where there are two.
pub fn lower(first: Option<u32>, second: Option<u32>) -> Option<u32>
    ensures lower { result ≡ spec.lower first second }
{
    match (first, second) {
        (None, second) => second,
        (Some(first), None) => Some(first),
        (Some(first), Some(second)) => Some(first.min(second)),
    }
}

/// How many places an expression takes, at most 4,294,967,295.
#[cycle(places)]
pub fn places(exp: &Exp) -> u32
    ensures places { result ≡ told (weight_of_exp (view_exp exp.now)) }
{
    match exp {
        Exp::Int(_)
        | Exp::Long(_)
        | Exp::Text(_)
        | Exp::Bool(_)
        | Exp::Null
        | Exp::This
        | Exp::Var(_)
        | Exp::ClassOf(_)
        | Exp::Static(_, _) => 1,
        Exp::Field(operand, _)
        | Exp::Cast(_, operand)
        | Exp::InstanceOf(operand, _)
        | Exp::Negative(operand)
        | Exp::Not(operand)
        | Exp::Assign(_, operand) => plus(1, places(operand.get())),
        Exp::Element(first, second) | Exp::Binary(_, first, second) => {
            plus(1, plus(places(first.get()), places(second.get())))
        }
        Exp::Call(object, _, arguments) => {
            plus(
                1,
                plus(places(object.get()), all_places(arguments.get().as_slice())),
            )
        }
        Exp::StaticCall(_, _, list)
        | Exp::SuperCall(_, _, list)
        | Exp::New(_, list)
        | Exp::NewArray(_, list, _) => plus(1, all_places(list.get().as_slice())),
        Exp::Choice(test, first, second) => {
            let rest = plus(places(first.get()), places(second.get()));
            plus(1, plus(places(test.get()), rest))
        }
    }
}

/// How many places expressions take.
#[cycle(places)]
pub fn all_places(list: &[Exp]) -> u32
    ensures places { result ≡ told (weight_of_exps (view_exps list.now)) }
{
    let mut total = 0;
    for exp in list {
        total = plus(total, places(exp));
    }
    total
}

/// How many places an expression takes, where there is one.
pub fn option_places(exp: &Option<Exp>) -> u32
    ensures places { result ≡ told (weight_of_value (option_map view_exp exp.now)) }
{
    match exp {
        None => 0,
        Some(exp) => places(exp),
    }
}
