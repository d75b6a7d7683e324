//! What holds of straight methods and their bodies.

ghost use Rattle.std.specs.Prelude.{List};
ghost use Rattle.dj_names.specs.declared.header.Header.{Header};
ghost use Rattle.dj_names.specs.declared.members.ClassMembers.{ClassMembers};
ghost use Rattle.dj_syntax.specs.Trees.{Exp, Body};
ghost use Rattle.dj_class.specs.Described.{ClassOf, MethodOf};
ghost use Rattle.dj_bytecode.specs.SameShows.{SameShows};
ghost use Rattle.dj_straight.specs.StraightMethod.{IsStraightMethod, IsBodyOf};

/// The body that returns the expression of a straight method shows what the method's code shows,
/// in both directions at every bound, whatever classes may run, for all arguments that fit and all answers.
pub fn straight_methods_show()
    ensures same { (class : ClassOf) (before : List MethodOf) (method : MethodOf) (exp : Exp) (body : Body) (world : List Header) (members : List ClassMembers)
        → (straight : IsStraightMethod class before method exp) → IsBodyOf class method exp body
        → SameShows world members straight.code body }
{}
