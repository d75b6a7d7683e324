//! What the rules say of the bodies of straight methods.

ghost use Rattle.std.specs.Prelude.{◌≡◌, true, List};
ghost use Rattle.dj_names.specs.declared.header.Header.{Header};
ghost use Rattle.dj_names.specs.declared.members.ClassMembers.{ClassMembers};
ghost use Rattle.dj_syntax.specs.Trees.{Exp, Body};
ghost use Rattle.dj_class.specs.Described.{ClassOf, MethodOf};
ghost use Rattle.dj_sayable.specs.Saying.{CanBeSaid};
ghost use Rattle.dj_typing.specs.Sites.{is_whole};
ghost use Rattle.dj_typed.specs.Bodies.{IsTyped};
ghost use Rattle.dj_straight.specs.StraightMethod.{IsStraightMethod, IsBodyOf};

/// The body of a straight method is typed in a world that has its class whole, where the text of the class
/// can say its own name.
pub fn straight_methods_are_typed()
    ensures typed { (class : ClassOf) (before : List MethodOf) (method : MethodOf) (exp : Exp) (body : Body) (world : List Header) (members : List ClassMembers)
        → IsStraightMethod class before method exp → IsBodyOf class method exp body
        → is_whole world class.this_class ≡ true → CanBeSaid world members class.this_class class.this_class
        → IsTyped world members body }
{}
