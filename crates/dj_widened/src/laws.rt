//! What stays true where other classes run beside those of a world.

ghost use Rattle.std.specs.Prelude.{◌≡◌, ◌≤◌, List, length, true, Some};
ghost use Rattle.dj_names.specs.declared.header.Header.{Header};
ghost use Rattle.dj_names.specs.Headers.{Name, IsSubclass, Implements};
ghost use Rattle.dj_names.specs.Types.{JType};
ghost use Rattle.dj_names.specs.Assignable.{IsSubtype};
ghost use Rattle.dj_kinds.specs.Choice.{Call};
ghost use Rattle.dj_meaning.specs.Members.{Members};
ghost use Rattle.dj_meaning.specs.Calls.{MethodIn, chosen};
ghost use Rattle.dj_meaning.specs.Fields.{selected, named_field};
ghost use Rattle.dj_typing.specs.Sites.{is_whole, is_whole_type};
ghost use Rattle.dj_loaded.specs.Loaded.{MayRun, HasCore};
ghost use Rattle.dj_widened.specs.Widens.{Widens};
ghost use Rattle.dj_widened.specs.Meant.{IsCallWhole};

/// What stands above a class in a world stands above it where other classes run, and a type goes where it went.
pub fn what_goes_up_stays_so()
    ensures subclass { (world headers : List Header) → Widens world headers → (lower upper : Name) → IsSubclass world lower upper → IsSubclass headers lower upper }
    ensures implements { (world headers : List Header) → Widens world headers → (lower upper : Name) → Implements world lower upper → Implements headers lower upper }
    ensures subtype { (world headers : List Header) → Widens world headers → (from to : JType) → IsSubtype world from to → IsSubtype headers from to }
{}

/// Where classes may run beside those of a world that has the core, they widen it.
pub fn what_may_run_widens()
    ensures widens { (world headers : List Header) → HasCore world → MayRun world headers → Widens world headers }
{}

/// From classes that a world has whole a name means the same member where other classes run: it selects the same field, and a call that means a method means it still.
pub fn the_same_members_are_meant()
    ensures selects { (world headers : List Header) → Widens world headers → (members : List Members) → length members ≤ length world
        → (from name : Name) (through : JType) → is_whole world from ≡ true → is_whole_type world through ≡ true
        → selected headers members from name through ≡ selected world members from name through }
    ensures field { (world headers : List Header) → Widens world headers → (members : List Members) → length members ≤ length world
        → (from class name : Name) → is_whole world from ≡ true → is_whole world class ≡ true
        → named_field headers members from class name ≡ named_field world members from class name }
    ensures method { (world headers : List Header) → Widens world headers → (members : List Members) → length members ≤ length world
        → (call : Call) → IsCallWhole world call → (one : MethodIn) → chosen world members call ≡ Some one → chosen headers members call ≡ Some one }
{}
