//! The method that a call means (JLS 15.12.2).

ghost use Rattle.std.specs.Prelude.{map};
ghost use Rattle.std.specs.Option.{option_copied, option_map};
ghost use Rattle.dj_names.specs.Types.{view_type, view_static};
ghost use Rattle.dj_kinds.specs.Search.{FindsOne};
ghost use Rattle.dj_kinds.specs.Choice.{IsChosenIn};

use dj_kinds::choose;
use dj_names::{ClassName, JType, Member, StaticType, Units};
use dj_world::World;

/// The method that a call in the class `from` means, by its name and the types of its arguments: the most specific one of
/// those that apply, searched for in the type `receiver` and called through an expression of the type `through`, if there
/// is one. None where no method applies, or no single one is the most specific.
pub fn resolve_call(
    world: &World,
    from: &ClassName,
    receiver: &JType,
    through: Option<&JType>,
    name: &Units,
    arguments: &[StaticType],
) -> Option<Member>
    ensures chosen { FindsOne (IsChosenIn world.now.headers world.now.members from.now (view_type receiver.now) (option_map view_type (option_copied through.entry)) name.now (map view_static arguments.now)) result }
{
    choose(
        world.headers(),
        world.member_table(),
        from,
        receiver,
        through,
        name,
        arguments,
    )
}
