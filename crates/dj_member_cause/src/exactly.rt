//! Which method a call means whose arguments are just a method's parameters. One class above after another is looked at, not each method of the name.

ghost use Rattle.std.specs.Prelude.{◌≡◌, map};
ghost use Rattle.std.specs.Option.{option_map, option_copied};
ghost use Rattle.dj_names.specs.Types.{view_type, view_types, view_static};
ghost use Rattle.dj_kinds.specs.Search.{FindsOne};
ghost use Rattle.dj_meant.specs.Meant.{exact};
ghost use Rattle.dj_static.specs.Targets.{view_chosen};
ghost use Rattle.dj_world.specs.Clashes.{IsLawful};
ghost use Rattle.dj_member_cause.specs.Deciding.{MeansExactly};

use dj_kinds::{Asked, find_overload, is_candidate, searched_class};
use dj_names::{JType, StaticType, Units};
use dj_static::{ChosenMethod, Classes, method_of};

/// The method that a call means, where it has just these parameters.
pub fn chosen_exactly<'a>(
    classes: &'a Classes<'a>,
    receiver: &'a JType,
    through: Option<&'a JType>,
    name: &'a Units,
    parameters: &'a [JType],
    types: &'a [StaticType],
) -> Option<ChosenMethod<'a>>
    requires lawful { IsLawful classes.now.headers.now }
    requires exact { map view_static types.now ≡ exact (view_types parameters.now) }
    ensures chosen { FindsOne (MeansExactly classes.now (view_type receiver.now) (option_map view_type (option_copied through.entry)) name.now (view_types parameters.now)) (option_map view_chosen result) }
{
    let Some(class) = searched_class(classes.headers, receiver) else {
        return None;
    };
    let Some(member) = find_overload(classes.headers, classes.members, class, name, parameters)
    else {
        return None;
    };
    let asked = Asked {
        headers: classes.headers,
        members: classes.members,
        from: classes.from,
        class,
        through,
        name,
        arguments: types,
    };
    if is_candidate(&asked, member) {
        method_of(classes.headers.as_slice(), classes.members, member)
    } else {
        None
    }
}
