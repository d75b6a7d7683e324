//! What a call lists whose arguments are just a method's parameters (JLS 11.2.1). The first method of these parameters is looked at, not each method of the name.

ghost use Rattle.std.specs.Prelude.{◌≡◌, IfSome, IsTrue, map};
ghost use Rattle.std.specs.List.{Contains};
ghost use Rattle.std.specs.Option.{option_map, option_copied};
ghost use Rattle.dj_names.specs.Headers.{names};
ghost use Rattle.dj_names.specs.Types.{view_type, view_types, view_static, Class, Of};
ghost use Rattle.dj_names.specs.declared.members.MethodHead.{MethodHead};
ghost use Rattle.dj_kinds.specs.Choice.{IsMethodAt};
ghost use Rattle.dj_static.specs.Targets.{meant_in};
ghost use Rattle.dj_thrown.specs.Listed.{listed_by};
ghost use Rattle.dj_thrown.specs.Settings.{setting_of};
ghost use Rattle.dj_world.specs.Clashes.{IsLawful};

use dj_headers::Headers;
use dj_kinds::{Asked, MemberTable, find_overload, is_candidate};
use dj_names::{ClassName, JType, Member, StaticType, Units, is_constructor};
use dj_static::Classes;

/// What the throws clause of a method lists.
fn clause_of(members: &MemberTable, member: Member) -> &[ClassName]
    ensures clause { (method : MethodHead) → IsMethodAt members.now member method → result.now ≡ method.thrown }
{
    match members.at(member.class as usize) {
        None => &[],
        Some(declared) => match declared.methods.get(member.number as usize) {
            None => &[],
            Some(method) => method.thrown.as_slice(),
        },
    }
}

/// Whether a class has no header.
fn is_unknown(headers: &Headers, class: &ClassName) -> bool
    ensures unknown { IsTrue result → ¬ Contains (names headers.now) class.now }
{
    headers.place(class).is_none()
}

/// What the method lists that a call of a class means, where it is the first of just the parameters that are the arguments; nothing,
/// where it would be a constructor of a class without a header. None is told of other calls.
pub fn listed_exactly<'a>(
    classes: &Classes<'a>,
    class: &ClassName,
    through: Option<&JType>,
    name: &Units,
    parameters: &[JType],
    arguments: &[StaticType],
) -> Option<&'a [ClassName]>
    requires lawful { IsLawful classes.now.headers.now }
    requires exact { map view_static arguments.now ≡ map Of (view_types parameters.now) }
    ensures listed { IfSome result (λ listed. listed.now ≡ listed_by (setting_of classes.now)
        (meant_in classes.now.headers.now classes.now.members.now classes.now.from.now (Class class.now) (option_map view_type (option_copied through.entry)) name.now (map view_static arguments.now))) }
{
    let Some(member) = find_overload(classes.headers, classes.members, class, name, parameters)
    else {
        if is_constructor(name) && is_unknown(classes.headers, class) {
            return Some(&[]);
        }
        return None;
    };
    let asked = Asked {
        headers: classes.headers,
        members: classes.members,
        from: classes.from,
        class,
        through,
        name,
        arguments,
    };
    if is_candidate(&asked, member) {
        Some(clause_of(classes.members, member))
    } else {
        None
    }
}
