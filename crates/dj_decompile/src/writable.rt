//! Whether a body can be written.

ghost use Rattle.std.specs.Prelude.{◌≡◌, ◌↔◌, Bool, IsTrue};
ghost use Rattle.dj_syntax.specs.Trees.{view_body, view_stms};
ghost use Rattle.dj_syntax.specs.WellFormed.{AreWellFormedStms, HasMethodName, IsInitialiser};
ghost use Rattle.dj_decompiled.specs.Decompiled.{IsWritable, text_of};

use dj_names::is_identifier;
use dj_syntax::{Body, Stm, is_constructor, is_initialiser};
use dj_well_formed::{
    are_qualified, are_well_formed_stms, has_no_result, is_method_descriptor,
    takes_and_gives_nothing,
};

/// Whether a body has the head of a static initialiser, its name aside.
fn is_initialiser_head(body: &Body) -> bool
    ensures initialiser { IsTrue result ↔ IsInitialiser (text_of (view_body body.now)) }
{
    takes_and_gives_nothing(&body.descriptor) && body.thrown.is_empty()
}

/// Whether a body's name is one of a method with its head.
fn has_method_name(body: &Body) -> bool
    ensures name { IsTrue result ↔ HasMethodName (text_of (view_body body.now)) }
{
    if is_constructor(&body.name) {
        has_no_result(&body.descriptor)
    } else if is_initialiser(&body.name) {
        is_initialiser_head(body)
    } else {
        is_identifier(&body.name)
    }
}

/// Whether statements can be written in a unit with a helper, and in one without.
fn are_writable(list: &[Stm]) -> bool
    ensures writable { IsTrue result ↔ ((helper : Bool) → AreWellFormedStms helper (view_stms list.now)) }
{
    are_well_formed_stms(list, false) && are_well_formed_stms(list, true)
}

/// Whether a body can be written.
pub fn is_writable(body: &Body) -> bool
    ensures writable { IsTrue result ↔ IsWritable (view_body body.now) }
{
    has_method_name(body)
        && is_method_descriptor(&body.descriptor)
        && are_qualified(body.thrown.as_slice())
        && are_writable(body.statements.as_slice())
}
