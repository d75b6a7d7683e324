//! Attributes by their names (JVMS 4.7).

ghost use Rattle.std.specs.Prelude.{◌≡◌, ◌≢◌, ◌↔◌, MatchBool, [], Some, IsTrue};
ghost use Rattle.dj_pool.specs.PoolFormat.{text_at};
ghost use Rattle.dj_pool.specs.Attributes.{contents};

use crate::pool::Pool;
use crate::raw::Attribute;
use dj_names::is_word;

/// Whether the text at an index is this name.
pub fn is_name(pool: &Pool, index: u16, name: &str) -> bool
    ensures exact { IsTrue result ↔ (text_at pool.now index ≡ Some name.now) }
{
    match pool.text_at(index) {
        Some(units) => is_word(units.as_slice(), name),
        None => false,
    }
}

/// Whether there is an attribute of this name.
pub fn has_attribute(pool: &Pool, attributes: &[Attribute], name: &str) -> bool
    ensures exact { MatchBool result (contents pool.now name.now attributes.now ≢ []) (contents pool.now name.now attributes.now ≡ []) }
{
    for attribute in attributes {
        if is_name(pool, attribute.name, name) {
            return true;
        }
    }
    false
}
