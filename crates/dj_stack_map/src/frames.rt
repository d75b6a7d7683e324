//! The frames of a method (JVMS 4.7.3, 4.7.4).

ghost use Rattle.std.specs.Prelude.{◌≡◌, ◌∷◌, [], ℕ, List, Ok, Err, MatchOption, codes};
ghost use Rattle.dj_layout.specs.Whole.{Gives};
ghost use Rattle.dj_pool.specs.Attributes.{contents};
ghost use Rattle.dj_class.specs.Views.{view_method};
ghost use Rattle.dj_instructions.specs.declared.kinds.BadKind.TheVariants as kind;
ghost use Rattle.dj_instructions.specs.Instructions.{view_instructions, IsRising};
ghost use Rattle.dj_frames.specs.Frames as spec;
ghost use Rattle.dj_frames.specs.Frames.{view_frames, entry_values};
ghost use Rattle.dj_stack_map.specs.StackMap.{AreFrames, BreaksFrames, ReadsFrames};

use crate::table::{fault_behind, read_table};
use dj_class::{Attribute, ClassFile, Method, Pool, has_attribute};
use dj_frames::{Frame, entry_locals};
use dj_instructions::{BadKind, Instruction};
use dj_layout::Stop;
use dj_names::Items;
use dj_pool::is_name;
use std::alloc::Global;

const NAME: &str = "StackMapTable";

/// The content of the first table, and the attributes behind it.
fn first_table<'a>(pool: &Pool, attributes: &'a [Attribute]) -> Option<(&'a [u8], &'a [Attribute])>
    ensures first { MatchOption result (contents pool.now (codes "StackMapTable") attributes.now ≡ []) (λ x. contents pool.now (codes "StackMapTable") attributes.now ≡ x.0.now ∷ contents pool.now (codes "StackMapTable") x.1.now) }
{
    for (place, attribute) in attributes.iter().enumerate() {
        if is_name(pool, attribute.name, NAME) {
            return Some((attribute.content.as_slice(), &attributes[place + 1..]));
        }
    }
    None
}

/// The frames of a method of a class, or their fault.
fn frames_of(
    alloc: Global,
    class: &ClassFile,
    method: &Method,
    instructions: &[(u32, Instruction)],
    attributes: &[Attribute],
) -> Result<Items<(u32, Frame)>, Stop<BadKind>>
    requires rising { IsRising (view_instructions instructions.now) }
    ensures reads { ReadsFrames class.now.pool (view_instructions instructions.now) (entry_values class.now.this_class (view_method method.now)) (contents class.now.pool (codes "StackMapTable") attributes.now) result }
{
    let Some((content, others)) = first_table(&class.pool, attributes) else {
        return Ok(Items::new(alloc));
    };
    let entry = entry_locals(alloc, &class.this_class, method)?;
    let listed = read_table(alloc, &class.pool, instructions, entry, content)?;
    if has_attribute(&class.pool, others, NAME) {
        return Err(fault_behind(listed.least));
    }
    Ok(listed.frames)
}

/// The frames of a method of a class, by the attributes of its Code; a fault is at the pc of the
/// last frame before it that is right, 0 where there is none.
pub fn read_frames(
    alloc: Global,
    class: &ClassFile,
    method: &Method,
    instructions: &[(u32, Instruction)],
    attributes: &[Attribute],
) -> Result<Items<(u32, Frame)>, Stop<BadKind>>
    requires rising { IsRising (view_instructions instructions.now) }
    ensures reads { ReadsFrames class.now.pool (view_instructions instructions.now) (entry_values class.now.this_class (view_method method.now)) (contents class.now.pool (codes "StackMapTable") attributes.now) result }
    // Frames that the tables give are answered, unless memory runs out.
    ensures value { (frames : List (ℕ × spec.Frame)) → AreFrames class.now.pool (view_instructions instructions.now) (entry_values class.now.this_class (view_method method.now)) (contents class.now.pool (codes "StackMapTable") attributes.now) frames → Gives view_frames result (Ok frames) }
    // A fault that the tables have is answered, unless memory runs out.
    ensures fault { (pc : ℕ) → BreaksFrames class.now.pool (view_instructions instructions.now) (entry_values class.now.this_class (view_method method.now)) (contents class.now.pool (codes "StackMapTable") attributes.now) pc → Gives view_frames result (Err (record { kind = kind.Frame; offset = pc })) }
{
    frames_of(alloc, class, method, instructions, attributes)
}
