//! What holds of each class that is read from a file.

ghost use Rattle.std.specs.Prelude.{ℕ, List};
ghost use Rattle.dj_class.specs.Described.{ClassOf, SpellsClass};
ghost use Rattle.dj_class_text.specs.Formed.{IsFromFile};

/// The class of a class file has constants of their size, methods' descriptors, and few methods.
pub fn classes_are_from_files()
    ensures from_file { (bytes : List ℕ) (oldest : ℕ) (class : ClassOf) → SpellsClass bytes oldest class → IsFromFile class }
{}
