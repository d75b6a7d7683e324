//! The exceptions that the machine throws by itself.

ghost use Rattle.std.specs.Prelude.{◌≡◌};
ghost use Rattle.dj_outside.specs.Runs.{trap_class};

/// The exceptions that the machine throws by itself (JVMS 2.10; JLS 11.1.1, 15.6).
#[derive(Clone, Copy)]
pub enum Trap {
    Arithmetic,
    Null,
    Bounds,
    Store,
    Cast,
    Size,
}

/// The class of such an exception.
pub fn class_name(trap: Trap) -> &'static str
    ensures class { result.now ≡ trap_class trap }
{
    match trap {
        Trap::Arithmetic => "java/lang/ArithmeticException",
        Trap::Null => "java/lang/NullPointerException",
        Trap::Bounds => "java/lang/ArrayIndexOutOfBoundsException",
        Trap::Store => "java/lang/ArrayStoreException",
        Trap::Cast => "java/lang/ClassCastException",
        Trap::Size => "java/lang/NegativeArraySizeException",
    }
}
