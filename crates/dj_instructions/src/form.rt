//! What follows an opcode (JVMS 6.5).

ghost use Rattle.std.specs.Prelude.{◌≡◌};
ghost use Rattle.dj_instructions.specs.RawInstructions.{form_of};

/// The operands that an opcode has.
#[derive(Clone, Copy, PartialEq, Eq)]
pub enum Form {
    /// There is no such opcode.
    Unknown,
    /// None.
    Alone,
    /// A number of one byte.
    Byte,
    /// A number of two bytes.
    Short,
    /// A number of four bytes.
    Word,
    /// A local and what is added to it, of one byte each.
    Step,
    /// An index of two bytes, and two bytes that aren't looked at.
    Counted,
    /// An index of two bytes, and a number of sizes in one.
    Sizes,
    /// Those of `tableswitch`.
    Table,
    /// Those of `lookupswitch`.
    Lookup,
    /// An opcode that is made wide, with its operands.
    Wide,
}

/// What follows an opcode.
#[tactic(auto, unfolding(crate::specs::RawInstructions::form_of))]
pub fn form_of(opcode: u8) -> Form
    ensures form { result ≡ form_of opcode }
{
    match opcode {
        0..=15 => Form::Alone,
        16 => Form::Byte,
        17 => Form::Short,
        18 => Form::Byte,
        19..=20 => Form::Short,
        21..=25 => Form::Byte,
        26..=53 => Form::Alone,
        54..=58 => Form::Byte,
        59..=131 => Form::Alone,
        132 => Form::Step,
        133..=152 => Form::Alone,
        153..=167 => Form::Short,
        170 => Form::Table,
        171 => Form::Lookup,
        172..=177 => Form::Alone,
        178..=184 => Form::Short,
        185..=186 => Form::Counted,
        187 => Form::Short,
        188 => Form::Byte,
        189 => Form::Short,
        190..=191 => Form::Alone,
        192..=193 => Form::Short,
        194..=195 => Form::Alone,
        196 => Form::Wide,
        197 => Form::Sizes,
        198..=199 => Form::Short,
        200 => Form::Word,
        _ => Form::Unknown,
    }
}
