//! Names of words with dots between them, read a word at a time (JLS 6.5).

ghost use Rattle.std.specs.Prelude.{◌≡◌, ◌++◌, ◌∷◌, IfOk, OnOk, option_map};
ghost use Rattle.dj_names.specs.Types.{view_type};
ghost use Rattle.dj_syntax.specs.Trees.{view_exp};
ghost use Rattle.dj_tokens.specs.Dotted.{begun, extended, field_of_value, joined_to, prefix_units, primitive_of, type_of_name, value_of, variable_in, whole};
ghost use Rattle.dj_tokens.specs.DottedViews.{view_name, view_primitive};

use crate::kept::KnownNames;
use crate::literals::{is_variable_word, number_behind_letter, variable_of};
use crate::names::SLASH;
use crate::words::is_word;
use dj_names::{Boxed, ClassName, JType, Units};
use dj_syntax::Exp;
use std::alloc::{AllocError, Global};

/// The keyword that stands before the name of a method above.
const SUPER: &[u8] = b"super";

/// A primitive type.
#[derive(Clone, Copy)]
pub enum Primitive {
    Boolean,
    Byte,
    Char,
    Short,
    Int,
    Long,
    Float,
    Double,
}

/// A name as far as it is read, with what it may be a name of.
#[derive(Drop)]
pub struct DottedName {
    /// Its value, where it begins with a variable.
    pub value: Option<Boxed<Exp>>,
    /// The primitive type whose keyword it is.
    pub primitive: Option<Primitive>,
    /// The number behind the letter of its first word, as a label has one.
    pub number: u32,
    /// The words before the last one, with slashes between them.
    pub prefix: Option<Vec<u16>>,
    pub last: Units,
    /// Whether the word before the last one is `super`.
    pub behind_super: bool,
    /// Whether the last word is `super`.
    pub is_super: bool,
}

impl DottedName {
    /// A name of one word.
    pub fn begun(
        alloc: Global,
        names: &mut KnownNames,
        word: &[u8],
    ) -> Result<DottedName, AllocError>
        ensures begun { IfOk result (λ name. view_name name ≡ begun word.now) }
    {
        let last = names.word(alloc, word)?;
        let value = variable_in(alloc, word)?;
        Ok(DottedName {
            value,
            primitive: primitive_of(word),
            number: number_behind_letter(word),
            prefix: None,
            last,
            behind_super: false,
            is_super: is_word(word, SUPER),
        })
    }

    /// The name with a word more.
    pub fn extended(
        mut self,
        alloc: Global,
        names: &mut KnownNames,
        word: &[u8],
    ) -> Result<DottedName, AllocError>
        ensures extended { IfOk result (λ name. view_name name ≡ extended (view_name self) word.now) }
    {
        self.extend(alloc, names, word)?;
        Ok(self)
    }

    /// The name goes on with a word more.
    pub fn extend(
        &mut self,
        alloc: Global,
        names: &mut KnownNames,
        word: &[u8],
    ) -> Result<(), AllocError>
        ensures extended { OnOk result (view_name self.new ≡ extended (view_name self.old) word.now) }
    {
        let prefix = prefix_with(alloc, names, self.prefix.take(), &self.last)?;
        let last = names.word(alloc, word)?;
        let value = field_of_value(alloc, self.value.take(), word, &last)?;
        self.prefix = Some(prefix);
        self.last = last;
        self.value = value;
        self.primitive = None;
        self.behind_super = self.is_super;
        self.is_super = is_word(word, SUPER);
        Ok(())
    }

    /// The name's value: a variable or a field of one, and else a static field.
    pub fn into_value(self, alloc: Global) -> Result<Exp, AllocError>
        ensures value { IfOk result (λ value. view_exp value ≡ value_of (view_name self)) }
    {
        let DottedName {
            value,
            prefix,
            last,
            ..
        } = self;
        match value {
            Some(value) => Ok(value.into_inner()),
            None => {
                let class = class_of(alloc, prefix)?;
                Ok(Exp::Static(class, last))
            }
        }
    }

    /// The type that the name names.
    pub fn into_type(self, alloc: Global) -> Result<JType, AllocError>
        ensures kind { IfOk result (λ kind. view_type kind ≡ type_of_name (view_name self)) }
    {
        match self.primitive {
            Some(kind) => Ok(type_of(kind)),
            None => {
                let class = self.into_class(alloc)?;
                Ok(JType::Class(class))
            }
        }
    }

    /// The whole name as a class's.
    pub fn into_class(self, alloc: Global) -> Result<ClassName, AllocError>
        ensures whole { IfOk result (λ class. class ≡ whole (view_name self)) }
    {
        let units = self.into_units(alloc)?;
        let class = class_named(units)?;
        Ok(class)
    }

    /// The whole name, with a slash for each dot.
    fn into_units(self, alloc: Global) -> Result<Vec<u16>, AllocError>
        ensures whole { IfOk result (λ units. units.items ≡ whole (view_name self)) }
    {
        let (prefix, last) = self.into_words();
        let units = joined_to(alloc, prefix, &last)?;
        Ok(units)
    }

    /// The words before the last one, and that one.
    fn into_words(self) -> (Option<Vec<u16>>, Units)
        ensures prefix { result.0 ≡ self.prefix }
        ensures last { result.1 ≡ self.last }
    {
        let DottedName { prefix, last, .. } = self;
        (prefix, last)
    }
}

/// The class of this name.
fn class_named(units: Vec<u16>) -> Result<ClassName, AllocError>
    ensures named { IfOk result (λ class. class ≡ units.items) }
{
    let units = Units::from_vec(units)?;
    Ok(ClassName::new(units))
}

/// A variable, where a word is spelled like one.
fn variable_in(alloc: Global, word: &[u8]) -> Result<Option<Boxed<Exp>>, AllocError>
    ensures variable { IfOk result (λ value. option_map view_exp value ≡ variable_in word.now) }
{
    if is_variable_word(word) {
        Ok(Some(Boxed::new(alloc, Exp::Var(variable_of(word)))?))
    } else {
        Ok(None)
    }
}

/// The primitive type whose keyword a word is.
fn primitive_of(word: &[u8]) -> Option<Primitive>
    ensures primitive { option_map view_primitive result ≡ primitive_of word.now }
{
    if is_word(word, b"boolean") {
        Some(Primitive::Boolean)
    } else if is_word(word, b"byte") {
        Some(Primitive::Byte)
    } else if is_word(word, b"char") {
        Some(Primitive::Char)
    } else if is_word(word, b"short") {
        Some(Primitive::Short)
    } else if is_word(word, b"int") {
        Some(Primitive::Int)
    } else if is_word(word, b"long") {
        Some(Primitive::Long)
    } else if is_word(word, b"float") {
        Some(Primitive::Float)
    } else if is_word(word, b"double") {
        Some(Primitive::Double)
    } else {
        None
    }
}

/// The type that is this primitive one.
fn type_of(kind: Primitive) -> JType
    ensures kind { view_type result ≡ view_primitive kind }
{
    match kind {
        Primitive::Boolean => JType::Boolean,
        Primitive::Byte => JType::Byte,
        Primitive::Char => JType::Char,
        Primitive::Short => JType::Short,
        Primitive::Int => JType::Int,
        Primitive::Long => JType::Long,
        Primitive::Float => JType::Float,
        Primitive::Double => JType::Double,
    }
}

/// The words before the last one with that one behind them, and a slash between them where there are
/// any. The first of them is given room that another name no longer takes.
fn prefix_with(
    alloc: Global,
    names: &mut KnownNames,
    prefix: Option<Vec<u16>>,
    last: &Units,
) -> Result<Vec<u16>, AllocError>
    ensures joined { IfOk result (λ units. units.items ≡ joined_to (option_map (λ prefix. prefix.items) prefix) last.now) }
{
    match prefix {
        None => behind(names.room(alloc)?, last),
        Some(units) => behind_slash(units, last),
    }
}

/// Units with a slash and others behind them, where there are any before.
fn joined_to(alloc: Global, prefix: Option<Vec<u16>>, last: &Units) -> Result<Vec<u16>, AllocError>
    ensures joined { IfOk result (λ units. units.items ≡ joined_to (option_map (λ prefix. prefix.items) prefix) last.now) }
{
    match prefix {
        None => Ok(Vec::from_slice(alloc, last.as_slice())?),
        Some(units) => behind_slash(units, last),
    }
}

/// Units with a slash and others behind them.
fn behind_slash(mut units: Vec<u16>, last: &Units) -> Result<Vec<u16>, AllocError>
    ensures behind { IfOk result (λ joined. joined.items ≡ units.items ++ 47 ∷ last.now) }
{
    units.push(SLASH)?;
    behind(units, last)
}

/// Units with others behind them.
fn behind(mut units: Vec<u16>, last: &Units) -> Result<Vec<u16>, AllocError>
    ensures behind { IfOk result (λ joined. joined.items ≡ units.items ++ last.now) }
{
    units.extend_from_slice(last.as_slice())?;
    Ok(units)
}

/// The class before a static member, of no name where there is none.
fn class_of(alloc: Global, prefix: Option<Vec<u16>>) -> Result<ClassName, AllocError>
    ensures class { IfOk result (λ class. class ≡ prefix_units (option_map (λ prefix. prefix.items) prefix)) }
{
    let units = match prefix {
        None => Vec::new(alloc),
        Some(units) => units,
    };
    Ok(ClassName::new(Units::from_vec(units)?))
}

/// A field of a value, where there is one; none is called `super`. Its name is the word's units.
fn field_of_value(
    alloc: Global,
    value: Option<Boxed<Exp>>,
    word: &[u8],
    name: &Units,
) -> Result<Option<Boxed<Exp>>, AllocError>
    requires same { name.now ≡ word.now }
    ensures field { IfOk result (λ field. option_map view_exp field ≡ field_of_value (option_map view_exp value) word.now) }
{
    match value {
        None => Ok(None),
        Some(object) => {
            if is_word(word, SUPER) {
                return Ok(None);
            }
            let field = Exp::Field(object, name.copy(alloc)?);
            Ok(Some(Boxed::new(alloc, field)?))
        }
    }
}
