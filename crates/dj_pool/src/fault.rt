//! The kinds of fault that a class file may have.

/// What may be wrong with a class file.
#[derive(Clone, Copy, Debug, PartialEq, Eq)]
pub enum BrokenKind {
    /// A number or a run of bytes isn't whole.
    Short,
    /// The file doesn't begin with the magic number.
    Magic,
    /// The major version is too old or too new.
    Version,
    /// There is no entry of this tag.
    Tag,
    /// An index doesn't lead to what it has to, the pool has no room for an entry, or its count is 0.
    Index,
    /// The bytes of a text aren't modified UTF-8.
    Units,
    /// A text isn't the descriptor, or the name of a class, that it has to be.
    Descriptor,
    /// Bytes follow the last attribute.
    Trailing,
    /// An attribute that is looked into isn't right, stands twice, is missing, or may not be there.
    Attribute,
    /// Flags don't go together.
    Flags,
}
