//! Elements of arrays (JLS 15.10.3, 15.26; JVMS 6.5, `iaload` to `sastore`).

ghost use Rattle.std.specs.Prelude.{◌≡◌, false, IfOk, Some, codes, option_map};
ghost use Rattle.dj_names.specs.Types.{Array, view_type, view_static};
ghost use Rattle.dj_syntax.specs.Trees.{Field};
ghost use Rattle.dj_instructions.specs.declared.kinds.Element.TheVariants as element;
ghost use Rattle.dj_rebuilding.specs.Pending.{and_then};
ghost use Rattle.dj_members_shown.specs.Casts as casts;
ghost use Rattle.dj_member_nodes.specs.Nodes as nodes;
ghost use Rattle.dj_pending.specs.Trees.{view_tree};
ghost use Rattle.dj_pending.specs.Entries.{view_operand};
ghost use Rattle.dj_pending.specs.Stacks.{stacked};
ghost use Rattle.dj_pending.specs.Building.{view_built, as_built};
ghost use Rattle.dj_pending.specs.Spilling.{behind};
ghost use Rattle.dj_member_trees.specs.Fitting as fitting;
ghost use Rattle.dj_member_trees.specs.Writing as writing;
ghost use Rattle.dj_member_trees.specs.Writing.{view_written, view_put};
ghost use Rattle.dj_member_trees.specs.Stepping as spec;

use crate::casts::{dressed, goes};
use crate::fitting::{fitted, take_one, take_whole};
use crate::trees::{int_type, length_name, object_type};
use dj_checked::is_reference;
use dj_headers::Headers;
use dj_instructions::Element;
use dj_names::{JType, Shared, StaticType};
use dj_pending::{Built, Entry, Operand, Stack, Tree};
use dj_syntax::Stm;
use std::alloc::{AllocError, Global};

/// The type of elements that an instruction works on, where the array tells none.
fn own_element(alloc: Global, element: Element) -> Result<JType, AllocError>
    ensures own { IfOk result (λ kind. view_type kind ≡ nodes.own_element element) }
{
    match element {
        Element::Int => Ok(JType::Int),
        Element::Long => Ok(JType::Long),
        Element::Float => Ok(JType::Float),
        Element::Double => Ok(JType::Double),
        Element::Ref => object_type(alloc),
        Element::Byte => Ok(JType::Byte),
        Element::Char => Ok(JType::Char),
        Element::Short => Ok(JType::Short),
    }
}

/// Whether an instruction on elements works on these.
fn works_on(element: Element, kind: &JType) -> bool
    ensures works { result ≡ nodes.works_on element (view_type kind.now) }
{
    match element {
        Element::Int => matches!(kind, JType::Int),
        Element::Long => matches!(kind, JType::Long),
        Element::Float => false,
        Element::Double => false,
        Element::Ref => is_reference(kind),
        Element::Byte => matches!(kind, JType::Boolean | JType::Byte),
        Element::Char => matches!(kind, JType::Char),
        Element::Short => matches!(kind, JType::Short),
    }
}

/// The type of an array's elements, by the array's own type; null's are those of the instruction.
fn element_in(
    alloc: Global,
    element: Element,
    kind: &StaticType,
) -> Result<Option<JType>, AllocError>
    ensures found { IfOk result (λ found. option_map view_type found ≡ nodes.element_in element (view_static kind.now)) }
{
    match kind {
        StaticType::Null => Ok(Some(own_element(alloc, element)?)),
        StaticType::Of(JType::Array(inner)) => Ok(Some(inner.get().copy(alloc)?)),
        StaticType::Of(
            JType::Boolean
            | JType::Byte
            | JType::Char
            | JType::Short
            | JType::Int
            | JType::Long
            | JType::Float
            | JType::Double
            | JType::Class(_),
        ) => Ok(None),
    }
}

/// The array of a type.
fn array_of(alloc: Global, kind: &JType) -> Result<JType, AllocError>
    ensures array { IfOk result (λ array. view_type array ≡ Array (view_type kind.now)) }
{
    let inner = kind.copy(alloc)?;
    Ok(JType::Array(Shared::new(alloc, inner)?))
}

/// An array operand, where an array of these elements is wanted.
fn dressed_array(
    alloc: Global,
    headers: &Headers,
    array: Operand,
    element: &JType,
) -> Result<Tree, AllocError>
    ensures dressed { IfOk result (λ made. view_tree made ≡ casts.dressed headers.now false (view_operand array).0 (Array (view_type element.now)) (view_operand array).1) }
{
    let kind = array_of(alloc, element)?;
    let tree = dressed(alloc, headers, false, array, &kind)?;
    Ok(tree)
}

/// An array operand whose elements an instruction works on, as it is written, with the type of these.
fn array_for(
    alloc: Global,
    headers: &Headers,
    element: Element,
    array: Operand,
) -> Result<Option<Operand>, AllocError>
    ensures array { IfOk result (λ found. option_map view_operand found ≡ fitting.array_for headers.now element (view_operand array)) }
{
    let Some(kind) = element_in(alloc, element, &array.kind)? else {
        return Ok(None);
    };
    if !works_on(element, &kind) {
        return Ok(None);
    }
    let tree = dressed_array(alloc, headers, array, &kind)?;
    let kind = StaticType::Of(kind);
    Ok(Some(Operand { kind, tree }))
}

/// An array from the top whose elements an instruction works on; None where none is there.
fn take_array(
    alloc: Global,
    headers: &Headers,
    stack: &mut Stack,
    element: Element,
) -> Result<Option<Operand>, AllocError>
    ensures taken { IfOk result (λ found. fitting.above (stacked stack.new) (option_map view_operand found) ≡ fitting.taken_by (fitting.array_for headers.now element) (stacked stack.old)) }
{
    let Some(entry) = stack.pop() else {
        return Ok(None);
    };
    let Some(operand) = entry.into_operand() else {
        return Ok(None);
    };
    let found = array_for(alloc, headers, element, operand)?;
    Ok(found)
}

/// A read of an element.
pub fn read_element(
    alloc: Global,
    headers: &Headers,
    built: &mut Built,
    element: Element,
) -> Result<bool, AllocError>
    ensures built { IfOk result (λ done. as_built done (view_built built.new)
        ≡ behind (view_built built.old).emitted (spec.element_read headers.now element built.old.next (stacked built.old.stack))) }
{
    let Some(index) = take_whole(alloc, &mut built.stack)? else {
        return Ok(false);
    };
    let Some(array) = take_array(alloc, headers, &mut built.stack, element)? else {
        return Ok(false);
    };
    let tree = Tree::element(alloc, array.tree, index)?;
    built.push(Entry::Whole(array.kind, tree))?;
    Ok(true)
}

/// An array operand whose length is read, as it is written.
fn measured(alloc: Global, headers: &Headers, array: Operand) -> Result<Option<Tree>, AllocError>
    ensures measured { IfOk result (λ found. option_map view_tree found
        ≡ and_then (nodes.element_in element.Int (view_operand array).0) (λ kind. Some (casts.dressed headers.now false (view_operand array).0 (Array kind) (view_operand array).1))) }
{
    let Some(kind) = element_in(alloc, Element::Int, &array.kind)? else {
        return Ok(None);
    };
    let tree = dressed_array(alloc, headers, array, &kind)?;
    Ok(Some(tree))
}

/// The length of an array, as an expression.
fn length_tree(alloc: Global, array: Tree) -> Result<Tree, AllocError>
    ensures length { IfOk result (λ made. view_tree made ≡ Field (view_tree array) (codes "length")) }
{
    let name = length_name(alloc)?;
    let tree = Tree::field(alloc, array, &name)?;
    Ok(tree)
}

/// The length of an array; that of null is that of any.
pub fn read_length(alloc: Global, headers: &Headers, built: &mut Built) -> Result<bool, AllocError>
    ensures built { IfOk result (λ done. as_built done (view_built built.new)
        ≡ behind (view_built built.old).emitted (spec.length_built headers.now built.old.next (stacked built.old.stack))) }
{
    let Some(array) = take_one(&mut built.stack) else {
        return Ok(false);
    };
    let Some(array) = measured(alloc, headers, array)? else {
        return Ok(false);
    };
    let tree = length_tree(alloc, array)?;
    built.push(Entry::Whole(StaticType::Of(int_type()), tree))?;
    Ok(true)
}

/// The type of an array's elements, as which it is written to.
fn stored_as(
    alloc: Global,
    headers: &Headers,
    kind: &JType,
    array: &StaticType,
    new: &StaticType,
) -> Result<JType, AllocError>
    ensures stored { IfOk result (λ found. view_type found ≡ casts.stored_as headers.now (view_type kind.now) (view_static array.now) (view_static new.now)) }
{
    match array {
        StaticType::Of(JType::Array(inner)) => {
            if is_reference(inner.get()) && !goes(headers, new, inner.get()) {
                object_type(alloc)
            } else {
                inner.get().copy(alloc)
            }
        }
        StaticType::Null
        | StaticType::Of(
            JType::Boolean
            | JType::Byte
            | JType::Char
            | JType::Short
            | JType::Int
            | JType::Long
            | JType::Float
            | JType::Double
            | JType::Class(_),
        ) => kind.copy(alloc),
    }
}

/// The type of elements as which an array is written to, if the instruction works on them.
fn written_as(
    alloc: Global,
    headers: &Headers,
    element: Element,
    array: &StaticType,
    new: &StaticType,
) -> Result<Option<JType>, AllocError>
    ensures written { IfOk result (λ found. option_map view_type found ≡ fitting.written_as headers.now element (view_static array.now) (view_static new.now)) }
{
    let Some(kind) = element_in(alloc, element, array)? else {
        return Ok(None);
    };
    if !works_on(element, &kind) {
        return Ok(None);
    }
    let stored = stored_as(alloc, headers, &kind, array, new)?;
    Ok(Some(stored))
}

/// An operand as an array of elements of a type, if it goes there.
fn fitted_array(
    alloc: Global,
    headers: &Headers,
    stored: &JType,
    array: Operand,
) -> Result<Option<Tree>, AllocError>
    ensures fitted { IfOk result (λ found. option_map view_tree found ≡ fitting.fitted headers.now false (Array (view_type stored.now)) (view_operand array)) }
{
    let wanted = array_of(alloc, stored)?;
    let found = fitted(alloc, headers, false, array, &wanted)?;
    Ok(found)
}

/// What a write of an element takes from a stack.
#[derive(Drop)]
struct Written {
    array: Operand,
    index: Tree,
    new: Operand,
}

/// A write of an element, as it stands in the statement.
#[derive(Drop)]
struct Put {
    array: Tree,
    index: Tree,
    new: Tree,
}

/// What a write of an element takes from the top, the value first; None where it is not there.
fn take_written(alloc: Global, stack: &mut Stack) -> Result<Option<Written>, AllocError>
    ensures taken { IfOk result (λ found. fitting.above (stacked stack.new) (option_map view_written found) ≡ writing.written_taken (stacked stack.old)) }
{
    let Some(new) = take_one(stack) else {
        return Ok(None);
    };
    let Some(index) = take_whole(alloc, stack)? else {
        return Ok(None);
    };
    let Some(array) = take_one(stack) else {
        return Ok(None);
    };
    Ok(Some(Written { array, index, new }))
}

/// The type of elements as which an array is written to, where a value is, if the instruction works on them.
fn stored_for(
    alloc: Global,
    headers: &Headers,
    element: Element,
    written: &Written,
) -> Result<Option<JType>, AllocError>
    ensures stored { IfOk result (λ found. option_map view_type found ≡ fitting.written_as headers.now element (view_operand written.now.array).0 (view_operand written.now.new).0) }
{
    let found = written_as(
        alloc,
        headers,
        element,
        &written.array.kind,
        &written.new.kind,
    )?;
    Ok(found)
}

/// A write of an element of a type, if the array and the value go there.
fn put_as(
    alloc: Global,
    headers: &Headers,
    stored: &JType,
    written: Written,
) -> Result<Option<Put>, AllocError>
    ensures put { IfOk result (λ found. option_map view_put found ≡ writing.put_as headers.now (view_type stored.now) (view_written written)) }
{
    let Written { array, index, new } = written;
    let Some(new) = fitted(alloc, headers, true, new, stored)? else {
        return Ok(None);
    };
    let Some(array) = fitted_array(alloc, headers, stored, array)? else {
        return Ok(None);
    };
    Ok(Some(Put { array, index, new }))
}

/// A write of an element of a type, if there is one.
fn put_found(
    alloc: Global,
    headers: &Headers,
    found: Option<JType>,
    written: Written,
) -> Result<Option<Put>, AllocError>
    ensures put { IfOk result (λ made. option_map view_put made ≡ and_then (option_map view_type found) (λ stored. writing.put_as headers.now stored (view_written written))) }
{
    match found {
        Some(stored) => put_as(alloc, headers, &stored, written),
        None => Ok(None),
    }
}

/// A write of an element, if the instruction works on it.
fn put_for(
    alloc: Global,
    headers: &Headers,
    element: Element,
    written: Written,
) -> Result<Option<Put>, AllocError>
    ensures put { IfOk result (λ found. option_map view_put found ≡ writing.put_for headers.now element (view_written written)) }
{
    let found = stored_for(alloc, headers, element, &written)?;
    put_found(alloc, headers, found, written)
}

/// A write of an element, as a statement.
fn put_element(alloc: Global, built: &mut Built, put: Put) -> Result<bool, AllocError>
    ensures built { IfOk result (λ done. as_built done (view_built built.new)
        ≡ behind (view_built built.old).emitted (spec.element_put built.old.next (stacked built.old.stack) (view_tree put.array) (view_tree put.index) (view_tree put.new))) }
{
    let Put { array, index, new } = put;
    let done = built.emit(alloc, &[], Stm::SetElement(array.exp, index.exp, new.exp))?;
    Ok(done)
}

/// A write of an element: the array is cast where the value goes to Object alone.
pub fn write_element(
    alloc: Global,
    headers: &Headers,
    built: &mut Built,
    element: Element,
) -> Result<bool, AllocError>
    ensures built { IfOk result (λ done. as_built done (view_built built.new)
        ≡ behind (view_built built.old).emitted (spec.element_written headers.now element built.old.next (stacked built.old.stack))) }
{
    let Some(written) = take_written(alloc, &mut built.stack)? else {
        return Ok(false);
    };
    let Some(put) = put_for(alloc, headers, element, written)? else {
        return Ok(false);
    };
    let done = put_element(alloc, built, put)?;
    Ok(done)
}
