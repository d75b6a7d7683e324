//! Texts that nest deep: those of 2,000 levels are read, and those of a million are answered without a crash.

use crate::texts::{is_printed_again, put_line};
use dj_depth::is_deep;
use dj_read::{ReadUnitFault, read_unit};
use std::alloc::{AllocError, Global};
use std::test::*;

/// How deep the trees are that are read.
const LEVELS: u32 = 2000;

/// The lines with which a statement begins and ends around the next one, each with how much deeper it stands, and how
/// much deeper the next one stands.
type Lines = (
    &'static [(u32, &'static str)],
    u32,
    &'static [(u32, &'static str)],
);

const STATEMENTS: &[Lines] = &[
    (&[(0, "{")], 1, &[(0, "}")]),
    (&[(0, "while (p0) {")], 1, &[(0, "}")]),
    (&[(0, "l1: while (true) {")], 1, &[(0, "}")]),
    (&[(0, "if (p0) {")], 1, &[(0, "}")]),
    (&[(0, "if (p0) {"), (0, "} else {")], 1, &[(0, "}")]),
    (
        &[(0, "if (p0.f(p1)) {")],
        1,
        &[(0, "} else {"), (1, "return;"), (0, "}")],
    ),
    (&[(0, "do {")], 1, &[(0, "} while (p0);")]),
    (&[(0, "for (; p0; v0 = v0 + 1) {")], 1, &[(0, "}")]),
    (&[(0, "switch (p0) {"), (1, "case 5:")], 2, &[(0, "}")]),
    (&[(0, "try {")], 1, &[(0, "} catch (C e0) {"), (0, "}")]),
    (&[(0, "try {"), (0, "} catch (C e0) {")], 1, &[(0, "}")]),
    (&[(0, "try {")], 1, &[(0, "} finally {"), (0, "}")]),
    (&[(0, "try {"), (0, "} finally {")], 1, &[(0, "}")]),
    (&[(0, "synchronized (this) {")], 1, &[(0, "}")]),
];

/// What stands before an expression and behind it, where one is nested in another, and the innermost.
const EXPRESSIONS: &[(&str, &str, &str)] = &[
    ("-(", "-p0", ")"),
    ("!(", "!p0", ")"),
    ("(", "p0 + p1", ") + p1"),
    ("p0 + (", "p0 + p1", ")"),
    ("(", "p0 ? p1 : p2", ") ? p1 : p2"),
    ("p0 ? (", "p0 ? p1 : p2", ") : p2"),
    ("p0 ? p1 : (", "p0 ? p1 : p2", ")"),
    ("v1 = ", "p0", ""),
    ("", "p0", ".f"),
    ("", "p0", "[0]"),
    ("p0[", "0", "]"),
    ("", "p0", ".f()"),
    ("p0.f(", "p0", ")"),
    ("q.C.f(", "p0", ")"),
    ("super.f(", "p0", ")"),
    ("q.I.super.f(", "p0", ")"),
    ("new q.C(", "p0", ")"),
    ("new int[", "5", "]"),
    ("(java.lang.Object) (", "(java.lang.Object) p0", ")"),
    ("(", "p0 instanceof q.C", ") instanceof q.C"),
];

fn put_lines(text: &mut Vec<u8>, level: u32, lines: &[(u32, &str)]) -> Result<(), AllocError> {
    for (deeper, line) in lines {
        put_line(text, level.saturating_add(*deeper), line.as_bytes())?;
    }
    Ok(())
}

/// The text of a method with so many statements, each in the one before it.
fn nested_statements(alloc: Global, lines: &Lines, levels: u32) -> Result<Vec<u8>, AllocError> {
    let (opening, step, closing) = lines;
    let mut text = Vec::from_slice(alloc, b"class C {\n    static void f() {")?;
    for level in 0..levels {
        put_lines(
            &mut text,
            level.saturating_mul(*step).saturating_add(2),
            opening,
        )?;
    }
    put_line(
        &mut text,
        levels.saturating_mul(*step).saturating_add(2),
        b"return;",
    )?;
    for level in (0..levels).rev() {
        put_lines(
            &mut text,
            level.saturating_mul(*step).saturating_add(2),
            closing,
        )?;
    }
    text.extend_from_slice(b"\n    }\n}\n")?;
    Ok(text)
}

fn put_often(text: &mut Vec<u8>, piece: &[u8], times: u32) -> Result<(), AllocError> {
    for _ in 0..times {
        text.extend_from_slice(piece)?;
    }
    Ok(())
}

/// What stands in the front and in the back of a text, and between them so often before and behind the middle.
#[derive(Clone, Copy)]
struct Pieces<'a> {
    front: &'a str,
    open: &'a [u8],
    middle: &'a str,
    close: &'a [u8],
    back: &'a str,
}

fn joined(alloc: Global, pieces: Pieces, times: u32) -> Result<Vec<u8>, AllocError> {
    let mut text = Vec::from_slice(alloc, pieces.front.as_bytes())?;
    put_often(&mut text, pieces.open, times)?;
    text.extend_from_slice(pieces.middle.as_bytes())?;
    put_often(&mut text, pieces.close, times)?;
    text.extend_from_slice(pieces.back.as_bytes())?;
    Ok(text)
}

/// The body of a method that nests so often.
fn body(
    alloc: Global,
    open: &[u8],
    middle: &str,
    close: &[u8],
    times: u32,
) -> Result<Vec<u8>, AllocError> {
    let pieces = Pieces {
        front: "class C {\n    void f() {\n        ",
        open,
        middle,
        close,
        back: "\n    }\n}\n",
    };
    joined(alloc, pieces, times)
}

#[test]
fn nested_statements_are_printed_again(rt: HostRuntime) -> Result<(), Fail> {
    for lines in STATEMENTS {
        let text = nested_statements(rt.alloc(), lines, LEVELS)?;
        let name = lines.0.first().map_or("", |line| line.1);
        assert!(rt; is_printed_again(rt.alloc(), text.as_slice())?, "{name}");
    }
    Ok(())
}

/// A statement that stores an expression, which nests so often.
fn store(
    alloc: Global,
    open: &str,
    middle: &str,
    close: &str,
    times: u32,
) -> Result<Vec<u8>, AllocError> {
    let pieces = Pieces {
        front: "class C {\n    void f() {\n        v0 = ",
        open: open.as_bytes(),
        middle,
        close: close.as_bytes(),
        back: ";\n    }\n}\n",
    };
    joined(alloc, pieces, times)
}

#[test]
fn nested_expressions_are_printed_again(rt: HostRuntime) -> Result<(), Fail> {
    for (open, middle, close) in EXPRESSIONS {
        let text = store(rt.alloc(), open, middle, close, LEVELS.saturating_sub(1))?;
        assert!(rt;
            is_printed_again(rt.alloc(), text.as_slice())?,
            "{open}{middle}{close}"
        );
    }
    Ok(())
}

/// Pieces of bodies that nest a million times.
const BODIES: &[(&str, &str, &str)] = &[("(", "p0", ")"), ("{", "", "}"), ("-(", "p0", ")")];

/// Pieces of bodies that nest a hundred thousand times, well or not.
const OTHER_BODIES: &[(&str, &str, &str)] = &[
    ("- ", "p0", ""),
    ("", "v0 = p0", ".f"),
    ("", "v0 = p0", "[0]"),
    ("l0: ", "{}", ""),
    ("if (p0) {} else {", "", "}"),
    ("do {", "", "} while (p0);"),
    ("try {} finally {", "", "}"),
    ("switch (p0) { case 5:", "", "}"),
    ("{ ) ;", "", "}"),
    ("{ return [ ; }", "", "}"),
];

/// What stands a thousand times before what opens and before what closes, of bodies that nest a thousand times.
const PARTS: &[(&str, &str, &str, &str)] = &[
    ("", "(", ".f", ")"),
    ("", "(", "[0]", ")"),
    ("", "p0.f(", ".f", ", p1)"),
    ("l0: ", "if (p0) {} else {", "", "}"),
    ("l0: ", "if (p0) {} x else {", "", "}"),
    ("l0: ", "try {} finally {", "", "}"),
    ("l0: ", "for ; p0 ; v0 = p0 {", "", "}"),
];

/// Whether bytes are read as no unit, for whatever reason.
fn is_refused(alloc: Global, bytes: &[u8]) -> Result<bool, AllocError> {
    match read_unit(alloc, bytes) {
        Ok(_) => Ok(false),
        Err(ReadUnitFault::Misread | ReadUnitFault::Deep) => Ok(true),
        Err(ReadUnitFault::Memory(error)) => Err(error),
    }
}

/// Whether each body is refused where it nests so often.
fn are_refused(
    alloc: Global,
    bodies: &[(&str, &str, &str)],
    times: u32,
) -> Result<bool, AllocError> {
    for (open, middle, close) in bodies {
        let text = body(alloc, open.as_bytes(), middle, close.as_bytes(), times)?;
        if !is_refused(alloc, text.as_slice())? {
            return Ok(false);
        }
    }
    Ok(true)
}

#[test]
fn a_million_levels_are_answered(rt: HostRuntime) -> Result<(), Fail> {
    assert!(rt; are_refused(rt.alloc(), BODIES, 1_000_000)?);
    assert!(rt; are_refused(rt.alloc(), OTHER_BODIES, 100_000)?);
    Ok(())
}

/// Pieces of a type that nests often, well or not.
const TYPES: &[&str] = &[
    "[]", "[;", "[}", "[ case", "[].;", "[].,", "[].{", "[.", "[,", "[(", "[)", "[[",
];

/// A piece that stands between a thousand pairs of brackets of a type.
const BETWEEN: &[&str] = &[".{", ".}", ".).(", ".,", ".;", ".else"];

/// A field of a type that has a piece so often.
fn field(alloc: Global, piece: &[u8], times: u32) -> Result<Vec<u8>, AllocError> {
    let pieces = Pieces {
        front: "class C {\n    int",
        open: piece,
        middle: "",
        close: b"",
        back: " x;\n}\n",
    };
    joined(alloc, pieces, times)
}

/// A method with a parameter of a type that has a piece so often.
fn parameter(alloc: Global, piece: &[u8], times: u32) -> Result<Vec<u8>, AllocError> {
    let pieces = Pieces {
        front: "class C {\n    native void f(int",
        open: piece,
        middle: "",
        close: b"",
        back: " p0);\n}\n",
    };
    joined(alloc, pieces, times)
}

#[test]
fn types_of_many_levels_are_answered(rt: HostRuntime) -> Result<(), Fail> {
    for piece in TYPES {
        let text = field(rt.alloc(), piece.as_bytes(), 100_000)?;
        assert!(rt; is_refused(rt.alloc(), text.as_slice())?, "{piece}");
        let text = parameter(rt.alloc(), piece.as_bytes(), 100_000)?;
        assert!(rt; is_refused(rt.alloc(), text.as_slice())?, "{piece}");
    }
    let text = field(rt.alloc(), b"[]", 10_000)?;
    assert!(rt; is_printed_again(rt.alloc(), text.as_slice())?);
    Ok(())
}

#[test]
fn types_of_many_parts_are_answered(rt: HostRuntime) -> Result<(), Fail> {
    for piece in BETWEEN {
        let piece = part(rt.alloc(), "[]", piece)?;
        let text = field(rt.alloc(), piece.as_slice(), 1000)?;
        assert!(rt; is_refused(rt.alloc(), text.as_slice())?);
        let text = parameter(rt.alloc(), piece.as_slice(), 1000)?;
        assert!(rt; is_refused(rt.alloc(), text.as_slice())?);
    }
    Ok(())
}

// No dot of a package nests anything.
#[test]
fn a_package_of_many_names_is_printed_again(rt: HostRuntime) -> Result<(), Fail> {
    let pieces = Pieces {
        front: "package a",
        open: b".a",
        middle: ";\nclass C {",
        close: b"",
        back: "\n}\n",
    };
    let text = joined(rt.alloc(), pieces, 20_000)?;
    assert!(rt; is_printed_again(rt.alloc(), text.as_slice())?);
    Ok(())
}

// A brace counts two, and a label too, where a statement begins behind `else`.
#[test]
fn labels_behind_else_count(rt: HostRuntime) -> Result<(), Fail> {
    let text = body(rt.alloc(), b"! else l0: while (true) {", "", b"}", 3000)?;
    assert!(rt; is_deep(rt.alloc(), text.as_slice())?);
    Ok(())
}

/// A piece, so often another before it.
fn part(alloc: Global, often: &str, piece: &str) -> Result<Vec<u8>, AllocError> {
    let mut part = Vec::new(alloc);
    put_often(&mut part, often.as_bytes(), 1000)?;
    part.extend_from_slice(piece.as_bytes())?;
    Ok(part)
}

#[test]
fn a_thousand_parts_of_a_thousand_levels_are_answered(rt: HostRuntime) -> Result<(), Fail> {
    for (often, open, often_behind, close) in PARTS {
        let before = part(rt.alloc(), often, open)?;
        let behind = part(rt.alloc(), often_behind, close)?;
        let text = body(rt.alloc(), before.as_slice(), "p0", behind.as_slice(), 1000)?;
        assert!(rt;
            is_refused(rt.alloc(), text.as_slice())?,
            "{often}{open}{often_behind}{close}"
        );
    }
    Ok(())
}

// The braces of the class and of the method count two each, and the `=` one.
#[test]
fn a_text_is_deep_above_the_bound(rt: HostRuntime) -> Result<(), Fail> {
    let at = store(rt.alloc(), "(", "p0", ")", 10_235)?;
    assert!(rt; !is_deep(rt.alloc(), at.as_slice())?);
    let above = store(rt.alloc(), "(", "p0", ")", 10_236)?;
    assert!(rt; is_deep(rt.alloc(), above.as_slice())?);
    Ok(())
}

/// The sum of two equal sums.
fn doubled(alloc: Global, sum: &[u8]) -> Result<Vec<u8>, AllocError> {
    let mut text = Vec::from_slice(alloc, b"(")?;
    text.extend_from_slice(sum)?;
    text.extend_from_slice(b") + (")?;
    text.extend_from_slice(sum)?;
    text.extend_from_slice(b")")?;
    Ok(text)
}

/// A statement that stores a sum, which was doubled so often.
fn wide_sum(alloc: Global, times: u32) -> Result<Vec<u8>, AllocError> {
    let mut sum = Vec::from_slice(alloc, b"p0[p1] + p1")?;
    for _ in 0..times {
        sum = doubled(alloc, sum.as_slice())?;
    }
    let mut text = Vec::from_slice(alloc, b"class C {\n    void f() {\n        v0 = ")?;
    text.extend_from_slice(sum.as_slice())?;
    text.extend_from_slice(b";\n    }\n}\n")?;
    Ok(text)
}

/// A statement that calls with so many arguments.
fn wide_call(alloc: Global, arguments: u32) -> Result<Vec<u8>, AllocError> {
    let pieces = Pieces {
        front: "class C {\n    void f() {\n        q.C.f(p0",
        open: b", p0.f(p1.g[5]).h",
        middle: "",
        close: b"",
        back: ");\n    }\n}\n",
    };
    joined(alloc, pieces, arguments)
}

#[test]
fn wide_statements_are_printed_again(rt: HostRuntime) -> Result<(), Fail> {
    let sum = wide_sum(rt.alloc(), 13)?;
    assert!(rt; is_printed_again(rt.alloc(), sum.as_slice())?);
    let call = wide_call(rt.alloc(), 10_000)?;
    assert!(rt; is_printed_again(rt.alloc(), call.as_slice())?);
    Ok(())
}
