//! The program over files and sinks in memory: runs that a sink ends.

use dj_cli::{Status, run};
use dj_outer::{MemoryFiles, MemorySink};
use std::alloc::{AllocError, Global};
use std::test::Fail;

/// A class with `static int f(int, int)`, which answers a float as an int: it is refused.
const FLOAT: [u8; 102] = [
    0xca, 0xfe, 0xba, 0xbe, 0x00, 0x00, 0x00, 0x34, 0x00, 0x08, 0x01, 0x00, 0x01, 0x43, 0x07, 0x00,
    0x01, 0x01, 0x00, 0x10, 0x6a, 0x61, 0x76, 0x61, 0x2f, 0x6c, 0x61, 0x6e, 0x67, 0x2f, 0x4f, 0x62,
    0x6a, 0x65, 0x63, 0x74, 0x07, 0x00, 0x03, 0x01, 0x00, 0x01, 0x66, 0x01, 0x00, 0x05, 0x28, 0x49,
    0x49, 0x29, 0x49, 0x01, 0x00, 0x04, 0x43, 0x6f, 0x64, 0x65, 0x00, 0x21, 0x00, 0x02, 0x00, 0x04,
    0x00, 0x00, 0x00, 0x00, 0x00, 0x01, 0x00, 0x08, 0x00, 0x05, 0x00, 0x06, 0x00, 0x01, 0x00, 0x07,
    0x00, 0x00, 0x00, 0x10, 0x00, 0x02, 0x00, 0x02, 0x00, 0x00, 0x00, 0x04, 0x00, 0x0b, 0x8b, 0xac,
    0x00, 0x00, 0x00, 0x00, 0x00, 0x00,
];

/// The bytes of the class; of a function that says nothing, proofs carry no list of bytes.
fn float() -> &'static [u8] {
    &FLOAT
}

/// How a run ended, and the sinks that it wrote to.
#[derive(Drop)]
struct Ended {
    status: Status,
    text: MemorySink,
    report: MemorySink,
}

/// The words of a command line, behind the program's name.
fn words(alloc: Global, given: &[&str]) -> Result<Vec<String>, AllocError> {
    let mut words = Vec::new(alloc);
    words.push(String::from_str(alloc, "decompile")?)?;
    for word in given {
        words.push(String::from_str(alloc, word)?)?;
    }
    Ok(words)
}

fn class_file(alloc: Global) -> Result<(String, Vec<u8>), AllocError> {
    let bytes = Vec::from_slice(alloc, float())?;
    Ok((String::from_str(alloc, "C.class")?, bytes))
}

fn files(alloc: Global) -> Result<MemoryFiles, AllocError> {
    let mut held = Vec::new(alloc);
    held.push(class_file(alloc)?)?;
    Ok(MemoryFiles::new(alloc, held, Vec::new(alloc)))
}

/// A sink that fails at these calls.
fn sink(alloc: Global, failing: &[u64]) -> Result<MemorySink, AllocError> {
    MemorySink::new(alloc, 1000, Vec::from_slice(alloc, failing)?)
}

/// Runs the program on these words beside the class. The text and the report fail at the calls that are listed.
fn run_on(
    alloc: Global,
    given: &[&str],
    text_fails: &[u64],
    report_fails: &[u64],
) -> Result<Ended, AllocError> {
    let mut text = sink(alloc, text_fails)?;
    let mut report = sink(alloc, report_fails)?;
    let status = run_into(alloc, given, &mut text, &mut report)?;
    Ok(Ended {
        status,
        text,
        report,
    })
}

fn run_into(
    alloc: Global,
    given: &[&str],
    text: &mut MemorySink,
    report: &mut MemorySink,
) -> Result<Status, AllocError> {
    let words = words(alloc, given)?;
    let mut files = files(alloc)?;
    run(alloc, words.as_slice(), &mut files, text, report)
}

/// What of this isn't how the run ended.
fn difference(ended: &Ended, status: Status, text: &str, report: &str) -> &'static str {
    if ended.status != status {
        return "status";
    }
    if ended.text.taken() != text.as_bytes() {
        return "text";
    }
    if ended.report.taken() != report.as_bytes() {
        return "report";
    }
    "none"
}

/// The texts of the first two classes that the program makes.
fn two_classes() -> &'static str {
    "// g/C0.java\npackage g;\npublic class C0 {\n    public static int m0(int p0, int p1) {\n        return (p0 + 0) * p1;\n    }\n}\n// g/C1.java\npackage g;\npublic class C1 {\n    public static int m0(int p0, int p1) {\n        return ((p0 + 1) + 8) * p1;\n    }\n}\n"
}

/// The lines on their methods that can't be printed yet.
fn four_methods() -> &'static str {
    "g/C0.m1(II)I notyet 2\ng/C0.m2(II)I notyet 1\ng/C1.m1(II)I notyet 2\ng/C1.m2(II)I notyet 1\n"
}

#[test]
fn a_text_that_fails_at_its_second_call_holds_one_line(rt: HostRuntime) -> Result<(), Fail> {
    let ended = run_on(rt.alloc(), &["C.class"], &[1], &[])?;
    let other = difference(&ended, Status::TextFault, "// C.java\n", "");
    assert_eq!(rt; other, "none");
    Ok(())
}

#[test]
fn a_report_that_fails_leaves_the_text_whole(rt: HostRuntime) -> Result<(), Fail> {
    let ended = run_on(rt.alloc(), &["C.class"], &[], &[0])?;
    let text = "// C.java\npublic class C {\n}\n";
    let other = difference(&ended, Status::ReportFault, text, "");
    assert_eq!(rt; other, "none");
    Ok(())
}

#[test]
fn a_text_that_fails_at_the_count_of_methods_holds_the_classes(
    rt: HostRuntime,
) -> Result<(), Fail> {
    let ended = run_on(rt.alloc(), &["--make", "2"], &[4], &[])?;
    let other = difference(&ended, Status::TextFault, two_classes(), four_methods());
    assert_eq!(rt; other, "none");
    Ok(())
}
