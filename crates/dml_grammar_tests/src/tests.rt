//! Scripts and their faults. The expected values are the format's.

mod growths;

use dml_grammar::{
    Kind, Line, MAX_SCRIPT, Script, ScriptError, ScriptFault, fault_text, read_script,
};
use std::alloc::{AllocError, Global};
use std::process::Abort;
use std::test::Fail;

/// The line and the kind of a text's first fault; None where it is a script.
fn first_fault(rt: &impl Abort, alloc: Global, text: &[u8]) -> Option<(u32, Kind)> {
    assert!(rt; text.len() <= 4_194_304);
    match read_script(alloc, text) {
        Ok(_) => None,
        Err(ScriptError::Fault(fault)) => Some((fault.line, fault.kind)),
        Err(ScriptError::NoMemory) => panic!(rt; "out of memory"),
    }
}

/// The lines of a script.
fn lines_of(alloc: Global, script: &Script<'_>) -> Result<Vec<Line>, AllocError> {
    let mut lines = Vec::new(alloc);
    let mut left = script.lines(alloc);
    for _ in 0..=MAX_SCRIPT {
        let Some(line) = left.next_line(alloc)? else {
            break;
        };
        lines.push(line)?;
    }
    Ok(lines)
}

/// Texts with one fault, the line and the kind of it: one for each kind that a short text can have.
static FAULTS: [(&[u8], u32, Kind); 11] = [
    (b"image 1\nnoop\xc3\xa9", 2, Kind::NotAscii),
    (b"image 1\nNOOP", 2, Kind::UnknownWord),
    (b"# first\n\n \t\npage 0\nimage 1", 4, Kind::MissingImage),
    (b"image 1\nnoop\nimage 1", 3, Kind::SecondImage),
    (b"image 1\nbatch\nshow 0 1\nend", 3, Kind::InBatch),
    (b"image 1\nbatch\nend\nend", 4, Kind::StrayEnd),
    (b"image 1\nmove 0 0", 2, Kind::WrongWords),
    (b"image 1\nfill 0 0 4294967296", 2, Kind::BadNumber),
    (b"image 1\nraw 00", 2, Kind::BadHex),
    (b"image 2\npage 0\npoke 4095 0102", 3, Kind::BadRange),
    (b"image 1\nbatch\nnoop", 2, Kind::OpenBatch),
];

/// Compares a text's first fault.
fn expect_fault(rt: &impl Abort, alloc: Global, text: &[u8], line: u32, kind: Kind) {
    assert_eq!(rt;
        first_fault(rt, alloc, text),
        Some((line, kind)),
        "at {kind:?}"
    );
}

/// Many copies of a piece behind a front.
fn with_copies(
    alloc: Global,
    front: &[u8],
    piece: &[u8],
    copies: u32,
) -> Result<Vec<u8>, AllocError> {
    let mut text = Vec::from_slice(alloc, front)?;
    for _ in 0..copies {
        text.extend_from_slice(piece)?;
    }
    Ok(text)
}

/// The tables of texts with a fault are in `tests/rows` at the top, where the program is run on them.
#[test]
fn each_kind_of_fault(rt: HostRuntime) -> Result<(), Fail> {
    for (text, line, kind) in &FAULTS {
        expect_fault(&rt, rt.alloc(), text, *line, *kind);
    }
    let long_line = with_copies(rt.alloc(), b"image 1\nnoop", b" ", 16_381)?;
    expect_fault(&rt, rt.alloc(), long_line.as_slice(), 2, Kind::LongLine);
    let too_many = with_copies(rt.alloc(), b"image 1\nbatch\n", b"noop\n", 1025)?;
    expect_fault(
        &rt,
        rt.alloc(),
        too_many.as_slice(),
        1027,
        Kind::TooManyJobs,
    );
    Ok(())
}

/// A script with a line of each kind.
const EACH_LINE: &[u8] =
    b"image 4096\npage 4095 00fF\npage 0\npoke 4094 0102\nnoop flags 0x10\nfill 0x0807 4090 12\nshow 4088 65536\n\
      raw 000000000C00000400000000000000000010000000000000002000000000000064000000000000000000000000000000000000000\
      00000000000000000000000\nmove 1 2 3 flags 4\ndualcast 1 2 0xffffffffffffffff 0xffffffff flags 0xffffff\n\
      dualcast 4 3 2 1\ncompare 1 2 3\ncompare 1 2 3 check 255 flags 0x100\ncompare-pattern 1 0x0807 3 check 0\n\
      create 1 2 3 4 5 flags 0x80\ncreate 1 2 3 4 5 check 2 flags 0xffff7f\napply 1 2 3 4 flags 2\nbatch\nnoop\n\
      end\n";

#[test]
fn each_line_is_read(rt: HostRuntime) -> Result<(), Fail> {
    let lines = [
        "Image { pages: 4096 }",
        "Page { page: 4095, bytes: Bytes { list: [0, 255] } }",
        "Page { page: 0, bytes: Bytes { list: [] } }",
        "Poke { addr: 4094, bytes: Bytes { list: [1, 2] } }",
        "Job(Job { opcode: 0, flags: 16, source: 0, target: 0, size: 0, extra: 0, delta_size: 0, expected: 0 })",
        "Job(Job { opcode: 4, flags: 0, source: 2055, target: 4090, size: 12, extra: 0, delta_size: 0, expected: 0 })",
        "Show { addr: 4088, len: 65536 }",
        "Job(Job { opcode: 4, flags: 12, source: 4096, target: 8192, size: 100, extra: 0, \
         delta_size: 0, expected: 0 })",
        "Job(Job { opcode: 3, flags: 4, source: 1, target: 2, size: 3, extra: 0, delta_size: 0, expected: 0 })",
        "Job(Job { opcode: 9, flags: 16777215, source: 1, target: 2, size: 4294967295, extra: 18446744073709551615, \
         delta_size: 0, expected: 0 })",
        "Job(Job { opcode: 9, flags: 0, source: 4, target: 3, size: 1, extra: 2, delta_size: 0, expected: 0 })",
        "Job(Job { opcode: 5, flags: 0, source: 1, target: 2, size: 3, extra: 0, delta_size: 0, expected: 0 })",
        "Job(Job { opcode: 5, flags: 384, source: 1, target: 2, size: 3, extra: 0, delta_size: 0, expected: 255 })",
        "Job(Job { opcode: 6, flags: 128, source: 1, target: 2055, size: 3, extra: 0, delta_size: 0, expected: 0 })",
        "Job(Job { opcode: 7, flags: 128, source: 1, target: 2, size: 3, extra: 4, delta_size: 5, expected: 0 })",
        "Job(Job { opcode: 7, flags: 16777215, source: 1, target: 2, size: 3, extra: 4, delta_size: 5, expected: 2 })",
        "Job(Job { opcode: 8, flags: 2, source: 1, target: 3, size: 4, extra: 0, delta_size: 2, expected: 0 })",
        "Batch",
        "Job(Job { opcode: 0, flags: 0, source: 0, target: 0, size: 0, extra: 0, delta_size: 0, expected: 0 })",
        "End",
    ];
    let Ok(script) = read_script(rt.alloc(), EACH_LINE) else {
        panic!(rt; "not read");
    };
    let found = lines_of(rt.alloc(), &script)?;
    assert_eq!(rt; found.len(), lines.len());
    for (line, expected) in found.iter().zip(lines) {
        let shown = format!(in rt.alloc(); "{line:?}")?;
        assert_eq!(rt; shown.as_str(), expected);
    }
    Ok(())
}

#[test]
fn error_texts(rt: HostRuntime) -> Result<(), Fail> {
    let fault = ScriptFault {
        line: 7,
        kind: Kind::BadHex,
    };
    let bad_hex = "line 7: not hexadecimal text of the right length";
    for (error, text) in [
        (ScriptError::Fault(fault), bad_hex),
        (ScriptError::NoMemory, "out of memory"),
    ] {
        assert_eq!(rt; format!(in rt.alloc(); "{error}")?.as_str(), text);
    }
    Ok(())
}

/// Behind its last line a script has none, however often it is asked.
#[test]
fn no_line_behind_the_last(rt: HostRuntime) -> Result<(), Fail> {
    let Ok(script) = read_script(rt.alloc(), b"image 1\n# none\n\n") else {
        panic!(rt; "not read");
    };
    let mut lines = script.lines(rt.alloc());
    assert!(rt; lines.next_line(rt.alloc())?.is_some());
    for _ in 0..3 {
        assert!(rt; lines.next_line(rt.alloc())?.is_none());
    }
    Ok(())
}

#[test]
fn fault_texts(rt: HostRuntime) {
    for (kind, text) in [
        (Kind::LongLine, "the line is too long"),
        (Kind::NotAscii, "the line is not ASCII text"),
        (Kind::UnknownWord, "unknown word"),
        (
            Kind::MissingImage,
            "the script must begin with an image line",
        ),
        (Kind::SecondImage, "a second image line"),
        (Kind::InBatch, "this line may not stand in a batch"),
        (Kind::StrayEnd, "no batch is open"),
        (Kind::TooManyJobs, "the batch has too many jobs"),
        (Kind::WrongWords, "wrong number or kind of words"),
        (Kind::BadNumber, "not a number of the right size"),
        (Kind::BadHex, "not hexadecimal text of the right length"),
        (Kind::BadRange, "out of range"),
        (Kind::OpenBatch, "the batch has no end"),
    ] {
        assert_eq!(rt; fault_text(kind), text);
    }
}

/// It holds whichever growth is refused: the answer is the right one, or want of memory.
#[test]
fn refused_read_script(rt: HostRuntime) {
    match read_script(
        rt.alloc(),
        b"image 2\npage 0 0102\npoke 1 03\nnoop\nshow 0 2",
    ) {
        Ok(script) => {
            let mut lines = script.lines(rt.alloc());
            for _ in 0..5 {
                let Ok(line) = lines.next_line(rt.alloc()) else {
                    return;
                };
                assert!(rt; line.is_some());
            }
            assert!(rt; matches!(lines.next_line(rt.alloc()), Ok(None)));
        }
        Err(error) => assert_eq!(rt; error, ScriptError::NoMemory),
    }
}
