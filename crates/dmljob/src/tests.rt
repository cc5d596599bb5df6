use crate::descriptions::description;
use crate::refusals::{Refusal, status_of};
use dml_command::LineRefusal;
use dml_script::{Kind, ScriptFault};
use std::alloc::Global;
use std::process::Abort;
use std::test::Fail;

fn fault(line: u32, kind: Kind) -> Refusal {
    Refusal::Script(ScriptFault { line, kind })
}

/// Compares how the program ends for each refusal of a table: its exit status and its text.
fn expect_endings(
    rt: &impl Abort,
    alloc: Global,
    rows: &[(Refusal, u8, &str)],
) -> Result<(), Fail> {
    for (refusal, status, text) in rows {
        assert_eq!(rt; status_of(refusal), *status);
        assert_eq!(rt; refusal.to_string(alloc)?.as_str(), *text);
    }
    Ok(())
}

#[test]
fn statuses_of_words(rt: HostRuntime) -> Result<(), Fail> {
    let table = [
        (
            Refusal::Line(LineRefusal::NotText),
            3,
            "dmljob: an argument is not UTF-8 text\n",
        ),
        (
            Refusal::Line(LineRefusal::Settings),
            3,
            "dmljob: the settings are out of range\n",
        ),
        (
            Refusal::Line(LineRefusal::NotHex),
            3,
            "dmljob: not 64 bytes of hex\n",
        ),
        (
            Refusal::Line(LineRefusal::NoMemory),
            4,
            "dmljob: out of memory\n",
        ),
    ];
    expect_endings(&rt, rt.alloc(), &table)
}

#[test]
fn statuses_of_runs(rt: HostRuntime) -> Result<(), Fail> {
    let table = [
        (
            fault(3, Kind::WrongWords),
            2,
            "dmljob: line 3: wrong number or kind of words\n",
        ),
        (
            fault(4_194_305, Kind::BadHex),
            2,
            "dmljob: line 4194305: not hexadecimal text of the right length\n",
        ),
        (Refusal::TooLong, 2, "dmljob: the script is too long\n"),
        (Refusal::NoMemory, 4, "dmljob: out of memory\n"),
        (Refusal::Read, 4, "dmljob: cannot read the script\n"),
        (Refusal::Write, 4, "dmljob: cannot write the answer\n"),
    ];
    expect_endings(&rt, rt.alloc(), &table)
}

const MOVE: &str =
    "opcode 03 flags 00000c source 4096 target 8192 size 100 extra 0 delta 0 expected 0
check accepted need 100
";

// The bytes of a descriptor that are not 0.
fn descriptor(known: &[(usize, u8)]) -> [u8; 64] {
    let mut bytes = [0; 64];
    for (place, byte) in known {
        if let Some(there) = bytes.get_mut(*place) {
            *there = *byte;
        }
    }
    bytes
}

#[test]
fn describes_descriptors(rt: HostRuntime) -> Result<(), Fail> {
    let moved = descriptor(&[(4, 0x0c), (7, 3), (17, 16), (25, 32), (32, 100)]);
    assert_eq!(rt; description(rt.alloc(), &moved)?.as_str(), MOVE);
    let created = descriptor(&[
        (4, 0x80),
        (7, 7),
        (24, 64),
        (32, 32),
        (40, 128),
        (48, 20),
        (56, 2),
    ]);
    assert_eq!(rt;
        description(rt.alloc(), &created)?.as_str(),
        "opcode 07 flags 000080 source 0 target 64 size 32 extra 128 delta 20 expected 2\ncheck accepted need 40\n"
    );
    let unknown = descriptor(&[(7, 0x10)]);
    assert_eq!(rt;
        description(rt.alloc(), &unknown)?.as_str(),
        "opcode 10 flags 000000 source 0 target 0 size 0 extra 0 delta 0 expected 0\ncheck refused 10\n"
    );
    Ok(())
}

// Also run with each of its growths refused: it takes the right answer, or want of memory.
#[test]
fn refused_description(rt: HostRuntime) {
    let moved = descriptor(&[(4, 0x0c), (7, 3), (17, 16), (25, 32), (32, 100)]);
    if let Ok(text) = description(rt.alloc(), &moved) {
        assert_eq!(rt; text.as_str(), MOVE);
    }
}
