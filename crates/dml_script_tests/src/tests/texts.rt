//! The texts of answers, jobs and errors.

use super::expect_same;
use dml_script::{
    Item, Kind, RunFault, ScriptFault, Shown, TextError, job_text, out_text, push_byte,
};
use dml_types::{BatchRecord, Job, Record, Status};
use std::alloc::{AllocError, Global};
use std::fmt::Display;
use std::process::Abort;
use std::test::Fail;

/// A record whose fields are wide.
const WIDE_RECORD: Record = Record {
    status: Status::RangePast,
    result: 2,
    completed: 4_294_967_295,
    fault: 18_446_744_073_709_551_615,
    delta_size: 20,
};

/// Compares the line of an item.
fn expect_line(rt: &impl Abort, alloc: Global, item: &Item, line: &str) -> Result<(), TextError> {
    let text = out_text(alloc, item)?;
    expect_same(rt, &"a line", &text.as_str(), &line);
    Ok(())
}

/// Four bytes that are shown, one of them of an absent page.
fn shown(alloc: Global) -> Result<Item, AllocError> {
    let mut list = Vec::new(alloc);
    for byte in [Some(0x00), None, Some(0x9a), Some(0xff)] {
        list.push(byte)?;
    }
    Ok(Item::Show {
        addr: 4088,
        bytes: Shown { list },
    })
}

#[test]
fn lines_of_an_answer(rt: HostRuntime) -> Result<(), Fail> {
    let job = Item::Job {
        number: 1023,
        answer: WIDE_RECORD,
    };
    let batch = Item::Batch {
        answer: BatchRecord {
            status: Status::BatchFailed,
            completed: 3,
        },
    };
    let job_line =
        "job 1023 status 7d result 2 completed 4294967295 fault 18446744073709551615 delta 20\n";
    expect_line(&rt, rt.alloc(), &job, job_line)?;
    expect_line(&rt, rt.alloc(), &batch, "batch status 05 completed 3\n")?;
    let show = shown(rt.alloc())?;
    expect_line(&rt, rt.alloc(), &show, "show 4088 00--9aff\n")?;
    Ok(())
}

/// Compares the fields of a job.
fn expect_fields(
    rt: &impl Abort,
    alloc: Global,
    name: &str,
    job: &Job,
    line: &str,
) -> Result<(), TextError> {
    let text = job_text(alloc, job)?;
    expect_same(rt, &name, &text.as_str(), &line);
    Ok(())
}

#[test]
fn fields_of_jobs(rt: HostRuntime) -> Result<(), Fail> {
    let wide = Job {
        opcode: 0xff,
        flags: 0x1234_5678,
        source: 1,
        target: 18_446_744_073_709_551_615,
        size: 4_294_967_295,
        extra: 2,
        delta_size: 3,
        expected: 255,
    };
    for (name, job, line) in [
        (
            "move_descriptor",
            Job::move_bytes(4096, 8192, 100).with_flags(0x0c),
            "opcode 03 flags 00000c source 4096 target 8192 size 100 extra 0 delta 0 expected 0",
        ),
        (
            "bad_opcode_descriptor",
            Job {
                opcode: 0x10,
                ..Job::no_op()
            },
            "opcode 10 flags 000000 source 0 target 0 size 0 extra 0 delta 0 expected 0",
        ),
        (
            "a job whose flags are wider than a descriptor's",
            wide,
            "opcode ff flags 12345678 source 1 target 18446744073709551615 size 4294967295 extra 2 delta 3 \
             expected 255",
        ),
    ] {
        expect_fields(&rt, rt.alloc(), name, &job, line)?;
    }
    Ok(())
}

#[test]
fn bytes_in_hexadecimal(rt: HostRuntime) -> Result<(), Fail> {
    let mut text = String::new(rt.alloc());
    for byte in [0x00, 0x0a, 0x7d, 0xf0, 0xff] {
        push_byte(&mut text, byte)?;
    }
    assert_eq!(rt; text.as_str(), "000a7df0ff");
    Ok(())
}

/// Compares the text of an error.
fn expect_text(
    rt: &impl Abort,
    alloc: Global,
    error: &impl Display,
    text: &str,
) -> Result<(), AllocError> {
    let shown = format!(in alloc; "{error}")?;
    expect_same(rt, &"an error", &shown.as_str(), &text);
    Ok(())
}

#[test]
fn error_texts(rt: HostRuntime) -> Result<(), Fail> {
    let fault = ScriptFault {
        line: 7,
        kind: Kind::BadHex,
    };
    let bad_hex = "line 7: not hexadecimal text of the right length";
    for (error, text) in [
        (RunFault::Script(fault), bad_hex),
        (RunFault::Read, "cannot read the script"),
        (RunFault::TooLong, "the script is too long"),
        (RunFault::NoMemory, "out of memory"),
        (RunFault::Write, "cannot write the answer"),
    ] {
        expect_text(&rt, rt.alloc(), &error, text)?;
    }
    expect_text(&rt, rt.alloc(), &TextError::NoMemory, "out of memory")?;
    Ok(())
}
