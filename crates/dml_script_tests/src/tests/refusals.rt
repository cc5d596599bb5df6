//! Calls whose growths of memory are refused.

use super::streams::Paper;
use super::{FILL, FILL_ANSWER, run_into};
use dml_script::{Item, RunFault, Shown, TextError, job_text, out_text};
use dml_types::Job;
use std::alloc::{AllocError, Global};
use std::test::Fail;

// The tests below hold whichever growth is refused: the answer is the right one, or want of memory with what that
// leaves.

/// What the shown bytes of the test below are.
fn three_bytes(alloc: Global) -> Result<Vec<Option<u8>>, AllocError> {
    let mut list = Vec::new(alloc);
    for byte in [Some(0x5a), None, Some(0xc3)] {
        list.push(byte)?;
    }
    Ok(list)
}

#[test]
fn set_up_of_out_text(rt: HostRuntime) -> Result<(), Fail> {
    let _list = three_bytes(rt.alloc())?;
    Ok(())
}

#[test]
fn refused_out_text(rt: HostRuntime) {
    let Ok(list) = three_bytes(rt.alloc()) else {
        return;
    };
    match out_text(
        rt.alloc(),
        &Item::Show {
            addr: 7,
            bytes: Shown { list },
        },
    ) {
        Ok(text) => assert_eq!(rt; text.as_str(), "show 7 5a--c3\n"),
        Err(error) => assert_eq!(rt; error, TextError::NoMemory),
    }
}

#[test]
fn refused_job_text(rt: HostRuntime) {
    match job_text(rt.alloc(), &Job::fill(1, 2, 3)) {
        Ok(text) => assert_eq!(rt;
            text.as_str(),
            "opcode 04 flags 000000 source 1 target 2 size 3 extra 0 delta 0 expected 0"
        ),
        Err(error) => assert_eq!(rt; error, TextError::NoMemory),
    }
}

#[test]
fn refused_run_script(rt: HostRuntime) {
    let paper = Paper::new(256, true);
    let (outcome, writer) = run_into(&rt, rt.alloc(), FILL.as_bytes(), paper);
    let paper = writer.into_inner();
    match outcome {
        Ok(()) => assert!(rt; paper.holds(FILL_ANSWER.as_bytes())),
        Err(fault) => {
            assert_eq!(rt; fault, RunFault::NoMemory);
            let front = FILL_ANSWER.as_bytes().get(..paper.len).unwrap_or(b"none");
            assert!(rt; paper.holds(front));
        }
    }
}
