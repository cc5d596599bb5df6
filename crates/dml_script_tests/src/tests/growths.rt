//! More calls whose growths of memory are refused: the lines of a job and of a batch.

use dml_script::{Item, TextError, out_text, push_byte};
use dml_types::{BatchRecord, Record, Status};
use std::alloc::Global;
use std::process::Abort;

// The tests below hold whichever growth is refused: the answer is the right one, or want of memory.

/// The text of an item, or want of memory.
fn text_or_refused(rt: &impl Abort, alloc: Global, item: &Item, want: &str) {
    match out_text(alloc, item) {
        Ok(text) => assert_eq!(rt; text.as_str(), want),
        Err(error) => assert_eq!(rt; error, TextError::NoMemory),
    }
}

#[test]
fn refused_out_text_of_a_job(rt: HostRuntime) {
    let answer = Record {
        status: Status::WriteFault,
        result: 1,
        completed: 4,
        fault: 12_287,
        delta_size: 0,
    };
    let item = Item::Job { number: 7, answer };
    let want = "job 7 status 83 result 1 completed 4 fault 12287 delta 0\n";
    text_or_refused(&rt, rt.alloc(), &item, want);
}

#[test]
fn refused_out_text_of_a_batch(rt: HostRuntime) {
    let answer = BatchRecord {
        status: Status::BatchFailed,
        completed: 3,
    };
    let want = "batch status 05 completed 3\n";
    text_or_refused(&rt, rt.alloc(), &Item::Batch { answer }, want);
}

/// Both digits, or the text as it was.
#[test]
fn refused_push_byte(rt: HostRuntime) {
    let mut text = String::new(rt.alloc());
    let want = match push_byte(&mut text, 0x7d) {
        Ok(()) => "7d",
        Err(_) => "",
    };
    assert_eq!(rt; text.as_str(), want);
}
