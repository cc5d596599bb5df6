//! More calls whose growths of memory are refused: those that read and judge a whole command line.

use dml_command::{LineRefusal, Request, parse_arguments, parse_words, read_request};
use dml_types::Settings;
use std::alloc::{AllocError, Global};
use std::process::Abort;
use std::test::Fail;

// The refused_* below hold whichever growth is refused: they are also run with each refused in turn, from the first one
// behind those that their set-up takes.

static WORDS: [&str; 4] = ["dmljob", "run", "--workers=3", "--chunk=8"];

/// The request of the words above, or want of memory.
fn request_or_refused(rt: &impl Abort, asked: Result<Request, LineRefusal>) {
    match asked {
        Ok(request) => {
            let settings = Settings {
                staging: 1_048_576,
                chunk: 8,
                workers: 3,
            };
            assert!(rt; request == Request::Run(settings));
        }
        Err(refusal) => assert!(rt; matches!(&refusal, LineRefusal::NoMemory)),
    }
}

#[test]
fn refused_parse_words(rt: HostRuntime) {
    let asked = parse_words(rt.alloc(), WORDS.as_slice());
    request_or_refused(&rt, asked);
}

/// The words as the runtime gives them.
fn arguments(alloc: Global) -> Result<Vec<String>, AllocError> {
    let mut list = Vec::new(alloc);
    for word in WORDS {
        let mut argument = String::new(alloc);
        argument.push_str(word)?;
        list.push(argument)?;
    }
    Ok(list)
}

#[test]
fn set_up_of_parse_arguments(rt: HostRuntime) -> Result<(), Fail> {
    assert_eq!(rt; arguments(rt.alloc())?.len(), 4);
    Ok(())
}

#[test]
fn refused_parse_arguments(rt: HostRuntime) -> Result<(), Fail> {
    let list = arguments(rt.alloc())?;
    let asked = parse_arguments(rt.alloc(), &list);
    request_or_refused(&rt, asked);
    Ok(())
}

#[test]
fn refused_read_request(rt: HostRuntime) -> Result<(), Fail> {
    let list = arguments(rt.alloc())?;
    let asked = read_request(rt.alloc(), Ok(list));
    request_or_refused(&rt, asked);
    Ok(())
}
