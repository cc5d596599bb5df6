//! A call whose growths of memory are refused: the next line of a script.

use dml_grammar::{Line, ScriptLines, read_script};
use std::alloc::Global;
use std::process::Abort;
use std::test::Fail;

const SCRIPT: &[u8] = b"image 2\npage 0 0102\npoke 1 03\nnoop\nshow 0 2\n";

/// The lines that are read from the script.
fn lines_of<'a>(alloc: Global) -> Option<ScriptLines<'a>> {
    Some(read_script(alloc, SCRIPT).ok()?.lines(alloc))
}

#[test]
fn set_up_of_next_line(rt: HostRuntime) -> Result<(), Fail> {
    let _lines = lines_of(rt.alloc()).ok_or("no memory")?;
    Ok(())
}

/// Where memory is refused, the same line is still the next: read again, all five come.
#[test]
fn refused_next_line(rt: HostRuntime) -> Result<(), Fail> {
    let mut lines = lines_of(rt.alloc()).ok_or("no memory")?;
    for number in 0..5 {
        let read = lines.next_line(rt.alloc());
        let line = read.or_else(|_| lines.next_line(rt.alloc()))?;
        assert!(rt; line.is_some_and(|line| is_line(number, &line)), "{number}");
    }
    assert!(rt; matches!(lines.next_line(rt.alloc()), Ok(None)));
    Ok(())
}

/// Whether a line is that of its number.
fn is_line(number: u32, line: &Line) -> bool {
    match line {
        Line::Image { pages } => number == 0 && *pages == 2,
        Line::Page { page, bytes } => number == 1
            && *page == 0
            && bytes.list.as_slice() == [1, 2].as_slice(),
        Line::Poke { addr, bytes } => number == 2
            && *addr == 1
            && bytes.list.as_slice() == [3].as_slice(),
        Line::Job(_) => number == 3,
        Line::Show { addr, len } => number == 4 && *addr == 0 && *len == 2,
        Line::Batch | Line::End => false,
    }
}
