//! Moves that are one copy, from page to page, two copies of one page, and fills within a page: which go, and what they
//! leave; and parts of pages that are looked at.

use super::{image_with, moved, some_bytes};
use dml_image::{Image, Lent, Segment, Whole, are_segments};
use dml_types::Direction;
use std::process::Abort;
use std::test::Fail;

/// Source, target and length, and whether the move goes, in three pages that are present and a fourth that is absent.
const ROWS: [(u64, u64, u32, bool); 24] = [
    (0, 4096, 4096, true),
    (8192, 0, 4096, true),
    (4096, 4096, 4096, false), // more bytes than are held, over themselves
    (10, 20, 8, true),
    (20, 10, 8, true),
    (100, 100, 64, true),
    (0, 32, 64, true),
    (33, 1, 65, true),
    (7, 107, 200, true),
    (0, 255, 256, true),
    (255, 0, 256, true),
    (0, 256, 257, false),
    (256, 0, 257, false),
    (0, 257, 257, true),
    (4095, 8191, 1, true),
    (4095, 0, 2, false), // over an edge
    (0, 4095, 2, false),
    (1, 4096, 4096, false),
    (12_288, 0, 8, false), // absent
    (0, 12_288, 8, false),
    (12_287, 12_288, 1, false),
    (0, 1 << 44, 8, false), // past the last page
    (u64::MAX, 0, 1, false),
    (0, 0, 0, false),
];

/// Tries a row, and checks the bytes of the first three pages.
fn expect_row(rt: &impl Abort, image: &mut Image, row: (u64, u64, u32, bool)) {
    let (source, target, len, goes) = row;
    let before = some_bytes();
    assert!(rt; image.first_absent(0, 12_288, Direction::Forward).is_none());
    image.write(0, &before);
    assert_eq!(rt; image.move_in_page(source, target, len), goes, "{row:?}");
    let wanted = if goes {
        moved(rt, &before, (source, target, len))
    } else {
        before
    };
    let mut after = [0; 12_288];
    assert!(rt; image.first_absent(0, 12_288, Direction::Forward).is_none());
    image.read_into(0, &mut after);
    assert!(rt; after == wanted, "{row:?}");
}

/// Source, both targets and length of two copies, and whether they go, in the same pages.
const TWICE: [(u64, u64, u64, u32, bool); 16] = [
    (0, 4096, 8192, 4096, true),
    (8192, 0, 4096, 4096, true),
    (10, 20, 4116, 8, true),
    (100, 100, 164, 64, true),
    (0, 255, 4096, 256, true), // the second copy reads what the first wrote
    (4096, 0, 4351, 256, true),
    (0, 256, 4096, 257, false), // more bytes than are held, over themselves
    (0, 4096, 256, 257, false),
    (4095, 0, 8192, 2, false), // over an edge
    (0, 4095, 8192, 2, false),
    (0, 4096, 8191, 2, false),
    (12_288, 0, 4096, 8, false), // absent
    (0, 12_288, 4096, 8, false),
    (0, 4096, 12_288, 8, false),
    (0, 4096, u64::MAX, 1, false), // past the last page
    (0, 0, 0, 0, false),
];

/// Tries two copies, and checks the bytes of the first three pages.
fn expect_copies(rt: &impl Abort, image: &mut Image, row: (u64, u64, u64, u32, bool)) {
    let (source, first, second, len, goes) = row;
    let before = some_bytes();
    assert!(rt; image.first_absent(0, 12_288, Direction::Forward).is_none());
    image.write(0, &before);
    let went = image.copy_twice_in_page(source, first, second, len);
    assert_eq!(rt; went, goes, "{row:?}");
    let wanted = if goes {
        let once = moved(rt, &before, (source, first, len));
        moved(rt, &once, (source, second, len))
    } else {
        before
    };
    let mut after = [0; 12_288];
    assert!(rt; image.first_absent(0, 12_288, Direction::Forward).is_none());
    image.read_into(0, &mut after);
    assert!(rt; after == wanted, "{row:?}");
}

/// Target and length of a fill, and whether it goes, in the same pages.
const FILLS: [(u64, u32, bool); 11] = [
    (0, 4096, true),
    (4096, 8, true),
    (100, 13, true),
    (8191, 1, true),
    (8191, 2, false), // over an edge
    (1, 4096, false),
    (4096, 0, true),
    (12_288, 8, false), // absent
    (12_288, 0, false),
    (1 << 44, 8, false), // past the last page
    (u64::MAX, 1, false),
];

/// Tries a fill, and checks the bytes of the first three pages.
fn expect_fill(rt: &impl Abort, image: &mut Image, row: (u64, u32, bool)) {
    let (target, len, goes) = row;
    let mut wanted = some_bytes();
    assert!(rt; image.first_absent(0, 12_288, Direction::Forward).is_none());
    image.write(0, &wanted);
    let went = image.fill_in_page(target, len, 0x0807_0605_0403_0201);
    assert_eq!(rt; went, goes, "{row:?}");
    if goes {
        let (from, count) = (target as usize, len as usize);
        assert!(rt; from <= 12_288 && count <= 12_288 - from);
        for (k, byte) in wanted[from..from + count].iter_mut().enumerate() {
            *byte = (k % 8) as u8 + 1;
        }
    }
    let mut after = [0; 12_288];
    assert!(rt; image.first_absent(0, 12_288, Direction::Forward).is_none());
    image.read_into(0, &mut after);
    assert!(rt; after == wanted, "{row:?}");
}

/// Address and length of a part, and how many bytes it has; none where the byte there is absent.
const PARTS: [(u64, u32, Option<usize>); 8] = [
    (0, 10, Some(10)),
    (4090, 10, Some(6)),
    (4095, 1, Some(1)),
    (8192, 9000, Some(4096)),
    (8191, 0, Some(0)),
    (12_288, 4, None),
    (1 << 44, 4, None),
    (u64::MAX, 1, None),
];

/// Looks at a part, and checks its bytes.
fn expect_part(rt: &impl Abort, image: &mut Image, row: (u64, u32, Option<usize>)) {
    let (addr, len, wanted) = row;
    let before = some_bytes();
    assert!(rt; image.first_absent(0, 12_288, Direction::Forward).is_none());
    image.write(0, &before);
    let part = image.present_part(addr, len);
    assert_eq!(rt; part.map(|part| part.len()), wanted, "{row:?}");
    if let Some(part) = part {
        let from = addr as usize;
        assert!(rt; from <= 12_288 && part.len() <= 12_288 - from);
        assert!(rt; part == &before[from..from + part.len()], "{row:?}");
    }
}

/// Tries all rows.
fn expect_all(rt: &impl Abort, image: &mut Image) {
    for row in ROWS {
        expect_row(rt, image, row);
    }
    for row in TWICE {
        expect_copies(rt, image, row);
    }
    for row in FILLS {
        expect_fill(rt, image, row);
    }
    for row in PARTS {
        expect_part(rt, image, row);
    }
}

#[test]
fn moves_from_page_to_page(rt: HostRuntime) -> Result<(), Fail> {
    let mut own = image_with(rt.alloc(), 4, &[0, 1, 2])?;
    let mut content = [0; 16_384];
    let mut lent = Lent::new(&[true, true, true, false], &mut content);
    assert!(rt; lent.is_memory());
    let mut over = lent.take();
    let mut bytes = [0; 12_288];
    let (low, high) = bytes.split_at_mut(4096);
    let mut segments = Vec::new(rt.alloc());
    segments.push(Segment::new(0, low))?;
    segments.push(Segment::new(1, high))?;
    assert!(rt; are_segments(&segments));
    let mut pieces = Image::over_segments(segments);
    let mut piece = [0; 12_288];
    let mut whole = Whole::new(&mut piece);
    assert!(rt; whole.is_memory());
    let mut in_one_piece = whole.take();
    expect_all(&rt, &mut own);
    expect_all(&rt, &mut over);
    expect_all(&rt, &mut pieces);
    expect_all(&rt, &mut in_one_piece);
    Ok(())
}
