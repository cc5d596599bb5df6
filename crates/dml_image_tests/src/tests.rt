mod holes;
mod in_page;
mod segments;

ghost use Rattle.std.specs.Prelude.{◌≡◌};

use dml_image::{Image, ImageError, Lent, Segment, Whole, are_segments};
use dml_types::Direction;
use std::alloc::Global;
use std::process::Abort;
use std::test::Fail;

/// An image of `pages` pages, those of `brought` present and full of 0.
fn image_with(alloc: Global, pages: u32, brought: &[u32]) -> Result<Image<'static>, ImageError> {
    let mut image = Image::new(alloc, pages)?;
    for page in brought {
        bring_full(&mut image, *page, 0)?;
    }
    Ok(image)
}

/// Brings a page full of one byte.
fn bring_full(image: &mut Image, page: u32, byte: u8) -> Result<(), ImageError>
    ensures home { image.new.home ≡ image.old.home }
    ensures loan { image.new.loan ≡ image.old.loan }
{
    match image.bring(page, &[byte; 4096]) {
        Ok(()) => Ok(()),
        Err(error) => Err(error),
    }
}

/// Brings a page full of one byte, and checks the answer.
fn expect_bring(
    rt: &impl Abort,
    image: &mut Image,
    page: u32,
    byte: u8,
    answer: Result<(), ImageError>,
)
    ensures home { image.new.home ≡ image.old.home }
    ensures loan { image.new.loan ≡ image.old.loan }
{
    assert_eq!(rt; bring_full(image, page, byte), answer, "page {page}");
}

/// Checks the number of pages.
fn expect_pages(rt: &impl Abort, image: &Image, pages: u32) {
    assert_eq!(rt; image.pages(), pages);
}

/// Checks bytes that were read.
fn expect_bytes(rt: &impl Abort, bytes: &[u8], want: &[u8]) {
    assert_eq!(rt; bytes, want);
}

/// Checks the byte at an address.
fn expect_byte(rt: &impl Abort, image: &Image, addr: u64, value: Option<u8>) {
    assert_eq!(rt; image.byte(addr), value, "byte {addr}");
}

/// Checks how many of `len` bytes come before the first absent one.
fn expect_first_absent(
    rt: &impl Abort,
    image: &Image,
    (addr, len): (u64, u32),
    direction: Direction,
    count: Option<u32>,
) {
    assert!(rt; u128::from(addr) + u128::from(len) <= 1 << 64);
    assert_eq!(rt;
        image.first_absent(addr, len, direction),
        count,
        "{len} from {addr} on, {direction:?}"
    );
}

#[test]
fn new_image_is_absent(rt: HostRuntime) -> Result<(), Fail> {
    let image = Image::new(rt.alloc(), 1)?;
    expect_pages(&rt, &image, 1);
    assert!(rt; !image.has(0));
    expect_byte(&rt, &image, 0, None);
    expect_first_absent(&rt, &image, (0, 1), Direction::Forward, Some(0));
    Ok(())
}

#[test]
fn arguments_refused(rt: HostRuntime) -> Result<(), Fail> {
    for pages in [0, 4097] {
        let refused = matches!(Image::new(rt.alloc(), pages), Err(ImageError::BadPages));
        assert!(rt; refused, "{pages} pages");
    }
    let mut image = Image::new(rt.alloc(), 1)?;
    for page in [1, u32::MAX] {
        expect_bring(&rt, &mut image, page, 7, Err(ImageError::NoSuchPage));
    }
    assert!(rt; !image.has(0));
    Ok(())
}

/// Checks the ends of an image's last page, which is full of 0x5a: it alone is present of itself and its neighbours.
fn expect_last_page(rt: &impl Abort, image: &Image, first: u64, last: u64) {
    assert!(rt; first > 0 && last < u64::MAX);
    assert!(rt; image.has(last) && !image.has(first - 1) && !image.has(last + 1));
    expect_byte(rt, image, last, Some(0x5a));
    expect_first_absent(rt, image, (first, 4097), Direction::Forward, Some(4096));
}

#[test]
fn last_page(rt: HostRuntime) -> Result<(), Fail> {
    let mut image = Image::new(rt.alloc(), 4096)?;
    bring_full(&mut image, 4095, 0x5a)?;
    expect_last_page(&rt, &image, 16_773_120, 16_777_215);
    Ok(())
}

#[test]
fn part_ends_with_its_page(rt: HostRuntime) -> Result<(), Fail> {
    let mut image = image_with(rt.alloc(), 2, &[0, 1])?;
    assert!(rt; image.first_absent(4093, 4, Direction::Forward).is_none());
    image.write(4093, &[1, 2, 3, 4]);
    assert!(rt; image.has(4093));
    expect_bytes(&rt, image.part(4093, 4), &[1, 2, 3]);
    expect_bytes(&rt, image.part(4093, 2), &[1, 2]);
    assert!(rt; image.part(4093, 0).is_empty());
    Ok(())
}

/// Writes over the edge of the first two pages, and checks what is written and the byte on each side of it.
fn write_over_edge(rt: &impl Abort, image: &mut Image, beside: u8)
    ensures home { image.new.home ≡ image.old.home }
    ensures loan { image.new.loan ≡ image.old.loan }
{
    assert!(rt; image.first_absent(4094, 4, Direction::Forward).is_none());
    image.write(4094, &[1, 2, 3, 4]);
    let mut read = [9; 6];
    assert!(rt; image.first_absent(4093, 6, Direction::Forward).is_none());
    image.read_into(4093, &mut read);
    expect_bytes(rt, &read, &[beside, 1, 2, 3, 4, beside]);
}

#[test]
fn write_over_page_edge(rt: HostRuntime) -> Result<(), Fail> {
    let mut image = image_with(rt.alloc(), 2, &[0, 1])?;
    write_over_edge(&rt, &mut image, 0);
    bring_full(&mut image, 0, 0)?;
    assert!(rt; image.first_absent(4094, 4, Direction::Forward).is_none());
    let mut read = [9; 4];
    image.read_into(4094, &mut read);
    expect_bytes(&rt, &read, &[0, 0, 3, 4]);
    Ok(())
}

/// Ranges, and how many bytes come before the first absent one, forward and backward, where pages 0, 2 and 3 of 4 are
/// present.
const RANGES: [(u64, u32, Option<u32>, Option<u32>); 21] = [
    (0, 4096, None, None),
    (0, 4097, Some(4096), Some(0)),
    (4090, 4102, Some(6), Some(0)),
    (4090, 4103, Some(6), Some(1)),
    (4090, 4112, Some(6), Some(10)),
    (4096, 1, Some(0), Some(0)),
    (4095, 1, None, None),
    (8192, 8192, None, None),
    (8191, 8193, Some(0), Some(8192)),
    (8192, 8193, Some(8192), Some(0)),
    (12280, 20, None, None),
    (5000, 3192, Some(0), Some(0)),
    (5000, 3193, Some(0), Some(1)),
    (0, 0, None, None),
    (4096, 0, None, None),
    (1 << 40, 0, None, None),
    (1 << 40, 5, Some(0), Some(0)),
    (u64::MAX, 0, None, None),
    (u64::MAX, 1, Some(0), Some(0)),
    (0xffff_ffff_ffff_fff8, 8, Some(0), Some(0)),
    (0, u32::MAX, Some(4096), Some(0)),
];

#[test]
fn first_absent_both_ways(rt: HostRuntime) -> Result<(), Fail> {
    let image = image_with(rt.alloc(), 4, &[0, 2, 3])?;
    for (addr, len, forward, backward) in RANGES {
        let range = (addr, len);
        expect_first_absent(&rt, &image, range, Direction::Forward, forward);
        expect_first_absent(&rt, &image, range, Direction::Backward, backward);
    }
    Ok(())
}

/// Byte `i` of a pattern that is repeated from its low byte on.
fn pattern_byte(pattern: u64, i: u32) -> u8 {
    pattern.to_le_bytes()[i as usize % 8]
}

/// Fills a range of two pages full of 0xee, and checks its bytes and one on each side of it.
fn expect_filled(rt: &impl Abort, image: &mut Image, addr: u64, len: u32) {
    let pattern = 0x8877_6655_4433_2211;
    assert!(rt; 0 < addr && addr < 4096);
    assert!(rt; image.first_absent(addr, len, Direction::Forward).is_none());
    image.fill(addr, len, pattern);
    expect_byte(rt, image, addr - 1, Some(0xee));
    for i in 0..len {
        let byte = pattern_byte(pattern, i);
        expect_byte(rt, image, addr + u64::from(i), Some(byte));
    }
    expect_byte(rt, image, addr + u64::from(len), Some(0xee));
}

#[test]
fn fills_over_a_page_edge(rt: HostRuntime) -> Result<(), Fail> {
    let mut image = image_with(rt.alloc(), 2, &[0, 1])?;
    for addr in 4072..4080 {
        for len in 0..40 {
            bring_full(&mut image, 0, 0xee)?;
            bring_full(&mut image, 1, 0xee)?;
            expect_filled(&rt, &mut image, addr, len);
        }
    }
    Ok(())
}

#[test]
fn empty_ranges_past_the_end(rt: HostRuntime) -> Result<(), Fail> {
    let mut image = image_with(rt.alloc(), 1, &[0])?;
    for addr in [4096, 1 << 40, u64::MAX] {
        assert!(rt; image.first_absent(addr, 0, Direction::Forward).is_none());
        image.write(addr, &[]);
        image.fill(addr, 0, 1);
        image.read_into(addr, &mut []);
        assert!(rt; !image.has(addr));
    }
    Ok(())
}

/// Whether each byte of page 0 has this value, looked at from both ends.
fn check_page(rt: &impl Abort, image: &Image, value: Option<u8>) {
    for addr in [0, 1, 4094, 4095] {
        expect_byte(rt, image, addr, value);
    }
}

/// The bytes of three pages, no two neighbours equal.
fn some_bytes() -> [u8; 12_288] {
    let mut bytes = [0; 12_288];
    for (i, byte) in bytes.iter_mut().enumerate() {
        *byte = ((i * 7 + i / 251) % 256) as u8;
    }
    bytes
}

/// Source, target and length of moves inside three pages.
const MOVES: [(u64, u64, u32); 37] = [
    (0, 0, 100),
    (10, 20, 8),
    (20, 10, 8),
    (0, 4096, 4096),
    (100, 300, 4096),
    (300, 100, 4096),
    (4000, 4100, 200),
    (4100, 4000, 200),
    (0, 1, 8000),
    (1, 0, 8000),
    (0, 6144, 6144),
    (6144, 0, 6144),
    (0, 2048, 8192),
    (2048, 0, 8192),
    (3, 258, 5000),
    (260, 3, 5000),
    (4096, 8192, 4096),
    (5, 5000, 0),
    // unaligned, over page edges
    (4095, 1, 2),
    (4095, 8191, 2),
    (8191, 4095, 2),
    (4093, 8190, 7),
    (1, 4095, 8193),
    (4095, 1, 8193),
    (4091, 4099, 8189),
    (4099, 4091, 8189),
    (7, 4101, 4096),
    (4101, 7, 4096),
    (1, 4098, 8190),
    (4098, 1, 8190),
    // of 64 bytes: whole words, unaligned, over one another, and over the edges of one page or of two
    (0, 4096, 64),
    (3, 4165, 64),
    (8, 16, 64),
    (17, 10, 64),
    (4064, 4100, 64),
    (4100, 4064, 64),
    (4065, 8150, 64),
];

/// The bytes of three pages after a move inside them, by hand.
fn moved(
    rt: &impl Abort,
    before: &[u8; 12_288],
    (source, target, len): (u64, u64, u32),
) -> [u8; 12_288] {
    let (from, to, n) = (source as usize, target as usize, len as usize);
    assert!(rt; from <= 12_288 && to <= 12_288 && n <= 12_288 - from && n <= 12_288 - to);
    let mut after = *before;
    after[to..to + n].copy_from_slice(&before[from..from + n]);
    after
}

/// Moves bytes inside an image, where they must be present.
fn move_inside(rt: &impl Abort, image: &mut Image, row: (u64, u64, u32))
    ensures home { image.new.home ≡ image.old.home }
    ensures loan { image.new.loan ≡ image.old.loan }
{
    let (source, target, len) = row;
    assert!(rt; source <= 12_288 && target <= 12_288 && len <= 12_288);
    assert!(rt;
        image
            .first_absent(source, len, Direction::Forward)
            .is_none()
    );
    assert!(rt;
        image
            .first_absent(target, len, Direction::Forward)
            .is_none()
    );
    image.move_within(source, target, len);
}

/// Moves bytes inside an image of three pages, and checks all bytes.
fn expect_moved(rt: &impl Abort, image: &mut Image, row: (u64, u64, u32)) {
    let before = some_bytes();
    assert!(rt; image.first_absent(0, 12_288, Direction::Forward).is_none());
    image.write(0, &before);
    move_inside(rt, image, row);
    let mut after = [0; 12_288];
    assert!(rt; image.first_absent(0, 12_288, Direction::Forward).is_none());
    image.read_into(0, &mut after);
    assert!(rt; after == moved(rt, &before, row), "{row:?}");
}

#[test]
fn moves_inside_own_pages(rt: HostRuntime) -> Result<(), Fail> {
    let mut image = image_with(rt.alloc(), 3, &[0, 1, 2])?;
    for row in MOVES {
        expect_moved(&rt, &mut image, row);
    }
    Ok(())
}

/// Checks whether memory may be lent with a list of which pages are present.
fn expect_lent(rt: &impl Abort, present: &[bool], content: &mut [u8], taken: bool) {
    let lent = Lent::new(present, content);
    assert_eq!(rt; lent.is_memory(), taken);
}

#[test]
fn lent_memory_that_may_be_taken(rt: HostRuntime) -> Result<(), Fail> {
    let marks = [true; 4097];
    let mut most = vec![in rt.alloc(); 0; 4096 * 4096]?;
    expect_lent(&rt, &marks[..4096], most.as_mut_slice(), true);
    let mut more = vec![in rt.alloc(); 0; 4096 * 4097]?;
    expect_lent(&rt, &marks, more.as_mut_slice(), false);
    expect_lent(&rt, &[], &mut [], false);
    expect_lent(&rt, &[true], &mut [0; 4095], false);
    let mut content = [0; 8192];
    content[4096] = 1;
    expect_lent(&rt, &[false, true], &mut content, true);
    expect_lent(&rt, &[true, false], &mut content, false);
    Ok(())
}

#[test]
fn moves_inside_lent_memory(rt: HostRuntime) {
    for row in MOVES {
        let mut content = some_bytes();
        let mut lent = Lent::new(&[true; 3], &mut content);
        assert!(rt; lent.is_memory());
        let mut image = lent.take();
        move_inside(&rt, &mut image, row);
        lent.put(image);
        drop(lent);
        assert!(rt; content == moved(&rt, &some_bytes(), row), "{row:?}");
    }
}

/// What a write over the first edge, a first page of 0, and a fill over the second edge leave of pages full of 0x11.
fn edges_written() -> [u8; 12_288] {
    let mut content = [0x11; 12_288];
    content[..4096].fill(0);
    content[4096..4098].copy_from_slice(&[3, 4]);
    content[8190..8195].copy_from_slice(&[0x11, 0x22, 0x33, 0x44, 0x55]);
    content
}

#[test]
fn write_over_page_edge_of_lent_memory(rt: HostRuntime) {
    let mut content = [0x11; 12_288];
    let mut lent = Lent::new(&[true; 3], &mut content);
    assert!(rt; lent.is_memory());
    let mut image = lent.take();
    expect_pages(&rt, &image, 3);
    write_over_edge(&rt, &mut image, 0x11);
    expect_bring(&rt, &mut image, 0, 0, Ok(()));
    assert!(rt; image.first_absent(8190, 5, Direction::Forward).is_none());
    image.fill(8190, 5, 0x8877_6655_4433_2211);
    lent.put(image);
    drop(lent);
    assert!(rt; content == edges_written());
}

/// Two pages full of 0, and one of 0x5a.
fn last_page_brought() -> [u8; 12_288] {
    let mut content = [0; 12_288];
    content[8192..].fill(0x5a);
    content
}

#[test]
fn last_page_of_lent_memory(rt: HostRuntime) {
    let mut content = [0; 12_288];
    let mut lent = Lent::new(&[false, false, true], &mut content);
    assert!(rt; lent.is_memory());
    let mut image = lent.take();
    expect_bring(&rt, &mut image, 3, 7, Err(ImageError::NoSuchPage));
    expect_bring(&rt, &mut image, 2, 0x5a, Ok(()));
    expect_last_page(&rt, &image, 8192, 12_287);
    lent.put(image);
    drop(lent);
    assert!(rt; content == last_page_brought());
}

/// No growth is refused here: lent memory has no room for a page that is absent.
#[test]
fn absent_page_of_lent_memory(rt: HostRuntime) {
    let mut content = [0; 12_288];
    let mut lent = Lent::new(&[false, false, true], &mut content);
    assert!(rt; lent.is_memory());
    let mut image = lent.take();
    expect_bring(&rt, &mut image, 1, 0x5a, Err(ImageError::NoMemory));
    assert!(rt; !image.has(4096) && !image.has(8191) && image.has(8192));
    expect_byte(&rt, &image, 8191, None);
    for (range, forward, backward) in [
        ((8190, 4), Some(0), Some(2)),
        ((8192, 4096), None, None),
        ((8192, 4097), Some(4096), Some(0)),
        ((0, 12_288), Some(0), Some(4096)),
    ] {
        expect_first_absent(&rt, &image, range, Direction::Forward, forward);
        expect_first_absent(&rt, &image, range, Direction::Backward, backward);
    }
    lent.put(image);
    drop(lent);
    assert!(rt; content == [0; 12_288]);
}

/// Checks whether memory may be lent in one piece.
fn expect_whole(rt: &impl Abort, content: &mut [u8], taken: bool) {
    let whole = Whole::new(content);
    assert_eq!(rt; whole.is_memory(), taken);
}

#[test]
fn whole_memory_that_may_be_taken(rt: HostRuntime) {
    expect_whole(&rt, &mut [1; 8192], true);
    expect_whole(&rt, &mut [1; 4096], true);
    expect_whole(&rt, &mut [], false);
    expect_whole(&rt, &mut [1; 2048], false);
    expect_whole(&rt, &mut [1; 6144], false);
}

/// What a write over the edge, a second page of 0, and a move of 4 bytes to the end leave of two pages full of 0x11.
fn piece_written() -> [u8; 8192] {
    let mut content = [0x11; 8192];
    content[4096..].fill(0);
    content[4094..4096].copy_from_slice(&[1, 2]);
    content[8188..8192].copy_from_slice(&[0x11, 1, 2, 0]);
    content
}

#[test]
fn two_pages_in_one_piece(rt: HostRuntime) {
    let mut content = [0x11; 8192];
    let mut whole = Whole::new(&mut content);
    assert!(rt; whole.is_memory());
    let mut image = whole.take();
    expect_pages(&rt, &image, 2);
    assert!(rt; image.has(0) && image.has(8191) && !image.has(8192) && !image.has(u64::MAX));
    expect_byte(&rt, &image, 8192, None);
    expect_first_absent(&rt, &image, (0, 8192), Direction::Backward, None);
    expect_first_absent(&rt, &image, (8190, 4), Direction::Forward, Some(2));
    write_over_edge(&rt, &mut image, 0x11);
    expect_bring(&rt, &mut image, 1, 0, Ok(()));
    expect_bring(&rt, &mut image, 2, 0, Err(ImageError::NoSuchPage));
    move_inside(&rt, &mut image, (4093, 8188, 4));
    whole.put(image);
    drop(whole);
    assert!(rt; content == piece_written());
}

// The refused_* below take either answer: they are also run with each growth refused in turn, from the first one behind
// those that their set-up takes.

/// Checks that memory was wanting.
fn expect_no_memory(rt: &impl Abort, error: ImageError) {
    assert_eq!(rt; error, ImageError::NoMemory);
}

#[test]
fn refused_new(rt: HostRuntime) {
    match Image::new(rt.alloc(), 3) {
        Ok(image) => {
            expect_pages(&rt, &image, 3);
            check_page(&rt, &image, None);
        }
        Err(error) => expect_no_memory(&rt, error),
    }
}

/// What `refused_bring` does before its call.
#[test]
fn set_up_of_bring(rt: HostRuntime) -> Result<(), Fail> {
    check_page(&rt, &Image::new(rt.alloc(), 3)?, None);
    Ok(())
}

/// A page that is absent takes memory when it is brought; refused, it stays absent.
#[test]
fn refused_bring(rt: HostRuntime) -> Result<(), Fail> {
    let mut image = Image::new(rt.alloc(), 3)?;
    match bring_full(&mut image, 0, 0x5a) {
        Ok(()) => check_page(&rt, &image, Some(0x5a)),
        Err(error) => {
            expect_no_memory(&rt, error);
            check_page(&rt, &image, None);
        }
    }
    Ok(())
}

/// What `refused_second_bring` does before its call.
#[test]
fn set_up_of_second_bring(rt: HostRuntime) -> Result<(), Fail> {
    check_page(&rt, &image_with(rt.alloc(), 3, &[0])?, Some(0));
    Ok(())
}

/// A page that is present takes none.
#[test]
fn refused_second_bring(rt: HostRuntime) -> Result<(), Fail> {
    let mut image = image_with(rt.alloc(), 3, &[0])?;
    expect_bring(&rt, &mut image, 0, 0x5a, Ok(()));
    check_page(&rt, &image, Some(0x5a));
    Ok(())
}

/// What `refused_bring_over_segments` does before its call.
#[test]
fn set_up_of_bring_over_segments(rt: HostRuntime) -> Result<(), Fail> {
    let mut bytes = [0; 4096];
    let mut list = Vec::with_capacity(rt.alloc(), 1)?;
    list.push(Segment::new(0, &mut bytes))?;
    assert!(rt; are_segments(&list));
    check_page(&rt, &Image::over_segments(list), Some(0));
    Ok(())
}

/// Nor does a page of a segment.
#[test]
fn refused_bring_over_segments(rt: HostRuntime) -> Result<(), Fail> {
    let mut bytes = [0; 4096];
    let mut list = Vec::with_capacity(rt.alloc(), 1)?;
    list.push(Segment::new(0, &mut bytes))?;
    assert!(rt; are_segments(&list));
    let mut image = Image::over_segments(list);
    expect_bring(&rt, &mut image, 0, 0x5a, Ok(()));
    check_page(&rt, &image, Some(0x5a));
    Ok(())
}

/// An image of the most pages, with so many present.
fn hold(alloc: Global, present: u32) -> Result<(), Fail> {
    let mut image = Image::new(alloc, 4096)?;
    for page in 0..present {
        bring_full(&mut image, page, 0x5a)?;
    }
    Ok(())
}

/// What the tests `holds_*` are measured against by `tests/image_memory.sh`, which looks at the peak of the process.
#[test]
fn holds_no_image(_rt: HostRuntime) {}

#[test]
fn holds_0_pages(rt: HostRuntime) -> Result<(), Fail> {
    hold(rt.alloc(), 0)
}

#[test]
fn holds_3_pages(rt: HostRuntime) -> Result<(), Fail> {
    hold(rt.alloc(), 3)
}

#[test]
fn holds_64_pages(rt: HostRuntime) -> Result<(), Fail> {
    hold(rt.alloc(), 64)
}

#[test]
fn holds_2048_pages(rt: HostRuntime) -> Result<(), Fail> {
    hold(rt.alloc(), 2048)
}

#[test]
fn holds_4096_pages(rt: HostRuntime) -> Result<(), Fail> {
    hold(rt.alloc(), 4096)
}

/// Each page goes before the next one comes, so one is held at most.
#[test]
fn holds_pages_that_went(rt: HostRuntime) -> Result<(), Fail> {
    let mut image = Image::new(rt.alloc(), 4096)?;
    for page in 0..4096 {
        bring_full(&mut image, page, 0x5a)?;
        assert_eq!(rt; image.evict(page), Ok(true));
    }
    Ok(())
}
