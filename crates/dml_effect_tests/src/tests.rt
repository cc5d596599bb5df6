ghost use Rattle.std.specs.Prelude.{◌≡◌};
ghost use Rattle.dml_effect.specs.Straight.{TakesStaging};

use crate::uses::moved_in_two;
use dml_arena::Arena;
use dml_desc::check;
use dml_effect::{
    are_pages, are_whole_pages, commit, submit_over, submit_over_whole, submit_straight_over_whole,
    submit_straight_to, submit_to, takes_staging,
};
use dml_image::{Image, ImageError, Lent};
use dml_types::{Direction, Job, Op, Record, Status};
use std::alloc::Global;
use std::process::Abort;
use std::test::Fail;

/// The staging size of a run without options.
const STAGING: u32 = 1_048_576;

/// An image of `pages` pages, those of `brought` present and full of 0.
pub fn image_with(
    alloc: Global,
    pages: u32,
    brought: &[u32],
) -> Result<Image<'static>, ImageError> {
    let mut image = Image::new(alloc, pages)?;
    for page in brought {
        image.bring(*page, &[0; 4096])?;
    }
    Ok(image)
}

/// Writes bytes, which must be present.
pub fn poke(rt: &impl Abort, image: &mut Image, addr: u64, bytes: &[u8]) {
    assert!(rt; addr < 1 << 32 && bytes.len() <= 4096);
    let len = bytes.len() as u32;
    assert!(rt; image.first_absent(addr, len, Direction::Forward).is_none());
    image.write(addr, bytes);
}

/// Whether the bytes from `addr` on are present and these.
pub fn shows(image: &Image, addr: u64, bytes: &[u8]) -> bool {
    (addr..u64::MAX)
        .zip(bytes)
        .all(|(place, byte)| image.byte(place) == Some(*byte))
}

/// A record without a delta size.
pub fn record(status: Status, outcome: u8, completed: u32, fault: u64) -> Record {
    Record {
        status,
        result: outcome,
        completed,
        fault,
        delta_size: 0,
    }
}

/// Checks a job's record.
pub fn expect_record(rt: &impl Abort, job: &Job, answer: Record, want: Record) {
    assert_eq!(rt; answer, want, "{job:?}");
}

/// Checks the record of a job in chunks of so many bytes, blocks or entries.
pub fn expect_chunked(rt: &impl Abort, job: &Job, chunk: u32, answer: Record, want: Record) {
    assert_eq!(rt; answer, want, "{job:?} in chunks of {chunk}");
}

/// Checks the byte at an address.
pub fn expect_byte(rt: &impl Abort, image: &Image, addr: u64, value: Option<u8>) {
    assert_eq!(rt; image.byte(addr), value, "byte {addr}");
}

/// Carries out a job with all the staging of an arena, and checks its record.
pub fn expect_submitted(
    rt: &impl Abort,
    image: &mut Image,
    arena: &mut Arena,
    job: &Job,
    want: Record,
) -> Record {
    let staging = arena.size();
    let answer = submit_to(image, arena, job, staging);
    expect_record(rt, job, answer, want);
    answer
}

#[test]
fn no_op(rt: HostRuntime) -> Result<(), Fail> {
    let mut image = image_with(rt.alloc(), 1, &[])?;
    let mut arena = Arena::new(rt.alloc(), 0)?;
    let want = record(Status::Success, 0, 0, 0);
    expect_submitted(&rt, &mut image, &mut arena, &Job::no_op(), want);
    Ok(())
}

#[test]
fn forward_move_over_itself(rt: HostRuntime) -> Result<(), Fail> {
    let mut image = image_with(rt.alloc(), 1, &[0])?;
    let mut arena = Arena::new(rt.alloc(), 100)?;
    let low = [
        0xa0, 0xa1, 0xa2, 0xa3, 0xa4, 0xa5, 0xa6, 0xa7, 0xa8, 0xa9, 0xaa, 0xab,
    ];
    poke(&rt, &mut image, 0, &low);
    poke(&rt, &mut image, 100, &[0xd0, 0xd1, 0xd2, 0xd3, 0xd4, 0xd5]);
    let job = Job::move_bytes(4, 0, 100);
    let want = record(Status::Success, 0, 100, 0);
    expect_submitted(&rt, &mut image, &mut arena, &job, want);
    assert!(rt;
        shows(
            &image,
            0,
            &[0xa4, 0xa5, 0xa6, 0xa7, 0xa8, 0xa9, 0xaa, 0xab, 0, 0]
        )
    );
    assert!(rt;
        shows(
            &image,
            94,
            &[
                0, 0, 0xd0, 0xd1, 0xd2, 0xd3, 0xd0, 0xd1, 0xd2, 0xd3, 0xd4, 0xd5
            ]
        )
    );
    Ok(())
}

#[test]
fn backward_move_into_absent_page(rt: HostRuntime) -> Result<(), Fail> {
    let mut image = image_with(rt.alloc(), 2, &[0])?;
    let mut arena = Arena::new(rt.alloc(), 4096)?;
    poke(&rt, &mut image, 0, &[1, 2, 3, 4, 5]);
    let job = Job::move_bytes(0, 4, 4096);
    let want = record(Status::WriteFault, 1, 0, 4099);
    expect_submitted(&rt, &mut image, &mut arena, &job, want);
    assert!(rt; shows(&image, 0, &[1, 2, 3, 4, 5, 0, 0, 0]));
    Ok(())
}

#[test]
fn backward_move_stops_at_page_edge(rt: HostRuntime) -> Result<(), Fail> {
    let mut image = image_with(rt.alloc(), 3, &[0, 2])?;
    let mut arena = Arena::new(rt.alloc(), 12_272)?;
    poke(&rt, &mut image, 8192, &[1, 2]);
    let job = Job::move_bytes(0, 8, 12_272);
    let want = record(Status::ReadFault, 1, 4080, 8191);
    expect_submitted(&rt, &mut image, &mut arena, &job, want);
    assert!(rt; shows(&image, 8192, &[1, 2, 0, 0, 0, 0, 0, 0, 1, 2, 0, 0]));
    Ok(())
}

#[test]
fn dualcast_write_fault(rt: HostRuntime) -> Result<(), Fail> {
    let mut image = image_with(rt.alloc(), 4, &[0, 1, 3])?;
    let mut arena = Arena::new(rt.alloc(), 5)?;
    poke(&rt, &mut image, 0, &[1, 2, 3, 4, 5]);
    let job = Job::dualcast(0, 8190, 16_382, 5);
    let want = record(Status::WriteFault, 0, 2, 8192);
    expect_submitted(&rt, &mut image, &mut arena, &job, want);
    assert!(rt; shows(&image, 8190, &[1, 2]));
    assert!(rt; shows(&image, 16_382, &[1, 2]));
    Ok(())
}

#[test]
fn dualcast_refusals(rt: HostRuntime) -> Result<(), Fail> {
    let mut image = image_with(rt.alloc(), 4, &[0])?;
    let mut arena = Arena::new(rt.alloc(), STAGING)?;
    for (job, want) in [
        (
            Job::dualcast(0, 8, 16, 100),
            record(Status::DualcastBits, 0, 0, 0),
        ),
        (
            Job::dualcast(0, 4096, 8192, 4097),
            record(Status::Overlap, 0, 0, 0),
        ),
        (
            Job::dualcast(0, 4096, 8192, 4),
            record(Status::WriteFault, 0, 0, 4096),
        ),
    ] {
        expect_submitted(&rt, &mut image, &mut arena, &job, want);
    }
    Ok(())
}

#[test]
fn end_of_address_space(rt: HostRuntime) -> Result<(), Fail> {
    let mut image = image_with(rt.alloc(), 1, &[0])?;
    let mut arena = Arena::new(rt.alloc(), STAGING)?;
    for (job, want) in [
        (
            Job::move_bytes(0xffff_ffff_ffff_fff0, 0, 17),
            record(Status::RangePast, 0, 0, 0),
        ),
        (
            Job::move_bytes(0xffff_ffff_ffff_fff0, 0, 16),
            record(Status::ReadFault, 0, 0, 18_446_744_073_709_551_600),
        ),
    ] {
        expect_submitted(&rt, &mut image, &mut arena, &job, want);
    }
    Ok(())
}

#[test]
fn fill_into_absent_page(rt: HostRuntime) -> Result<(), Fail> {
    let mut image = image_with(rt.alloc(), 2, &[0])?;
    let mut arena = Arena::new(rt.alloc(), 0)?;
    let job = Job::fill(0x0807_0605_0403_0201, 4090, 12);
    let want = record(Status::WriteFault, 0, 6, 4096);
    expect_submitted(&rt, &mut image, &mut arena, &job, want);
    assert!(rt; shows(&image, 4088, &[0, 0, 1, 2, 3, 4, 5, 6]));
    expect_byte(&rt, &image, 4096, None);
    Ok(())
}

/// Carries out a move that is scanned in two chunks, cut at `edge`.
#[tactic(auto, using(dml_desc::proofs::CheckedLemmas::need_within))]
fn carried_in_two(
    rt: &impl Abort,
    image: &mut Image,
    arena: &mut Arena,
    job: &Job,
    edge: u32,
) -> Record {
    let Ok(checked) = check(job, arena.size()) else {
        panic!(rt; "{job:?} is refused");
    };
    assert!(rt; checked.op() == Op::Move && edge <= job.size);
    let room = arena.open();
    let effect = moved_in_two(image, &checked, edge, room);
    let answer = *effect.answer();
    assert_eq!(rt; commit(image, effect), answer);
    answer
}

#[test]
fn moves_in_two_chunks(rt: HostRuntime) -> Result<(), Fail> {
    for edge in [0, 8, 4080, 4096, 8184, 8192, 12_272] {
        let mut image = image_with(rt.alloc(), 3, &[0, 2])?;
        let mut arena = Arena::new(rt.alloc(), 12_272)?;
        poke(&rt, &mut image, 8192, &[1, 2]);
        let job = Job::move_bytes(0, 8, 12_272);
        let answer = carried_in_two(&rt, &mut image, &mut arena, &job, edge);
        let want = record(Status::ReadFault, 1, 4080, 8191);
        expect_chunked(&rt, &job, edge, answer, want);
        assert!(rt; shows(&image, 8192, &[1, 2, 0, 0, 0, 0, 0, 0, 1, 2, 0, 0]));
    }
    Ok(())
}

#[test]
fn pages_that_can_be_lent(rt: HostRuntime) -> Result<(), Fail> {
    let bytes = vec![in rt.alloc(); 0; 4097 * 4096]?;
    for (len, is_lent) in [
        (0, false),
        (1, false),
        (4095, false),
        (4096, true),
        (4097, false),
        (8192, true),
        (12_287, false),
        (12_288, true),
        (16_777_215, false),
        (16_777_216, true),
        (16_777_217, false),
        (16_781_312, false),
    ] {
        assert_eq!(rt; bytes.get(..len).map(|part| are_pages(part)), Some(is_lent));
    }
    Ok(())
}

/// Writes bytes over others, from a place on.
pub fn write_over(rt: &impl Abort, bytes: &mut [u8], place: usize, new: &[u8]) {
    assert!(rt; place <= bytes.len() && new.len() <= bytes.len() - place);
    bytes[place..place + new.len()].copy_from_slice(new);
}

/// Carries out a job over bytes that are pages.
pub fn carried_over(rt: &impl Abort, bytes: &mut [u8], arena: &mut Arena, job: &Job) -> Record {
    let staging = arena.size();
    assert!(rt; are_pages(bytes));
    submit_over(bytes, arena, job, staging)
}

/// Carries out a job over bytes that are whole pages, in one piece; without staging where it takes none.
fn carried_over_whole(rt: &impl Abort, bytes: &mut [u8], arena: &mut Arena, job: &Job) -> Record {
    let staging = arena.size();
    assert!(rt; are_whole_pages(bytes));
    if takes_staging(job, staging) {
        submit_over_whole(bytes, arena, job, staging)
    } else {
        submit_straight_over_whole(bytes, job, staging)
    }
}

/// A job over so many whole pages of a caller's, which hold 01, 02, 03, 04, 05 and then 0; its answer, and what it
/// leaves in two places. All other bytes stay as they were.
#[derive(Clone, Copy)]
pub struct LentRow {
    pub pages: u16,
    pub job: Job,
    answer: Record,
    first: (u32, [u8; 12]),
    second: (u32, [u8; 12]),
}

impl LentRow {
    /// The caller's bytes before.
    pub fn before(self, rt: &impl Abort, alloc: Global) -> Result<Vec<u8>, Fail> {
        let mut bytes = vec![in alloc; 0; usize::from(self.pages) * 4096]?;
        write_over(rt, &mut bytes, 0, &[1, 2, 3, 4, 5]);
        Ok(bytes)
    }

    /// Compares the job's answer and all bytes with what they are to be.
    pub fn expect_left(
        self,
        rt: &impl Abort,
        alloc: Global,
        bytes: &[u8],
        answer: Record,
    ) -> Result<(), Fail> {
        let mut after = self.before(rt, alloc)?;
        for (place, shown) in [self.first, self.second] {
            write_over(rt, &mut after, place as usize, &shown);
        }
        expect_record(rt, &self.job, answer, self.answer);
        assert!(rt; bytes == &after[..], "{:?}", self.job);
        Ok(())
    }

    /// Carries the job out over the caller's bytes.
    fn expect(self, rt: &impl Abort, alloc: Global, arena: &mut Arena) -> Result<(), Fail> {
        let mut bytes = self.before(rt, alloc)?;
        let answer = carried_over(rt, &mut bytes, arena, &self.job);
        self.expect_left(rt, alloc, &bytes, answer)
    }

    /// The same in one piece.
    fn expect_in_one_piece(
        self,
        rt: &impl Abort,
        alloc: Global,
        arena: &mut Arena,
    ) -> Result<(), Fail> {
        let mut bytes = self.before(rt, alloc)?;
        let answer = carried_over_whole(rt, &mut bytes, arena, &self.job);
        self.expect_left(rt, alloc, &bytes, answer)
    }
}

/// The first 12 bytes of a caller's as they stand before.
const FRONT: (u32, [u8; 12]) = (0, [1, 2, 3, 4, 5, 0, 0, 0, 0, 0, 0, 0]);

/// A job that changes nothing.
fn unchanged(pages: u16, job: Job, answer: Record) -> LentRow {
    LentRow {
        pages,
        job,
        answer,
        first: FRONT,
        second: FRONT,
    }
}

/// A job that leaves these bytes from a place on.
fn changed(pages: u16, job: Job, answer: Record, place: u32, shown: [u8; 12]) -> LentRow {
    LentRow {
        pages,
        job,
        answer,
        first: (place, shown),
        second: (place, shown),
    }
}

/// Fills, among them the row fill_into_absent_page at the end of the caller's bytes.
pub fn fills() -> [LentRow; 2] {
    let pattern = 0x0807_0605_0403_0201;
    [
        changed(
            2,
            Job::fill(pattern, 4092, 12),
            record(Status::Success, 0, 12, 0),
            4092,
            [1, 2, 3, 4, 5, 6, 7, 8, 1, 2, 3, 4],
        ),
        changed(
            1,
            Job::fill(pattern, 4090, 12),
            record(Status::WriteFault, 0, 6, 4096),
            4084,
            [0, 0, 0, 0, 0, 0, 1, 2, 3, 4, 5, 6],
        ),
    ]
}

/// Moves, among them the row backward_move_into_absent_page at the end of the caller's bytes.
pub fn moves() -> [LentRow; 4] {
    [
        changed(
            2,
            Job::move_bytes(0, 4096, 4096),
            record(Status::Success, 0, 4096, 0),
            4096,
            [1, 2, 3, 4, 5, 0, 0, 0, 0, 0, 0, 0],
        ),
        changed(
            2,
            Job::move_bytes(0, 2, 14),
            record(Status::Success, 1, 14, 0),
            0,
            [1, 2, 1, 2, 3, 4, 5, 0, 0, 0, 0, 0],
        ),
        unchanged(
            1,
            Job::move_bytes(0, 4, 4096),
            record(Status::WriteFault, 1, 0, 4099),
        ),
        unchanged(
            2,
            Job::move_bytes(0, 4096, 4097),
            record(Status::StagingRefused, 0, 0, 0),
        ),
    ]
}

/// Dualcasts, among them the row dualcast_write_fault at the end of the caller's bytes, a compare and a create.
pub fn other_jobs() -> [LentRow; 4] {
    [
        LentRow {
            pages: 2,
            job: Job::dualcast(0, 8180, 4084, 5),
            answer: record(Status::Success, 0, 5, 0),
            first: (8180, [1, 2, 3, 4, 5, 0, 0, 0, 0, 0, 0, 0]),
            second: (4084, [1, 2, 3, 4, 5, 0, 0, 0, 0, 0, 0, 0]),
        },
        LentRow {
            pages: 2,
            job: Job::dualcast(0, 4094, 8190, 5),
            answer: record(Status::WriteFault, 0, 2, 8192),
            first: (4094, [1, 2, 0, 0, 0, 0, 0, 0, 0, 0, 0, 0]),
            second: (8180, [0, 0, 0, 0, 0, 0, 0, 0, 0, 0, 1, 2]),
        },
        unchanged(
            2,
            Job::compare(0, 4096, 8),
            record(Status::Success, 1, 0, 0),
        ),
        LentRow {
            pages: 2,
            job: Job::create_delta(4096, 0, 8, 16, 10),
            answer: Record {
                status: Status::Success,
                result: 1,
                completed: 8,
                fault: 0,
                delta_size: 10,
            },
            first: FRONT,
            second: (16, [0, 0, 1, 2, 3, 4, 5, 0, 0, 0, 0, 0]),
        },
    ]
}

#[test]
fn fills_and_moves_over_lent_pages(rt: HostRuntime) -> Result<(), Fail> {
    let mut arena = Arena::new(rt.alloc(), 4096)?;
    for row in fills() {
        row.expect(&rt, rt.alloc(), &mut arena)?;
    }
    for row in moves() {
        row.expect(&rt, rt.alloc(), &mut arena)?;
    }
    Ok(())
}

/// Moves from and to addresses that no word begins at, over page edges and over one another.
pub fn unaligned_moves() -> [LentRow; 3] {
    [
        changed(
            3,
            Job::move_bytes(1, 4093, 4099),
            record(Status::Success, 1, 4099, 0),
            4093,
            [2, 3, 4, 5, 0, 0, 0, 0, 0, 0, 0, 0],
        ),
        changed(
            2,
            Job::move_bytes(0, 4091, 5),
            record(Status::Success, 0, 5, 0),
            4091,
            [1, 2, 3, 4, 5, 0, 0, 0, 0, 0, 0, 0],
        ),
        changed(
            1,
            Job::move_bytes(3, 0, 4093),
            record(Status::Success, 0, 4093, 0),
            0,
            [4, 5, 0, 0, 0, 0, 0, 0, 0, 0, 0, 0],
        ),
    ]
}

#[test]
fn unaligned_moves_over_lent_pages(rt: HostRuntime) -> Result<(), Fail> {
    let mut arena = Arena::new(rt.alloc(), 4099)?;
    for row in unaligned_moves() {
        row.expect(&rt, rt.alloc(), &mut arena)?;
    }
    Ok(())
}

/// Carries out a job on an image that stays where it is, as every image does.
#[tactic(auto, using(dml_types::proofs::HomeLemmas::home_after_step))]
fn submitted_at_home(image: &mut Image, job: &Job) -> Record
    requires straight { TakesStaging job.now 12272 → ⊥ }
    ensures home { image.new.home ≡ image.old.home }
{
    submit_straight_to(image, job, 12_272)
}

#[test]
fn backward_move_stops_at_page_edge_of_lent_memory(rt: HostRuntime) {
    let mut content = [0; 12_288];
    let mut lent = Lent::new(&[true, false, true], &mut content);
    assert!(rt; lent.is_memory());
    let mut image = lent.take();
    let fill = Job::fill(0x0201, 8192, 2);
    let job = Job::move_bytes(0, 8, 12_272);
    assert!(rt; !takes_staging(&fill, 12_272) && !takes_staging(&job, 12_272));
    let filled = submitted_at_home(&mut image, &fill);
    let answer = submitted_at_home(&mut image, &job);
    lent.put(image);
    drop(lent);
    expect_record(&rt, &fill, filled, record(Status::Success, 0, 2, 0));
    expect_record(&rt, &job, answer, record(Status::ReadFault, 1, 4080, 8191));
    let mut expected = [0; 12_288];
    expected[8192..8194].copy_from_slice(&[1, 2]);
    expected[8200..8202].copy_from_slice(&[1, 2]);
    assert!(rt; content == expected);
}

#[test]
fn other_jobs_over_lent_pages(rt: HostRuntime) -> Result<(), Fail> {
    let mut arena = Arena::new(rt.alloc(), 4096)?;
    for row in other_jobs() {
        row.expect(&rt, rt.alloc(), &mut arena)?;
    }
    Ok(())
}

/// A fill at the end of more pages than other images have.
fn fill_at_the_end() -> LentRow {
    changed(
        4097,
        Job::fill(0x0807_0605_0403_0201, 16_781_300, 16),
        record(Status::WriteFault, 0, 12, 16_781_312),
        16_781_300,
        [1, 2, 3, 4, 5, 6, 7, 8, 1, 2, 3, 4],
    )
}

#[test]
fn moves_over_one_piece(rt: HostRuntime) -> Result<(), Fail> {
    let mut arena = Arena::new(rt.alloc(), 4096)?;
    for row in moves() {
        row.expect_in_one_piece(&rt, rt.alloc(), &mut arena)?;
    }
    Ok(())
}

/// The other jobs, with an arena for the longest of them.
#[test]
fn jobs_over_one_piece(rt: HostRuntime) -> Result<(), Fail> {
    let mut arena = Arena::new(rt.alloc(), 4099)?;
    assert!(rt;
        !are_whole_pages(&[]) && !are_whole_pages(&[0; 4095]) && !are_whole_pages(&[0; 6144])
    );
    for row in fills() {
        row.expect_in_one_piece(&rt, rt.alloc(), &mut arena)?;
    }
    for row in other_jobs() {
        row.expect_in_one_piece(&rt, rt.alloc(), &mut arena)?;
    }
    for row in unaligned_moves() {
        row.expect_in_one_piece(&rt, rt.alloc(), &mut arena)?;
    }
    fill_at_the_end().expect_in_one_piece(&rt, rt.alloc(), &mut arena)
}
