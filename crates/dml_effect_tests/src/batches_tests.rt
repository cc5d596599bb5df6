//! Batches and lists in list order, by each of the calls, with the same answers.
use crate::tests::{image_with, record, shows, write_over};
use dml_arena::Arena;
use dml_desc::{decode_record, encode};
use dml_effect::{
    abandon, answer_of_batch, are_whole_pages, carry_out_batch, have_succeeded,
    submit_batch_bytes_to, submit_batch_over, submit_batch_over_segments, submit_batch_to,
    submit_list_bytes_to, submit_list_over, submit_list_over_segments, submit_list_to,
};
use dml_image::{Image, Segment, are_segments};
use dml_types::{BatchRecord, Job, Record, Status};
use std::alloc::Global;
use std::process::Abort;
use std::test::Fail;

/// Jobs on a page of zeros, what they answer, the batch's own status, how many jobs of it are carried out, and the
/// first bytes that it leaves.
#[derive(Clone, Copy)]
struct Row<'a> {
    jobs: &'a [Job],
    records: &'a [Record],
    status: Status,
    completed: usize,
    left: &'a [u8],
}

/// A record that no job of the rows has.
const BLANK: Record = Record {
    status: Status::StagingRefused,
    result: 0xff,
    completed: 7,
    fault: 7,
    delta_size: 7,
};

/// So many of them.
fn blanks(alloc: Global, jobs: usize) -> Result<Vec<Record>, Fail> {
    let mut records = Vec::with_capacity(alloc, jobs)?;
    for _ in 0..jobs {
        records.push(BLANK)?;
    }
    Ok(records)
}

/// Answers as bytes, of so many jobs, none of which is one.
fn blank_answers(alloc: Global, jobs: usize) -> Result<Vec<[u8; 32]>, Fail> {
    let mut answers = Vec::with_capacity(alloc, jobs)?;
    for _ in 0..jobs {
        answers.push([0xff; 32])?;
    }
    Ok(answers)
}

/// The descriptors of jobs.
fn descriptors_of(alloc: Global, jobs: &[Job]) -> Result<Vec<[u8; 64]>, Fail> {
    let mut list = Vec::with_capacity(alloc, jobs.len())?;
    for job in jobs {
        list.push(encode(job).ok_or("no descriptor")?)?;
    }
    Ok(list)
}

/// Carries out a batch of descriptors over segments that are a memory.
#[tactic(auto, using(dml_effect::proofs::BatchLemmas::room_of_limit))]
fn batch_over(
    rt: &impl Abort,
    alloc: Global,
    segments: &mut [Segment<'_>],
    arena: &mut Arena,
    list: &[[u8; 64]],
    answers: &mut [[u8; 32]],
) -> Result<BatchRecord, Fail> {
    let staging = arena.size();
    assert!(rt; are_segments(segments));
    assert!(rt; answers.len() == list.len() && list.len() < 1000);
    Ok(submit_batch_over_segments(alloc, segments, arena, list, staging, answers)?)
}

/// The same of a list.
#[tactic(auto, using(dml_effect::proofs::BatchLemmas::room_of_limit))]
fn list_over(
    rt: &impl Abort,
    alloc: Global,
    segments: &mut [Segment<'_>],
    arena: &mut Arena,
    list: &[[u8; 64]],
    answers: &mut [[u8; 32]],
) -> Result<(), Fail> {
    let staging = arena.size();
    assert!(rt; are_segments(segments));
    assert!(rt; answers.len() == list.len());
    submit_list_over_segments(alloc, segments, arena, list, staging, answers)?;
    Ok(())
}

impl Row<'_> {
    /// Expects the records of the jobs.
    fn expect_records(&self, rt: &impl Abort, call: &str, records: &[Record]) {
        assert_eq!(rt; records, self.records, "{call}");
    }

    /// The same of their bytes.
    fn expect_answers(&self, rt: &impl Abort, call: &str, answers: &[[u8; 32]]) {
        assert_eq!(rt; answers.len(), self.records.len(), "{call}");
        for (answer, want) in answers.iter().zip(self.records) {
            assert_eq!(rt; decode_record(answer), Some(*want), "{call}");
        }
    }

    /// Expects the batch's own record.
    fn expect_own(&self, rt: &impl Abort, call: &str, own: BatchRecord) {
        assert_eq!(rt;
            (own.status, own.completed as usize),
            (self.status, self.completed),
            "{call}"
        );
    }

    /// Expects the bytes of an image of one page.
    fn expect_image(&self, rt: &impl Abort, call: &str, image: &Image) {
        let mut want = [0; 4096];
        write_over(rt, &mut want, 0, self.left);
        assert!(rt; shows(image, 0, &want), "{call}");
    }

    /// Expects the bytes of a page.
    fn expect_page(&self, rt: &impl Abort, call: &str, page: &[u8]) {
        let mut want = [0; 4096];
        write_over(rt, &mut want, 0, self.left);
        assert!(rt; page == &want[..], "{call}");
    }

    /// As a batch, on an image of its own.
    #[tactic(auto, using(dml_effect::proofs::BatchLemmas::room_of_limit))]
    fn as_batch(&self, rt: &impl Abort, alloc: Global, arena: &mut Arena) -> Result<(), Fail> {
        let mut image = image_with(alloc, 1, &[0])?;
        let mut records = blanks(alloc, self.jobs.len())?;
        let staging = arena.size();
        assert!(rt; records.len() == self.jobs.len() && self.jobs.len() < 1000);
        let own = submit_batch_to(&mut image, arena, self.jobs, staging, &mut records);
        self.expect_own(rt, "submit_batch_to", own);
        self.expect_records(rt, "submit_batch_to", &records);
        self.expect_image(rt, "submit_batch_to", &image);
        Ok(())
    }

    /// The same by its parts.
    #[tactic(auto, using(dml_effect::proofs::BatchLemmas::room_of_limit))]
    fn by_parts(&self, rt: &impl Abort, alloc: Global, arena: &mut Arena) -> Result<(), Fail> {
        let mut image = image_with(alloc, 1, &[0])?;
        let mut records = blanks(alloc, self.jobs.len())?;
        let staging = arena.size();
        assert!(rt; records.len() == self.jobs.len() && self.jobs.len() < 1000);
        assert!(rt; self.records.len() == self.jobs.len());
        let done = carry_out_batch(&mut image, arena, self.jobs, staging, &mut records);
        assert_eq!(rt; done, self.completed);
        assert_eq!(rt; &records[..done], &self.records[..done]);
        let own = answer_of_batch(&records[..done]);
        self.expect_own(rt, "answer_of_batch", own);
        assert_eq!(rt;
            have_succeeded(&records[..done]),
            self.status == Status::Success
        );
        abandon(&mut records, done);
        self.expect_records(rt, "abandon", &records);
        self.expect_image(rt, "carry_out_batch", &image);
        Ok(())
    }

    /// As descriptors, on an image of its own.
    #[tactic(auto, using(dml_effect::proofs::BatchLemmas::room_of_limit))]
    fn as_bytes(&self, rt: &impl Abort, alloc: Global, arena: &mut Arena) -> Result<(), Fail> {
        let mut image = image_with(alloc, 1, &[0])?;
        let list = descriptors_of(alloc, self.jobs)?;
        let mut answers = blank_answers(alloc, self.jobs.len())?;
        let staging = arena.size();
        assert!(rt; answers.len() == list.len() && list.len() < 1000);
        let own = submit_batch_bytes_to(&mut image, arena, &list, staging, &mut answers);
        self.expect_own(rt, "submit_batch_bytes_to", own);
        self.expect_answers(rt, "submit_batch_bytes_to", &answers);
        self.expect_image(rt, "submit_batch_bytes_to", &image);
        Ok(())
    }

    /// Over a caller's page.
    #[tactic(auto, using(dml_effect::proofs::BatchLemmas::room_of_limit))]
    fn over_page(&self, rt: &impl Abort, alloc: Global, arena: &mut Arena) -> Result<(), Fail> {
        let mut page = [0; 4096];
        let list = descriptors_of(alloc, self.jobs)?;
        let mut answers = blank_answers(alloc, self.jobs.len())?;
        let staging = arena.size();
        assert!(rt; are_whole_pages(&page));
        assert!(rt; answers.len() == list.len() && list.len() < 1000);
        let own = submit_batch_over(&mut page, arena, &list, staging, &mut answers);
        self.expect_own(rt, "submit_batch_over", own);
        self.expect_answers(rt, "submit_batch_over", &answers);
        self.expect_page(rt, "submit_batch_over", &page);
        Ok(())
    }

    /// Over a caller's page as a segment.
    fn over_segment(&self, rt: &impl Abort, alloc: Global, arena: &mut Arena) -> Result<(), Fail> {
        let mut page = [0; 4096];
        let list = descriptors_of(alloc, self.jobs)?;
        let mut answers = blank_answers(alloc, self.jobs.len())?;
        let mut segments = Vec::with_capacity(alloc, 1)?;
        segments.push(Segment::new(0, &mut page))?;
        let own = batch_over(rt, alloc, &mut segments, arena, &list, &mut answers)?;
        drop(segments);
        self.expect_own(rt, "submit_batch_over_segments", own);
        self.expect_answers(rt, "submit_batch_over_segments", &answers);
        self.expect_page(rt, "submit_batch_over_segments", &page);
        Ok(())
    }

    /// By each of the calls of batches.
    fn expect(&self, rt: &impl Abort, alloc: Global) -> Result<(), Fail> {
        let mut arena = Arena::new(alloc, 1024)?;
        self.as_batch(rt, alloc, &mut arena)?;
        self.by_parts(rt, alloc, &mut arena)?;
        self.as_bytes(rt, alloc, &mut arena)?;
        self.over_page(rt, alloc, &mut arena)?;
        self.over_segment(rt, alloc, &mut arena)
    }

    /// As a list, on an image of its own.
    #[tactic(auto, using(dml_effect::proofs::BatchLemmas::room_of_limit))]
    fn as_list(&self, rt: &impl Abort, alloc: Global, arena: &mut Arena) -> Result<(), Fail> {
        let mut image = image_with(alloc, 1, &[0])?;
        let mut records = blanks(alloc, self.jobs.len())?;
        let staging = arena.size();
        assert!(rt; records.len() == self.jobs.len());
        submit_list_to(&mut image, arena, self.jobs, staging, &mut records);
        self.expect_records(rt, "submit_list_to", &records);
        self.expect_image(rt, "submit_list_to", &image);
        Ok(())
    }

    /// As a list of descriptors, on an image of its own.
    #[tactic(auto, using(dml_effect::proofs::BatchLemmas::room_of_limit))]
    fn as_list_of_bytes(
        &self,
        rt: &impl Abort,
        alloc: Global,
        arena: &mut Arena,
    ) -> Result<(), Fail> {
        let mut image = image_with(alloc, 1, &[0])?;
        let list = descriptors_of(alloc, self.jobs)?;
        let mut answers = blank_answers(alloc, self.jobs.len())?;
        let staging = arena.size();
        assert!(rt; answers.len() == list.len());
        submit_list_bytes_to(&mut image, arena, &list, staging, &mut answers);
        self.expect_answers(rt, "submit_list_bytes_to", &answers);
        self.expect_image(rt, "submit_list_bytes_to", &image);
        Ok(())
    }

    /// The same over a caller's page.
    #[tactic(auto, using(dml_effect::proofs::BatchLemmas::room_of_limit))]
    fn as_list_over(&self, rt: &impl Abort, alloc: Global, arena: &mut Arena) -> Result<(), Fail> {
        let mut page = [0; 4096];
        let list = descriptors_of(alloc, self.jobs)?;
        let mut answers = blank_answers(alloc, self.jobs.len())?;
        let staging = arena.size();
        assert!(rt; are_whole_pages(&page));
        assert!(rt; answers.len() == list.len());
        submit_list_over(&mut page, arena, &list, staging, &mut answers);
        self.expect_answers(rt, "submit_list_over", &answers);
        self.expect_page(rt, "submit_list_over", &page);
        Ok(())
    }

    /// The same over it as a segment.
    fn as_list_over_segment(
        &self,
        rt: &impl Abort,
        alloc: Global,
        arena: &mut Arena,
    ) -> Result<(), Fail> {
        let mut page = [0; 4096];
        let list = descriptors_of(alloc, self.jobs)?;
        let mut answers = blank_answers(alloc, self.jobs.len())?;
        let mut segments = Vec::with_capacity(alloc, 1)?;
        segments.push(Segment::new(0, &mut page))?;
        list_over(rt, alloc, &mut segments, arena, &list, &mut answers)?;
        drop(segments);
        self.expect_answers(rt, "submit_list_over_segments", &answers);
        self.expect_page(rt, "submit_list_over_segments", &page);
        Ok(())
    }

    /// By each of the calls of lists.
    fn expect_list(&self, rt: &impl Abort, alloc: Global) -> Result<(), Fail> {
        let mut arena = Arena::new(alloc, 1024)?;
        self.as_list(rt, alloc, &mut arena)?;
        self.as_list_of_bytes(rt, alloc, &mut arena)?;
        self.as_list_over(rt, alloc, &mut arena)?;
        self.as_list_over_segment(rt, alloc, &mut arena)
    }
}

/// An unsupported opcode, without the fence and with it.
const STRANGER: Job = Job {
    opcode: 0x10,
    flags: 0,
    source: 0,
    target: 0,
    size: 0,
    extra: 0,
    delta_size: 0,
    expected: 0,
};

const FENCED_STRANGER: Job = Job {
    flags: 1,
    ..STRANGER
};

/// The record of a fill of 8 bytes, and of one at the absent page behind the first.
fn filled() -> Record {
    record(Status::Success, 0, 8, 0)
}

fn fault() -> Record {
    record(Status::WriteFault, 0, 0, 4096)
}

/// A record without counts.
fn without_counts(status: Status) -> Record {
    record(status, 0, 0, 0)
}

#[test]
fn an_empty_batch(rt: HostRuntime) -> Result<(), Fail> {
    let row = Row {
        jobs: &[],
        records: &[],
        status: Status::Success,
        completed: 0,
        left: &[],
    };
    row.expect(&rt, rt.alloc())
}

#[test]
fn fence_in_batch(rt: HostRuntime) -> Result<(), Fail> {
    let row = Row {
        jobs: &[Job::no_op().with_flags(1)],
        records: &[without_counts(Status::Success)],
        status: Status::Success,
        completed: 1,
        left: &[0],
    };
    row.expect(&rt, rt.alloc())?;
    let orders = Row {
        jobs: &[Job::fill(1, 0, 8), Job::fill(2, 0, 8).with_flags(1)],
        records: &[filled(), filled()],
        completed: 2,
        left: &[2, 0, 0, 0, 0, 0, 0, 0],
        ..row
    };
    orders.expect(&rt, rt.alloc())
}

/// Each fence waits for the jobs before it, and a fault behind the last fence ends nothing.
#[test]
fn fences_one_after_another(rt: HostRuntime) -> Result<(), Fail> {
    let row = Row {
        jobs: &[
            Job::fill(1, 0, 8).with_flags(1),
            Job::fill(2, 0, 8).with_flags(1),
            Job::fill(3, 4096, 8),
            Job::fill(4, 8, 8),
        ],
        records: &[filled(), filled(), fault(), filled()],
        status: Status::BatchFailed,
        completed: 4,
        left: &[2, 0, 0, 0, 0, 0, 0, 0, 4],
    };
    row.expect(&rt, rt.alloc())
}

#[test]
fn fence_abandons(rt: HostRuntime) -> Result<(), Fail> {
    let abandoned = without_counts(Status::Abandoned);
    let row = Row {
        jobs: &[
            Job::fill(1, 0, 8),
            Job::fill(1, 4096, 8),
            Job::fill(2, 8, 8).with_flags(1),
            Job::fill(3, 16, 8),
        ],
        records: &[filled(), fault(), abandoned, abandoned],
        status: Status::BatchFailed,
        completed: 2,
        left: &[1],
    };
    row.expect(&rt, rt.alloc())?;
    let after_false_predicate = Row {
        jobs: &[
            Job::compare(0, 0, 8).with_check(1),
            Job::no_op().with_flags(1),
        ],
        records: &[record(Status::FalsePredicate, 0, 8, 0), abandoned],
        completed: 1,
        left: &[0],
        ..row
    };
    after_false_predicate.expect(&rt, rt.alloc())
}

/// A fence waits in a job that is refused too.
#[test]
fn fence_of_a_bad_job(rt: HostRuntime) -> Result<(), Fail> {
    let bad = without_counts(Status::BadOpcode);
    let row = Row {
        jobs: &[Job::fill(1, 0, 8), FENCED_STRANGER, Job::fill(2, 8, 8)],
        records: &[filled(), bad, filled()],
        status: Status::BatchFailed,
        completed: 3,
        left: &[1, 0, 0, 0, 0, 0, 0, 0, 2],
    };
    row.expect(&rt, rt.alloc())?;
    let abandoned = without_counts(Status::Abandoned);
    let after_a_fault = Row {
        jobs: &[Job::fill(1, 4096, 8), FENCED_STRANGER, Job::fill(2, 8, 8)],
        records: &[fault(), abandoned, abandoned],
        completed: 1,
        left: &[],
        ..row
    };
    after_a_fault.expect(&rt, rt.alloc())
}

/// A list refuses the fence, and goes on behind each refusal and fault.
#[test]
fn fence_in_list(rt: HostRuntime) -> Result<(), Fail> {
    let row = Row {
        jobs: &[
            Job::fill(1, 0, 8).with_flags(1),
            STRANGER,
            Job::fill(3, 4096, 8),
            Job::fill(2, 8, 8),
            Job::move_bytes(8, 16, 8),
        ],
        records: &[
            without_counts(Status::BadFlags),
            without_counts(Status::BadOpcode),
            fault(),
            filled(),
            filled(),
        ],
        status: Status::Success,
        completed: 5,
        left: &[0, 0, 0, 0, 0, 0, 0, 0, 2, 0, 0, 0, 0, 0, 0, 0, 2],
    };
    row.expect_list(&rt, rt.alloc())
}
