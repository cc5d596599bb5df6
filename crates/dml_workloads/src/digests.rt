//! Digests of results.

use dml_image::Image;
use dml_types::{BatchRecord, Job, Record};

/// A digest of words: the same for the same words, and for others mostly another. It is no secret's.
#[derive(Clone, Copy)]
pub(crate) struct Digest {
    state: u64,
}

impl Digest {
    pub(crate) fn new() -> Digest {
        Digest {
            state: 0x6a09_e667_f3bc_c908,
        }
    }

    pub(crate) fn value(&self) -> u64 {
        self.state
    }

    pub(crate) fn word(&mut self, word: u64) {
        let mixed = (self.state ^ word).wrapping_mul(0x9e37_79b9_7f4a_7c15);
        self.state = mixed ^ (mixed >> 29);
    }

    pub(crate) fn bytes(&mut self, bytes: &[u8]) {
        let (words, rest) = bytes.as_chunks::<8>();
        for word in words {
            self.word(u64::from_le_bytes(*word));
        }
        for byte in rest {
            self.word(u64::from(*byte));
        }
        self.word(bytes.len() as u64);
    }

    pub(crate) fn job(&mut self, job: &Job) {
        let codes = u64::from(job.opcode) << 40 | u64::from(job.expected) << 32;
        self.word(codes | u64::from(job.flags));
        self.word(job.source);
        self.word(job.target);
        self.word(job.extra);
        self.word(u64::from(job.size) << 32 | u64::from(job.delta_size));
    }

    pub(crate) fn record(&mut self, record: &Record) {
        self.word(u64::from(record.status.code()) << 8 | u64::from(record.result));
        self.word(u64::from(record.completed) << 32 | u64::from(record.delta_size));
        self.word(record.fault);
    }

    pub(crate) fn records(&mut self, records: &[Record]) {
        for record in records {
            self.record(record);
        }
    }

    pub(crate) fn batch(&mut self, record: &BatchRecord) {
        self.word(u64::from(record.status.code()) << 32 | u64::from(record.completed));
    }

    /// The present bytes of an image, and which pages are absent.
    pub(crate) fn image(&mut self, image: &Image) {
        for page in 0..image.pages() {
            let addr = u64::from(page) * 4096;
            if image.has(addr) {
                self.bytes(image.part(addr, 4096));
            } else {
                self.word(u64::from(page));
            }
        }
    }
}
