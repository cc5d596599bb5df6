//! Scripts that are run.

use crate::digests::Digest;
use dml_script::{Watched, run_script};
use dml_types::Settings;
use std::alloc::Global;
use std::io;
use std::sync::Wait;
use std::thread::Threads;

/// The settings of `dmljob run` where nothing else is said.
const SETTINGS: Settings = Settings {
    staging: 1_048_576,
    chunk: 4096,
    workers: 4,
};

/// Runs a script, and takes its answer into the digest. An answer of over 40 MiB takes memory anew.
pub(crate) fn answered<T: Threads + Wait + Sync>(
    rt: &T,
    alloc: Global,
    script: &[u8],
    digest: &mut Digest,
) -> io::Result<()> {
    let mut reader = Watched::new(script);
    let mut writer = Watched::new(Vec::with_capacity(alloc, 40 << 20)?);
    match run_script(rt, alloc, &mut reader, &mut writer, SETTINGS) {
        Ok(()) => {
            digest.bytes(writer.into_inner().as_slice());
            Ok(())
        }
        Err(_) => Err(io::ErrorKind::InvalidData.into()),
    }
}
