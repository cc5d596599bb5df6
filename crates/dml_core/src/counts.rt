//! How many jobs were fetched of each client.
ghost use Rattle.std.specs.Prelude.{◌≡◌, ◌+◌, ◌-◌, ◌<◌, slice_index, slice_set};
ghost use Rattle.dml_core.specs.Gather.{AreParts, counts_of, jobs_sent, next_of};

use crate::lists::SentJobs;
use crate::values::Fetched;
use dml_types::Job;

/// Counts one more fetched job of a client, if there is such a client.
pub(crate) fn count_one(sent: &mut Vec<SentJobs>, client: u32)
    requires { slice_index (counts_of sent.old.items) client < 18446744073709551615 }
    ensures jobs { jobs_sent sent.new.items ≡ jobs_sent sent.old.items }
    ensures counts { counts_of sent.new.items
        ≡ slice_set (counts_of sent.old.items) client (slice_index (counts_of sent.old.items) client + 1) }
{
    let client = client as usize;
    if client < sent.len() {
        sent[client].count_one();
    }
}

/// Counts one fetched job of a client less, if there is such a client.
pub(crate) fn uncount_one(sent: &mut Vec<SentJobs>, client: u32)
    ensures jobs { jobs_sent sent.new.items ≡ jobs_sent sent.old.items }
    ensures counts { counts_of sent.new.items
        ≡ slice_set (counts_of sent.old.items) client (slice_index (counts_of sent.old.items) client - 1) }
{
    let client = client as usize;
    if client < sent.len() {
        sent[client].uncount_one();
    }
}

/// A client's next job to be fetched, by the count of those that were; the clause alone looks at `fetched`.
pub(crate) fn next_counted(sent: &[SentJobs], fetched: &[Fetched], client: u32) -> Option<Job>
    requires { AreParts (counts_of sent.now) fetched.now }
    ensures { result ≡ next_of (jobs_sent sent.now) fetched.now client }
{
    match sent.get(client as usize) {
        Some(own) => own.next(),
        None => None,
    }
}
