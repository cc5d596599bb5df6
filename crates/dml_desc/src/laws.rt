ghost use Rattle.dml_desc.specs.Checked.{CheckedWithinLimits};
ghost use Rattle.dml_desc.specs.Laws.{RecordHasItsFields, BatchHasItsFields, DecodedByMeaning};

/// The law of completion records: the bytes have each field where the header has it, and all other bytes are 0.
pub fn law_of_records()
    ensures job { RecordHasItsFields }
    ensures batch { BatchHasItsFields }
{}

/// The law of descriptors: two that agree on the bytes with a meaning are the same job.
pub fn law_of_descriptors()
    ensures { DecodedByMeaning }
{}

/// The law of checked jobs: a job breaks no rule but that of staging exactly where its flags are accepted and its
/// sizes and addresses are within the limits of its operation.
pub fn law_of_checked_jobs()
    ensures { CheckedWithinLimits }
{}
