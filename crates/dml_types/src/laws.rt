//! What the definitions mean, as laws of theirs: each is the contract of a function that does nothing.

ghost use Rattle.std.specs.Prelude.{◌≡◌, ℕ, ◌+◌, ◌<◌, ◌≤◌, ◌⊎◌, Bool, true, false, List, [], ◌∷◌, ◌++◌, length, Option, Some, None};
ghost use Rattle.dml_types.specs.Types.{Job, Status, NoOp, Move, list_any};
ghost use Rattle.dml_types.specs.Job.{is_fenced, op_of};
ghost use Rattle.dml_types.specs.Memory.{first, Memory, Loan, IsWhole, at_home, on_loan, bytes_at, put};
ghost use Rattle.dml_types.specs.Refusal.{refusal};
ghost use Rattle.dml_types.specs.Effect.{ended};
ghost use Rattle.dml_types.specs.Bytewise.{operation_direction, lowest_done, length_of};
ghost use Rattle.dml_types.specs.Step.{batch, batch_answer, step, memory_after, records_of};

/// The first index: none before it passes, it passes where it is within the range, and in a range cut in two it is
/// that of the front where it lies there, else that of the back.
pub fn law_of_first()
    ensures within { (n : ℕ) (test : ℕ → Bool) → first n test ≤ n }
    ensures fails_before { (n : ℕ) (test : ℕ → Bool) (i : ℕ) → i < first n test → test i ≡ false }
    ensures passes { (n : ℕ) (test : ℕ → Bool) → first n test < n → test (first n test) ≡ true }
    ensures in_front { (m n : ℕ) (test : ℕ → Bool) → first m test < m → first (m + n) test ≡ first m test }
    ensures in_back { (m n : ℕ) (test : ℕ → Bool) → first m test ≡ m →
        first (m + n) test ≡ m + first n (λ i. test (m + i)) }
{}

/// Puts: what was written is read, a read beside it is as before, disjoint puts commute, puts side by side are one
/// put, and an empty put changes nothing, wherever it stands.
pub fn law_of_puts()
    ensures written { (memory : Memory) (address : ℕ) (bytes : List ℕ) → address + length bytes ≤ length memory.bytes →
        bytes_at (put memory address bytes) address (length bytes) ≡ bytes }
    ensures beside { (memory : Memory) (address : ℕ) (bytes : List ℕ) (from n : ℕ) →
        address + length bytes ≤ length memory.bytes →
        (from + n ≤ address) ⊎ (address + length bytes ≤ from) →
        bytes_at (put memory address bytes) from n ≡ bytes_at memory from n }
    ensures commute { (memory : Memory) (a : ℕ) (xs : List ℕ) (b : ℕ) (ys : List ℕ) → a + length xs ≤ b →
        b + length ys ≤ length memory.bytes → put (put memory a xs) b ys ≡ put (put memory b ys) a xs }
    ensures side_by_side { (memory : Memory) (a : ℕ) (xs ys : List ℕ) →
        a + (length xs + length ys) ≤ length memory.bytes →
        put (put memory a xs) (a + length xs) ys ≡ put memory a (xs ++ ys) }
    ensures empty { (memory : Memory) (address : ℕ) → put memory address [] ≡ memory }
{}

/// Steps: presence never changes, a refused job leaves the image and answers its status alone, and a no-op leaves
/// the image.
pub fn law_of_steps()
    ensures presence { (memory : Memory) (job : Job) (staging : ℕ) →
        (step memory job staging).0.present ≡ memory.present }
    ensures refused { (memory : Memory) (job : Job) (staging : ℕ) (status : Status) →
        refusal job staging ≡ Some status →
        step memory job staging ≡ (memory, ended status 0 0 0) }
    ensures no_op { (memory : Memory) (job : Job) (staging : ℕ) → op_of job ≡ Some NoOp →
        (step memory job staging).0 ≡ memory }
{}

/// Whose memory it is: a step keeps `home`, and does the same wherever the memory is: the same record, the same bytes,
/// the same presence. So does a list of jobs.
pub fn law_of_homes()
    ensures kept { (memory : Memory) (job : Job) (staging : ℕ) → (step memory job staging).0.home ≡ memory.home }
    ensures image_elsewhere { (memory : Memory) (home : Option ℕ) (job : Job) (staging : ℕ) →
        (step (at_home memory home) job staging).0 ≡ at_home (step memory job staging).0 home }
    ensures record_elsewhere { (memory : Memory) (home : Option ℕ) (job : Job) (staging : ℕ) →
        (step (at_home memory home) job staging).1 ≡ (step memory job staging).1 }
    ensures kept_by_jobs { (memory : Memory) (jobs : List Job) (staging : ℕ) →
        (memory_after memory jobs staging).home ≡ memory.home }
    ensures images_elsewhere { (memory : Memory) (home : Option ℕ) (jobs : List Job) (staging : ℕ) →
        memory_after (at_home memory home) jobs staging ≡ at_home (memory_after memory jobs staging) home }
    ensures records_elsewhere { (memory : Memory) (home : Option ℕ) (jobs : List Job) (staging : ℕ) →
        records_of (at_home memory home) jobs staging ≡ records_of memory jobs staging }
{}

/// How memory is lent: a step keeps `loan`, and does the same however the memory is lent: the same record, the same
/// bytes, the same presence. So does a list of jobs.
pub fn law_of_loans()
    ensures kept { (memory : Memory) (job : Job) (staging : ℕ) → (step memory job staging).0.loan ≡ memory.loan }
    ensures image_otherwise { (memory : Memory) (loan : Loan) (job : Job) (staging : ℕ) →
        (step (on_loan memory loan) job staging).0 ≡ on_loan (step memory job staging).0 loan }
    ensures record_otherwise { (memory : Memory) (loan : Loan) (job : Job) (staging : ℕ) →
        (step (on_loan memory loan) job staging).1 ≡ (step memory job staging).1 }
    ensures kept_by_jobs { (memory : Memory) (jobs : List Job) (staging : ℕ) →
        (memory_after memory jobs staging).loan ≡ memory.loan }
    ensures images_otherwise { (memory : Memory) (loan : Loan) (jobs : List Job) (staging : ℕ) →
        memory_after (on_loan memory loan) jobs staging ≡ on_loan (memory_after memory jobs staging) loan }
    ensures records_otherwise { (memory : Memory) (loan : Loan) (jobs : List Job) (staging : ℕ) →
        records_of (on_loan memory loan) jobs staging ≡ records_of memory jobs staging }
{}

/// Folds: a list cut in two is done in parts, there is a record for each job, and presence never changes.
pub fn law_of_folds()
    ensures image_in_parts { (memory : Memory) (jobs more : List Job) (staging : ℕ) →
        memory_after memory (jobs ++ more) staging ≡ memory_after (memory_after memory jobs staging) more staging }
    ensures records_in_parts { (memory : Memory) (jobs more : List Job) (staging : ℕ) →
        records_of memory (jobs ++ more) staging
        ≡ records_of memory jobs staging ++ records_of (memory_after memory jobs staging) more staging }
    ensures as_many { (memory : Memory) (jobs : List Job) (staging : ℕ) →
        length (records_of memory jobs staging) ≡ length jobs }
    ensures presence { (memory : Memory) (jobs : List Job) (staging : ℕ) →
        (memory_after memory jobs staging).present ≡ memory.present }
{}

/// Batches: without fences one is the fold of its jobs, and there is a record for each job.
pub fn law_of_batches()
    ensures without_fences { (memory : Memory) (jobs : List Job) (staging : ℕ) → list_any is_fenced jobs ≡ false →
        batch memory jobs staging
        ≡ (
          memory_after memory jobs staging,
          batch_answer (records_of memory jobs staging),
          records_of memory jobs staging,
        ) }
    ensures as_many { (memory : Memory) (jobs : List Job) (staging : ℕ) →
        length (batch memory jobs staging).2 ≡ length jobs }
{}

/// Moves: the part of the destination that was done holds the source as it stood before the job, whatever was
/// overwritten on the way, and all else is as before.
pub fn law_of_moves()
    ensures source_as_it_stood { (memory : Memory) (job : Job) (staging : ℕ) →
        IsWhole memory → op_of job ≡ Some Move → refusal job staging ≡ None →
        let k = length_of Move memory job in let from = lowest_done (operation_direction Move job) job.size k in
        bytes_at (step memory job staging).0 (job.target + from) k ≡ bytes_at memory (job.source + from) k }
    ensures beside { (memory : Memory) (job : Job) (staging address n : ℕ) →
        IsWhole memory → op_of job ≡ Some Move → refusal job staging ≡ None →
        let k = length_of Move memory job in let from = lowest_done (operation_direction Move job) job.size k in
        (address + n ≤ job.target + from) ⊎ (job.target + from + k ≤ address) →
        bytes_at (step memory job staging).0 address n ≡ bytes_at memory address n }
{}
