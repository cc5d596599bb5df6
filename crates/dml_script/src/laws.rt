//! What the definition of an answer means.

ghost use Rattle.dml_script.specs.AnswerLaws.{AnswersBatch, AnswersInParts, AnswersJobs, LeavesBatch, LeavesJobs};

/// Of every list of lines: what follows a line is answered on what that line leaves; job lines one after another show
/// the records of the list of their jobs, and leave what the list leaves; and the lines of a batch show the records of
/// its jobs and its own, and leave what the batch leaves.
pub fn law_of_answers()
    ensures parts { AnswersInParts }
    ensures jobs { AnswersJobs }
    ensures batch { AnswersBatch }
    ensures after_jobs { LeavesJobs }
    ensures after_batch { LeavesBatch }
{}
