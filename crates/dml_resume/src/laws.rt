ghost use Rattle.dml_resume.specs.Resuming.{ForwardResumes, BackwardResumes, FinishedResumes, ResultAgrees, RestIsAccepted, FaultLeavesRest};

/// The law on resuming after a page fault, of `step` and `rest`, over every whole image, job and staging size.
///
/// A job ends by a page fault at a page of the image, and a rest is left. The page is brought, with any bytes, to the
/// image that the fault left, and the rest is carried out there; the same page is brought to the image before the job,
/// and the whole job is carried out there. The images are then equal, so are status and fault address, and the bytes
/// done by the whole are the sum of both parts. That holds of fills, dualcasts, compares and moves that go forward
/// (`forward`), and of a move that goes backward where its rest goes backward too (`backward`) or ends in success
/// (`finished`). The results agree but where a backward move's rest goes forward (`result`). A rest is never refused at
/// the same staging size (`accepted`), and a page fault of these operations always leaves one (`left`).
pub fn law_resume()
    ensures forward { ForwardResumes }
    ensures backward { BackwardResumes }
    ensures finished { FinishedResumes }
    ensures result { ResultAgrees }
    ensures accepted { RestIsAccepted }
    ensures left { FaultLeavesRest }
{}
