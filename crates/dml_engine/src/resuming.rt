//! The law on resuming, over an engine's image.
ghost use Rattle.dml_engine.specs.Resuming.{IsAccepted, KeepsResult, LeavesJob, ResumesBackward, ResumesFinished, ResumesForward};

use crate::engines::EngineOver;
use dml_types::Job;

impl<G> EngineOver<'_, G> {
    /// The law on resuming after a page fault, of a job over the engine's image as it stands, and of bytes for the page
    /// at which it stops; it does nothing. What it says is the law of `dml_resume`, which is over every image.
    pub fn law_resume(&self, job: &Job, page: u32, bytes: &[u8; 4096])
        ensures forward { ResumesForward self.now.image job.now self.now.settings.staging page bytes.now }
        ensures backward { ResumesBackward self.now.image job.now self.now.settings.staging page bytes.now }
        ensures finished { ResumesFinished self.now.image job.now self.now.settings.staging page bytes.now }
        ensures result { KeepsResult self.now.image job.now self.now.settings.staging page bytes.now }
        ensures accepted { IsAccepted self.now.image job.now self.now.settings.staging }
        ensures left { LeavesJob self.now.image job.now self.now.settings.staging }
    {
        // what is read is known to be an image, and to be addresses
        let (_source, _target) = (job.source, job.target);
        let _pages = self.image().pages();
        dml_resume::law_resume();
    }
}
