//! The law of links that resume.

ghost use Rattle.cmh_resume3.specs.Laws.{AllResume, Arrives, Resumes};

/// Each message comes once and in its order, whatever connections end and whichever sites are killed.
///
/// What each end does in the law's moments is what the contract of the call allows that does it. A link of two new sites is
/// meant, and disks that return what was synced.
pub fn resume_law()
    ensures resumes { Resumes }
    ensures arrives { Arrives }
    ensures all { AllResume }
{}
