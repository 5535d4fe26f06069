//! Laws of texts, independent of the code that reads them.
//!
//! Each law is the contract of a function with an empty body.

ghost use Rattle.trlab_jobs.specs.Check.{ParsesAsCheck};
ghost use Rattle.trlab_jobs.specs.Job.{ParsesAsJob};
ghost use Rattle.trlab_jobs.specs.Laws.{LongTextsHaveTheSameResults, NeverRefusesStandardRules, HasAtMostOneResult, HasSomeResult};
ghost use Rattle.trlab_jobs.specs.Sweep.{ParsesAsSweep};

/// Any job text has exactly one result: a job, or its first fault.
pub fn job_text_has_one_result()
    ensures some_result { HasSomeResult ParsesAsJob }
    ensures one_result { HasAtMostOneResult ParsesAsJob }
{}

/// Any check text has exactly one result: a program and a question, or its first fault.
pub fn check_text_has_one_result()
    ensures some_result { HasSomeResult ParsesAsCheck }
    ensures one_result { HasAtMostOneResult ParsesAsCheck }
{}

/// Any sweep text has exactly one result: a sweep, or its first fault.
pub fn sweep_text_has_one_result()
    ensures some_result { HasSomeResult ParsesAsSweep }
    ensures one_result { HasAtMostOneResult ParsesAsSweep }
{}

/// No text is rejected because the verifier rejects a program of a standard rule: it accepts all of them.
pub fn standard_rules_are_never_refused()
    ensures job { NeverRefusesStandardRules ParsesAsJob }
    ensures sweep { NeverRefusesStandardRules ParsesAsSweep }
    ensures check { NeverRefusesStandardRules ParsesAsCheck }
{}

/// All texts longer than `TEXT_LIMIT` have the same result: their only fault is their length. So the first
/// `TEXT_LIMIT + 1` bytes of a longer text have the result of the whole text.
pub fn long_texts_have_the_same_results()
    ensures job { LongTextsHaveTheSameResults ParsesAsJob }
    ensures sweep { LongTextsHaveTheSameResults ParsesAsSweep }
    ensures check { LongTextsHaveTheSameResults ParsesAsCheck }
{}
