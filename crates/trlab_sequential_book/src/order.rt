//! Orders: the rule that a lease has to run next.

ghost use Rattle.std.specs.Prelude.{◌≡◌, ◌+◌, ◌<◌, ◌^◌};

use crate::rule::SharedRule;
use trlab_rules::Rule;

/// The rule for one step of a lease.
#[derive(Drop)]
pub struct Order {
    pub(crate) job: u32,
    pub(crate) lease: u32,
    pub(crate) step: u32,
    pub(crate) from: u32,
    pub(crate) rule: SharedRule,
    ghost fits: { step + 1 < 2 ^ 32 },
}

impl Order {
    /// The number of the job.
    pub fn job(&self) -> u32
        ensures { result ≡ self.now.job }
    {
        self.job
    }

    /// The number of the lease.
    pub fn lease(&self) -> u32
        ensures { result ≡ self.now.lease }
    {
        self.lease
    }

    /// The step that is ordered, counted from 0.
    pub fn step(&self) -> u32
        ensures { result ≡ self.now.step }
    {
        self.step
    }

    /// The step from which the rule is in force.
    pub fn from(&self) -> u32
        ensures { result ≡ self.now.from }
    {
        self.from
    }

    /// The rule in force at the step.
    pub fn rule(&self) -> &Rule
        ensures { result.now ≡ self.now.rule }
    {
        self.rule.get()
    }
}
