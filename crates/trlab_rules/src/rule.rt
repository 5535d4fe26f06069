//! A rule: the accepted programs that drive the cars of a road.

ghost use Rattle.std.specs.Prelude.{◌≡◌, ◌↔◌, IsTrue, IfOk, option_map};
ghost use Rattle.std.specs.List.{list_any};
ghost use Rattle.trlab_rules.specs.Rules.{IsRule, Programs, draws_randomly, rule_draws};

use std::alloc::{AllocError, Global};
use std::marker::Model;
use trlab_bounds::programs::CERTAIN;
use trlab_code::Instr;
use trlab_verify::{Change, Motion};

/// An accepted motion program, and for two lanes possibly an accepted change program.
pub struct Rule {
    motion: Motion,
    change: Option<Change>,
}

// Not derived: a derived drop is proved again, field by field, wherever the value goes out of scope.
impl Drop for Rule {
    fn drop(self) {
        let Rule {
            motion: _motion,
            change: _change,
        } = self;
    }
}

impl Model for Rule {
    ghost use Rattle.trlab_rules.specs.Rules.{IsRule, Programs};

    ghost Value = { Programs };

    ghost view = { λ rule. record { motion = rule.motion; change = rule.change } };

    ghost invariant = { λ rule. IsRule (record { motion = rule.motion; change = rule.change }) };
}

/// Whether an instruction draws a random number. A draw of probability 0 or 1 needs none.
fn draws_randomly(instr: Instr) -> bool
    ensures { result ≡ draws_randomly instr }
{
    match instr {
        Instr::Draw(_, _, chance) => 0 < chance && chance < CERTAIN,
        _ => false,
    }
}

/// Whether one of the instructions draws a random number.
fn some_draws_randomly(instrs: &[Instr]) -> bool
    ensures { result ≡ list_any draws_randomly instrs.now }
{
    instrs.iter().any(|instr| draws_randomly(*instr))
}

impl Rule {
    /// A rule from a motion program and possibly a change program.
    pub fn new(motion: Motion, change: Option<Change>) -> Rule
        ensures value { result ≡ record { motion = motion; change = change } }
        ensures rule { IsRule result }
    {
        Rule { motion, change }
    }

    /// The program that decides each car's new speed, in cells per step.
    pub fn motion(&self) -> &Motion
        ensures value { result.now ≡ self.now.motion }
        ensures rule { IsRule self.now }
    {
        &self.motion
    }

    /// The program that decides whether a car changes lanes, if the rule has one.
    pub fn change(&self) -> Option<&Change>
        ensures value { option_map (λ change. change.now) result ≡ self.now.change }
        ensures rule { IsRule self.now }
    {
        self.change.as_ref()
    }

    /// Whether a program of the rule draws random numbers. The time of a step depends most on this.
    pub fn draws(&self) -> bool
        ensures { result ≡ rule_draws self.now }
    {
        some_draws_randomly(self.motion.code().instrs())
            || match &self.change {
                Some(change) => some_draws_randomly(change.code().instrs()),
                None => false,
            }
    }

    /// A copy of the rule.
    ///
    /// # Errors
    ///
    /// If an allocation fails.
    pub fn copy(&self, alloc: Global) -> Result<Rule, AllocError>
        ensures { IfOk result (λ copy. copy ≡ self.now) }
    {
        let motion = self.motion.copy(alloc)?;
        let change = match &self.change {
            Some(change) => Some(change.copy(alloc)?),
            None => None,
        };
        Ok(Rule::new(motion, change))
    }

    /// Whether two rules have the same motion program, and the same change program or none.
    pub fn equals(&self, other: &Rule) -> bool
        ensures { IsTrue result ↔ (self.now ≡ other.now) }
    {
        self.motion.equals(&other.motion)
            && match (&self.change, &other.change) {
                (Some(change), Some(other)) => change.equals(other),
                (None, None) => true,
                (Some(_), None) | (None, Some(_)) => false,
            }
    }
}
