//! The sheet of a run: the rules of its steps. Each is in force from its step on, until the step of the next rule.

ghost use Rattle.std.specs.Prelude.{◌≡◌, ◌<◌, Some, ℕ};
ghost use Rattle.trlab_rules.specs.Rules.{Programs};
ghost use Rattle.trlab_step.specs.Run.{StepsIncreaseFrom, in_force, sheet_with};

use std::marker::Model;
use trlab_rules::Rule;

/// The rules of a run: the first is in force from step 0 on, each later one from its own step on.
pub struct RunSheet {
    first: Rule,
    later: Vec<(u32, Rule)>,
}

// Not derived: a derived drop is proved again, field by field, wherever the value goes out of scope.
impl Drop for RunSheet {
    fn drop(self) {
        let RunSheet {
            first: _first,
            later: _later,
        } = self;
    }
}

impl Model for RunSheet {
    ghost use Rattle.std.specs.Prelude.{◌∷◌};
    ghost use Rattle.trlab_step.specs.Run.{StepsIncreaseFrom, Sheet};

    ghost Value = { Sheet };

    ghost view = { λ sheet. (0, sheet.first) ∷ sheet.later.items };

    ghost invariant = { λ sheet. StepsIncreaseFrom 1 sheet.later.items };
}

impl RunSheet {
    /// A sheet of a first rule and later rules, each with its step; the steps increase. A later rule for step 0
    /// replaces the first.
    pub fn new(first: Rule, mut later: Vec<(u32, Rule)>) -> RunSheet
        requires { StepsIncreaseFrom 0 later.items }
        ensures { result ≡ sheet_with first later.items }
    {
        let is_replaced = later.first().is_some_and(|entry| entry.0 == 0);
        let first = if is_replaced {
            later.remove(0).1
        } else {
            first
        };
        RunSheet { first, later }
    }

    /// The rule in force at a step: the last one that begins at this step or before.
    pub(crate) fn in_force(&self, step: u32) -> &Rule
        ensures { in_force self.now step ≡ Some result.now }
    {
        let begun = self.later.partition_point(|entry| entry.0 <= step);
        if begun == 0 {
            &self.first
        } else {
            &self.later[begun - 1].1
        }
    }
}
