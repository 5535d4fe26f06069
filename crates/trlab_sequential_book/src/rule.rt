//! Rules that jobs, histories, orders and leases share.

ghost use Rattle.std.specs.Prelude.{◌≡◌, ◌↔◌, IsTrue, IfOk};
ghost use Rattle.trlab_sequential_book.specs.Encoded.{change_bytes};

use std::alloc::{AllocError, Global};
use std::marker::Model;
use std::sync::Arc;
use trlab_code::encode;
use trlab_rules::Rule;

/// A rule with the encodings of its motion program and its change program. Rules are compared by these bytes, because
/// bytes are compared many at a time and instructions one by one.
pub(crate) struct EncodedRule {
    rule: Rule,
    motion: Vec<u8>,
    change: Vec<u8>,
}

// Not derived: a derived drop is proved again, field by field, wherever the value goes out of scope.
impl Drop for EncodedRule {
    fn drop(self) {
        let EncodedRule {
            rule: _rule,
            motion: _motion,
            change: _change,
        } = self;
    }
}

impl Model for EncodedRule {
    ghost use Rattle.trlab_rules.specs.Rules.{Programs};
    ghost use Rattle.trlab_sequential_book.specs.Encoded.{IsEncoded};

    ghost Value = { Programs };

    ghost view = { λ encoded. encoded.rule };

    ghost invariant = { λ encoded. IsEncoded encoded.rule encoded.motion.items encoded.change.items };
}

impl EncodedRule {
    /// Encodes the programs of a rule.
    ///
    /// # Errors
    ///
    /// If an allocation fails; the rule is dropped.
    pub(crate) fn new(alloc: Global, rule: Rule) -> Result<EncodedRule, AllocError>
        ensures { IfOk result (λ encoded. encoded ≡ rule) }
    {
        let motion = encode(alloc, rule.motion().code())?;
        let change = bytes_of_change(alloc, &rule)?;
        Ok(EncodedRule {
            rule,
            motion,
            change,
        })
    }

    /// The rule itself.
    pub(crate) fn rule(&self) -> &Rule
        ensures { result.now ≡ self.now }
    {
        &self.rule
    }

    /// Whether the rules have the same programs.
    pub(crate) fn equals(&self, other: &EncodedRule) -> bool
        ensures { IsTrue result ↔ (self.now ≡ other.now) }
    {
        self.motion == other.motion && self.change == other.change
    }
}

/// The encoding of a rule's change program; no bytes if it has none.
fn bytes_of_change(alloc: Global, rule: &Rule) -> Result<Vec<u8>, AllocError>
    ensures { IfOk result (λ bytes. bytes.items ≡ change_bytes rule.now.change) }
{
    match rule.change() {
        Some(change) => encode(alloc, change.code()),
        None => Ok(Vec::new(alloc)),
    }
}

/// An immutable rule that several owners share.
pub struct SharedRule {
    held: Arc<EncodedRule, Global>,
}

// Not derived: a derived drop is proved again, field by field, wherever the value goes out of scope.
impl Drop for SharedRule {
    fn drop(self) {
        let SharedRule { held: _held } = self;
    }
}

impl Model for SharedRule {
    ghost use Rattle.std.specs.Arc.{arc_value};
    ghost use Rattle.trlab_rules.specs.Rules.{Programs};

    ghost Value = { Programs };

    ghost view = { λ shared. arc_value shared.held };
}

impl SharedRule {
    /// A copy of a rule, in memory that can be shared.
    ///
    /// # Errors
    ///
    /// If an allocation fails.
    pub fn copy_of(alloc: Global, rule: &Rule) -> Result<SharedRule, AllocError>
        ensures { IfOk result (λ copy. copy ≡ rule.now) }
    {
        let copy = rule.copy(alloc)?;
        SharedRule::new(alloc, copy)
    }

    /// Moves a rule into memory that can be shared.
    ///
    /// # Errors
    ///
    /// If an allocation fails; the rule is dropped.
    pub fn new(alloc: Global, rule: Rule) -> Result<SharedRule, AllocError>
        ensures { IfOk result (λ shared. shared ≡ rule) }
    {
        let encoded = EncodedRule::new(alloc, rule)?;
        let held = Arc::new(alloc, encoded)?;
        Ok(SharedRule { held })
    }

    /// Another owner of the same rule. No program is copied.
    ///
    /// # Errors
    ///
    /// If the number of owners would exceed its range.
    pub fn share(&self) -> Result<SharedRule, AllocError>
        ensures { IfOk result (λ shared. shared ≡ self.now) }
    {
        let held = Arc::try_clone(&self.held)?;
        Ok(SharedRule { held })
    }

    /// The shared rule.
    pub fn get(&self) -> &Rule
        ensures { result.now ≡ self.now }
    {
        self.held.rule()
    }

    /// Whether the rules have the same programs.
    pub(crate) fn equals(&self, other: &SharedRule) -> bool
        ensures { IsTrue result ↔ (self.now ≡ other.now) }
    {
        self.held.equals(&other.held)
    }
}
