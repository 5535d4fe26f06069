//! The rules of published models, roads with cars that follow one, and a comparison of steps.

use std::alloc::Global;
use trlab_road::Road;
use trlab_rules::{Rule, nasch, rickert, vdr};
use trlab_step::{StepFault, StepTally};
use trlab_words::{CERTAIN, Chance};

/// The rule of the Nagel-Schreckenberg model with braking probability `p` / 2^31; `None` if `p` is above 2^31 or an
/// allocation fails.
pub fn nasch_rule(alloc: Global, p: u32) -> Option<Rule> {
    nasch(alloc, Chance::new(p)?).ok()
}

/// The rule of the VDR model (Barlovic et al. 1998): stopped cars brake with the probability `p0` / 2^31, moving cars
/// with `p` / 2^31. `None` as for `nasch_rule`.
pub fn vdr_rule(alloc: Global, p: u32, p0: u32) -> Option<Rule> {
    vdr(alloc, Chance::new(p)?, Chance::new(p0)?).ok()
}

/// The rule of Rickert et al. (1996) for two lanes: cars brake with the probability `p` / 2^31, and change lanes with
/// `c` / 2^31 if they may. `None` as for `nasch_rule`.
pub fn rickert_rule(alloc: Global, p: u32, c: u32) -> Option<Rule> {
    rickert(alloc, Chance::new(p)?, Chance::new(c)?).ok()
}

/// A road, and the rule that its cars follow.
#[derive(Drop)]
pub struct Traffic {
    pub road: Road,
    pub rule: Rule,
}

/// Stopped cars, evenly spaced on two lanes of `cells` cells, that brake with probability 1/4 and change lanes with
/// probability 1/2.
pub fn spread(alloc: Global, cells: u32, cars: u32) -> Option<Traffic> {
    let (lanes, limit) = (2, 5);
    let road = Road::even(alloc, lanes, cells, limit, cars).ok()?;
    let rule = rickert_rule(alloc, CERTAIN / 4, CERTAIN / 2)?;
    Some(Traffic { road, rule })
}

/// The result of a step: the road and the tally, or the fault.
pub type StepResult = Result<(Road, StepTally), StepFault>;

/// Whether a step led to this road and this tally.
pub fn led_to(stepped: StepResult, wanted: &Road, tally: StepTally) -> bool {
    match stepped {
        Ok((road, other)) => road.equals(wanted) && other == tally,
        Err(_) => false,
    }
}
