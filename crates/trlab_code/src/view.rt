//! The views of cars.

ghost use Rattle.std.specs.Prelude.{◌≡◌, IsNone, IfSome};
ghost use Rattle.trlab_code.specs.Views.{IsViewInRange, motion_view, change_view};

use std::marker::Model;
use trlab_bounds::roads::{MAX_GAP, MAX_LIMIT};

/// The values that a car sees: speeds and the limit in cells per step, gaps in cells, and its lane, 0 or 1.
#[derive(Clone, Copy, Debug, PartialEq, Eq)]
pub struct View {
    pub speed: u32,
    pub limit: u32,
    pub gap: u32,
    /// Whether the side cell is empty.
    pub side: bool,
    pub sidegap: u32,
    pub sideback: u32,
    pub lane: u32,
    pub headspeed: u32,
}

/// The view of a motion program: the speed and the headspeed at most the limit, the limit 1 to 35, the gap at
/// most 99,999.
#[derive(Clone, Copy, Debug, PartialEq, Eq)]
pub struct MotionView {
    view: View,
}

impl Model for MotionView {
    ghost use Rattle.trlab_code.specs.declared.view.View.{View};
    ghost use Rattle.trlab_code.specs.Views.{IsViewInRange};

    ghost Value = { View };

    ghost view = { λ seen. seen.view };

    ghost invariant = { λ seen. IsViewInRange seen.view };

    ghost inverse = { λ view. record { view = view } };
}

impl MotionView {
    /// The view of a car, or `None` if a number is out of range. It shows nothing of the other lane.
    pub fn new(speed: u32, limit: u32, gap: u32, headspeed: u32) -> Option<MotionView>
        ensures none { IsNone result → ¬ (IsViewInRange (motion_view speed limit gap headspeed)) }
        ensures some { IfSome result (λ seen. seen ≡ motion_view speed limit gap headspeed) }
        ensures in_range { IfSome result IsViewInRange }
    {
        let is_ahead_valid = 1 <= limit && limit <= MAX_LIMIT && speed <= limit && gap <= MAX_GAP;
        if is_ahead_valid && headspeed <= limit {
            Some(MotionView {
                view: View {
                    speed,
                    limit,
                    gap,
                    side: false,
                    sidegap: 0,
                    sideback: 0,
                    lane: 0,
                    headspeed,
                },
            })
        } else {
            None
        }
    }

    /// The view's numbers, all in range.
    pub fn get(self) -> View
        ensures value { result ≡ self }
        ensures in_range { IsViewInRange self }
    {
        let MotionView { view } = self;
        view
    }
}

/// The view of a change program: the numbers of a `MotionView`, whether the side cell is empty, gaps on the other lane
/// of at most 99,999, and the number of the car's lane, 0 or 1.
#[derive(Clone, Copy, Debug, PartialEq, Eq)]
pub struct ChangeView {
    view: View,
}

impl Model for ChangeView {
    ghost use Rattle.trlab_code.specs.declared.view.View.{View};
    ghost use Rattle.trlab_code.specs.Views.{IsViewInRange};

    ghost Value = { View };

    ghost view = { λ seen. seen.view };

    ghost invariant = { λ seen. IsViewInRange seen.view };

    ghost inverse = { λ view. record { view = view } };
}

impl ChangeView {
    /// The view of a car, or `None` if a number is out of range.
    pub fn new(
        speed: u32,
        limit: u32,
        gap: u32,
        side: bool,
        sidegap: u32,
        sideback: u32,
        lane: u32,
        headspeed: u32,
    ) -> Option<ChangeView>
        ensures none { IsNone result
            → ¬ (IsViewInRange (change_view speed limit gap side sidegap sideback lane headspeed)) }
        ensures some { IfSome result
            (λ seen. seen ≡ change_view speed limit gap side sidegap sideback lane headspeed) }
        ensures in_range { IfSome result IsViewInRange }
    {
        let view = View {
            speed,
            limit,
            gap,
            side,
            sidegap,
            sideback,
            lane,
            headspeed,
        };
        let is_ahead_valid = 1 <= limit && limit <= MAX_LIMIT && speed <= limit && gap <= MAX_GAP;
        let is_beside_valid = sidegap <= MAX_GAP && sideback <= MAX_GAP && lane <= 1;
        if is_ahead_valid && is_beside_valid && headspeed <= limit {
            Some(ChangeView { view })
        } else {
            None
        }
    }

    /// The view's numbers, all in range.
    pub fn get(self) -> View
        ensures value { result ≡ self }
        ensures in_range { IsViewInRange self }
    {
        let ChangeView { view } = self;
        view
    }
}
