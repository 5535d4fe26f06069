//! The speed of a car in the words of Nagel and Schreckenberg (1992). Programs that embed trlab call it to compare; the
//! rules of trlab compute this speed by their programs.

ghost use Rattle.std.specs.Prelude.{◌≡◌, ◌≤◌};
ghost use Rattle.trlab_rules.specs.Published.{safe_speed, wording_1992};

/// The speed of a car after acceleration and slowing down, as Nagel and Schreckenberg worded it in 1992.
///
/// Their distance to the car ahead is one more than the gap; both are in cells. A car whose speed is below the limit
/// goes one faster if the distance is above its speed plus one. Then a car whose speed is at least the distance slows
/// down to one less than the distance. For a speed of at most the limit this is the minimum of the speed plus one, the
/// limit and the gap.
pub fn slowed_1992(speed: u32, limit: u32, gap: u32) -> u32
    ensures wording { result ≡ wording_1992 speed limit gap }
    ensures safe { speed ≤ limit → result ≡ safe_speed speed limit gap }
{
    let accelerated = if speed < limit && speed < gap {
        speed + 1
    } else {
        speed
    };
    accelerated.min(gap)
}
