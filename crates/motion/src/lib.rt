// Percents and positions, the ticks of a run, one move and the motor.
#![tactic(auto)]

ghost use Rattle.std.specs.Prelude.{◌≡◌, ◌≤◌};
ghost use Rattle.motion.specs.Motion.{to_position, to_percent, run_ticks, within, toward, motor};

use numbers::pick;

// 2611 is 2.55 in 1024ths, rounded down, and 511 of them more make it the nearest, halves down.
pub fn to_position(percent: u8) -> u8
    requires { percent ≤ 100 }
    ensures { result ≡ to_position percent }
{
    ((2611 * (percent as u32) + 511) >> 10) as u8
}

#[tactic(auto, unfolding(crate::specs::Motion::to_percent))]
pub fn to_percent(position: u8) -> u8
    ensures { result ≡ to_percent position }
{
    ((200 * (position as u16) + 255) / 510) as u8
}

// K, the ticks of a run.
#[tactic(auto, unfolding(crate::specs::Motion::run_ticks))]
pub fn run_ticks(rate: u16) -> u8
    requires { (1 ≤ rate) × (rate ≤ 255) }
    ensures { result ≡ run_ticks rate }
{
    ((255 + (rate - 1)) / rate) as u8
}

// v brought into low to high.
pub fn within(low: u8, high: u8, v: u8) -> u8
    ensures { result ≡ within low high v }
{
    low.max(high.min(v))
}

// One move.
#[tactic(auto, unfolding(crate::specs::Motion::toward))]
pub fn toward(position: u8, target: u8, rate: u8) -> u8
    ensures { result ≡ toward position target rate }
{
    if position < target {
        position + rate.min(target - position)
    } else {
        position - rate.min(position - target)
    }
}

// 0 still, 1 rising, 2 falling, 1 and 2 exchanged under OpenCloseDirection 1.
// Kept: no enum, which would be no plainer: what 1 and 2 mean depends on the direction, so that no name would be true of them.
#[tactic(auto, unfolding(crate::specs::Motion::motor))]
pub fn motor(direction: u16, before: u8, after: u8) -> u8
    ensures { result ≡ motor direction before after }
{
    let swapped = direction == 1;
    pick(
        before == after,
        0,
        pick(before < after, pick(swapped, 2, 1), pick(swapped, 1, 2)),
    )
}
