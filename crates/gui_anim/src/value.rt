//! The value of an animation at a time since its start.
ghost use Rattle.std.specs.Prelude.{◌≡◌, ◌+◌, ◌<◌, ◌≤◌, pos, neg_ℤ, ◌*ℤ◌, ◌≤ℤ◌};
ghost use Rattle.std.specs.Int.{int_div_euclid};
ghost use Rattle.play_defs.specs.Animation.{IsAnim, IsEnd, curve, progress as progress_of};
ghost use Rattle.play_defs.specs.Animation.{between as between_of, is_over as over, last_value as last_of};
ghost use Rattle.play_defs.specs.Animation.{in_round as round_of, after_delay, value_at};
ghost use Rattle.play_defs.specs.Laws.{LiesBetween};

use gui_base::Path;
use play_defs::{AnimSpec, AnimValue, WHOLE};

/// What an animation gives so many milliseconds after its start. It lies between the ends of the animation.
pub fn value_of(spec: &AnimSpec, elapsed: u64) -> AnimValue
    requires { IsAnim spec.now }
    ensures value { result ≡ value_at spec.now elapsed }
    ensures between { LiesBetween spec.now.start spec.now.end result }
{
    let delay = u64::from(spec.delay);
    if elapsed < delay {
        AnimValue::Before
    } else {
        value_after(spec, elapsed - delay)
    }
}

/// What it gives so many milliseconds after the delay.
fn value_after(spec: &AnimSpec, since: u64) -> AnimValue
    requires { IsAnim spec.now }
    ensures { result ≡ after_delay spec.now since }
{
    let round = u64::from(spec.time + spec.playback);
    if is_over(spec.repeat, since / round) {
        AnimValue::Last(last_value(spec))
    } else {
        AnimValue::Now(in_round(spec, (since % round) as u32))
    }
}

/// Whether so many rounds are all of them.
fn is_over(repeat: Option<u16>, rounds: u64) -> bool
    ensures { result ≡ over repeat rounds }
{
    match repeat {
        None => false,
        Some(repeat) => rounds >= u64::from(repeat),
    }
}

/// Where the last round ends.
fn last_value(spec: &AnimSpec) -> i32
    ensures { result ≡ last_of spec.now }
{
    if spec.playback > 0 {
        spec.start
    } else {
        spec.end
    }
}

/// The value so many milliseconds after a round began.
#[tactic(auto, unfolding(play_defs::specs::Animation::in_round))]
fn in_round(spec: &AnimSpec, r: u32) -> i32
    requires anim { IsAnim spec.now }
    requires within { r < spec.now.time + spec.now.playback }
    ensures { result ≡ round_of spec.now r }
{
    if r < spec.time {
        let parts = progress(spec.path, WHOLE * r / spec.time);
        between(spec.start, spec.end, parts)
    } else {
        let parts = progress(spec.path, WHOLE * (r - spec.time) / spec.playback);
        between(spec.end, spec.start, parts)
    }
}

/// How many parts of the way lie behind after so many parts of the time.
fn progress(path: Path, s: u32) -> u32
    requires { s ≤ WHOLE }
    ensures value { result ≡ progress_of path s }
    ensures within { result ≤ WHOLE }
{
    match path {
        Path::Linear => s,
        Path::Step => 0,
        Path::EaseIn => on_curve(50, 100, s),
        Path::EaseOut => on_curve(900, 950, s),
        Path::EaseInOut => on_curve(50, 952, s),
    }
}

/// A cubic curve from 0 to the whole, by the heights of its two middle points.
fn on_curve(c1: u32, c2: u32, s: u32) -> u32
    requires heights { (c1 ≤ WHOLE) × (c2 ≤ WHOLE) }
    requires within { s ≤ WHOLE }
    ensures value { result ≡ curve c1 c2 s }
    ensures within { result ≤ WHOLE }
{
    let t = u64::from(WHOLE - s);
    let s = u64::from(s);
    let first = 3 * t * t * s * u64::from(c1);
    let second = 3 * t * s * s * u64::from(c2);
    let third = 1024 * s * s * s;
    ((first + second + third) / 1_073_741_824) as u32
}

/// The number so many parts on the way from one to another, rounded down.
fn between(from: i32, to: i32, parts: u32) -> i32
    requires ends { IsEnd from × IsEnd to }
    requires within { parts ≤ WHOLE }
    ensures { result ≡ between_of from to parts }
{
    from + share(to - from, parts)
}

/// So many parts of a number, rounded down.
fn share(all: i32, parts: u32) -> i32
    requires least { neg_ℤ (pos 8000) ≤ℤ all }
    requires most { all ≤ℤ pos 8000 }
    requires within { parts ≤ WHOLE }
    ensures value { result ≡ int_div_euclid (all *ℤ pos parts) (pos WHOLE) }
    ensures up { pos 0 ≤ℤ all → (pos 0 ≤ℤ result) × (result ≤ℤ all) }
    ensures down { all ≤ℤ pos 0 → (all ≤ℤ result) × (result ≤ℤ pos 0) }
{
    (all * parts as i32).div_euclid(WHOLE as i32)
}
