//! The values of animations, and the animations that run. The values were worked out by a program of its own.
ghost use Rattle.std.specs.Prelude.{◌≡◌, true};
ghost use Rattle.play_defs.specs.Animation.{IsAnim};

use crate::checks::{holds, same};
use gui_anim::{AnimSpec, AnimValue, Anims, Path, Var, value_of};
use gui_base::{Handle, Pool, Refusal};

/// From 0 to 100 in a second, once.
fn hundred(path: Path) -> AnimSpec
    ensures { IsAnim result }
{
    AnimSpec {
        h: Handle(10),
        var: Var::X,
        start: 0,
        end: 100,
        time: 1000,
        delay: 0,
        playback: 0,
        repeat: Some(1),
        path,
    }
}

/// From 100 to -100 in 500 ms after 40, and back in 200, three times.
fn there_and_back() -> AnimSpec
    ensures { IsAnim result }
{
    AnimSpec {
        h: Handle(11),
        var: Var::Value,
        start: 100,
        end: -100,
        time: 500,
        delay: 40,
        playback: 200,
        repeat: Some(3),
        path: Path::Linear,
    }
}

/// Whether a path gives these values at 0, 250, 500 and 999 ms, and ends at 100.
fn goes(path: Path, wanted: [i32; 4]) -> bool {
    let spec = hundred(path);
    let at = |elapsed: u64| value_of(&spec, elapsed);
    at(0) == AnimValue::Now(wanted[0])
        && at(250) == AnimValue::Now(wanted[1])
        && at(500) == AnimValue::Now(wanted[2])
        && at(999) == AnimValue::Now(wanted[3])
        && at(1000) == AnimValue::Last(100)
}

#[test]
fn five_paths_go_from_end_to_end(rt: HostRuntime) {
    holds(&rt, goes(Path::Linear, [0, 25, 50, 99]));
    holds(&rt, goes(Path::Step, [0, 0, 0, 0]));
    holds(&rt, goes(Path::EaseIn, [0, 4, 17, 99]));
    holds(&rt, goes(Path::EaseOut, [0, 51, 80, 99]));
    holds(&rt, goes(Path::EaseInOut, [0, 16, 49, 99]));
}

#[test]
fn delay_playback_and_repeats(rt: HostRuntime) {
    let spec = there_and_back();
    let values = [
        value_of(&spec, 39),
        value_of(&spec, 40),
        value_of(&spec, 211),
        value_of(&spec, 540),
        value_of(&spec, 639),
        value_of(&spec, 740),
        value_of(&spec, 2139),
        value_of(&spec, 2140),
        value_of(&spec, u64::MAX),
    ];
    same(
        &rt,
        &values,
        &[
            AnimValue::Before,
            AnimValue::Now(100),
            AnimValue::Now(31),
            AnimValue::Now(-100),
            AnimValue::Now(-2),
            AnimValue::Now(100),
            AnimValue::Now(98),
            AnimValue::Last(100),
            AnimValue::Last(100),
        ],
    );
}

/// Whose the nth animation is, and when it was started.
fn nth(anims: &Anims, n: u32) -> Option<(u16, u64)> {
    let (spec, started) = anims.at(n)?;
    Some((spec.h.0, started))
}

#[test]
fn the_last_slot_and_a_replacement(rt: HostRuntime) {
    let mut anims = Anims::open(rt.alloc(), 2).expect(&rt, "no memory");
    let mut third = hundred(Path::Step);
    third.var = Var::Y;
    let answers = [
        anims.start(hundred(Path::Step), 7),
        anims.start(there_and_back(), 8),
        anims.start(third, 9),
        anims.start(hundred(Path::Linear), 9),
        anims.stop(Handle(11), Var::X),
    ];
    same(
        &rt,
        &answers,
        &[
            Ok(()),
            Ok(()),
            Err(Refusal::Full(Pool::Anims)),
            Ok(()),
            Err(Refusal::Unknown),
        ],
    );
    let running = [nth(&anims, 0), nth(&anims, 1), nth(&anims, 2)];
    same(&rt, &running, &[Some((11, 8)), Some((10, 9)), None]);
    anims.drop_ended(1008);
    same(&rt, &anims.spare(), &0);
    anims.drop_ended(1009);
    same(&rt, &nth(&anims, 0), &Some((11, 8)));
    same(&rt, &anims.spare(), &1);
    anims.forget(Handle(11));
    same(&rt, &anims.spare(), &2);
}
