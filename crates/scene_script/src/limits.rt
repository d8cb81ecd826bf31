//! The limits that the words of the command line ask for.
ghost use Rattle.std.specs.Prelude.{◌≡◌, ◌≤◌, ◌∷◌, [], Some, IfOk, IfErr, IfSome, MatchOption, is_some};
ghost use Rattle.std.specs.Prelude.{false, codes, filter_map, fold, map, length, unwrap_or};
ghost use Rattle.std.specs.Option.{option_map};
ghost use Rattle.std.specs.List.{list_all, list_any};
ghost use Rattle.clap.specs.Matches.{first_value, matched_of, raw_values};
ghost use Rattle.clap.specs.Words.{app_of, found_of, kind_of, with_rule};
ghost use Rattle.clap.specs.declared.error.kind.ErrorKind.TheVariants.{OutOfMemory};
ghost use Rattle.gui_base.specs.Bounded.{bounds_of};
ghost use Rattle.gui_base.specs.Gridded.{size_in};
ghost use Rattle.run_defs.specs.Words.{number_within, setting_of, sets_a_limit, with_pool, with_make};
ghost use Rattle.run_defs.specs.Words.{size_said, are_whole, with_blocks, with_further, with_width, limits_of};
ghost use Rattle.scene_script.specs.CommandLine.{begins_with_dash, limits_by, needed, scene_app, setting_by, Splits};

use crate::numbers::natural;
use crate::words::cut;
use clap::error::ErrorKind;
use clap::{Arg, ArgAction, ArgMatches, Command, Error};
use gui_base::{Block, Limits, NoMemory, POOLS, Pool};
use std::alloc::{AllocError, Global};

/// The command with one more word, which has to be there.
fn with_needed<'a>(
    alloc: Global,
    command: Command<'a>,
    name: &'a str,
) -> Result<Command<'a>, AllocError>
    ensures { IfOk result (λ c. app_of c ≡ with_rule (app_of command.entry) (needed name.entry.now)) }
{
    command.arg(Arg::new(alloc, name).required(true))
}

/// The command of the program: three values, and a list of what follows them.
fn scene_command<'a>(alloc: Global) -> Result<Command<'a>, AllocError>
    ensures { IfOk result (λ c. app_of c ≡ scene_app) }
{
    let bare = Command::new(alloc, "scene")
        .no_binary_name(true)
        .disable_help_flag(true);
    let one = with_needed(alloc, bare, "width")?;
    let two = with_needed(alloc, one, "height")?;
    let three = with_needed(alloc, two, "lines")?;
    three.arg(Arg::new(alloc, "further").action(ArgAction::Append))
}

/// The words of the command line, none of which begins with a dash, as `clap` splits them: three values, and
/// a list of what follows them.
fn split<'a>(alloc: Global, words: &'a [&str]) -> Result<ArgMatches<'a>, Error>
    requires { list_any begins_with_dash (map (λ w. w.now) words.now) ≡ false }
    ensures split { IfOk result (λ m. Splits (map (λ w. w.now) words.entry.now) (found_of m)) }
    ensures memory { IfErr result (λ e. 3 ≤ length words.entry.now → kind_of e ≡ OutOfMemory) }
{
    let command = scene_command(alloc)?;
    command.try_get_matches_from(words)
}

/// A number within these ends.
fn number(word: &[u8], low: u32, high: u32) -> Option<u32>
    ensures value { result ≡ number_within low high word.now }
    ensures inside { IfSome result (λ n. (low ≤ n) × (n ≤ high)) }
{
    natural(word, low, high).ok()
}

/// What a further word of the command line may set.
#[derive(Clone, Copy)]
enum Key {
    /// The slots of a pool.
    Slots(Pool),
    /// The made script.
    Make,
    /// The blocks that the panel takes.
    Blocks,
}

/// What a word sets of this, if it does.
#[tactic(auto, unfolding(run_defs::specs::Words::setting_of))]
fn setting(word: &[u8], key: Key) -> Option<&[u8]>
    ensures { option_map (λ s. s.now) result ≡ setting_by key word.now }
{
    let rest = match key {
        Key::Slots(pool) => word.strip_prefix(pool.name().as_bytes())?,
        Key::Make => word.strip_prefix(b"make".as_slice())?,
        Key::Blocks => word.strip_prefix(b"block".as_slice())?,
    };
    rest.strip_prefix(b"=".as_slice())
}

/// Whether a word sets one of these pools.
fn sets_one(word: &[u8], pools: &[Pool]) -> bool
    ensures { result ≡ list_any (λ pool. is_some (setting_of pool word.now)) pools.now }
{
    pools
        .iter()
        .any(|pool| setting(word, Key::Slots(*pool)).is_some())
}

/// Whether a word sets a pool, the made script, or the blocks.
#[tactic(auto, unfolding(run_defs::specs::Words::sets_a_pool))]
fn sets_a_limit(word: &[u8]) -> bool
    ensures { result ≡ sets_a_limit word.now }
{
    sets_one(word, &POOLS)
        || setting(word, Key::Make).is_some()
        || setting(word, Key::Blocks).is_some()
}

/// What the first word that sets this sets of it, and the words after that one.
fn first_setting<'a>(words: &'a [&'a str], key: Key) -> Option<(&'a [u8], &'a [&'a str])>
    ensures { MatchOption result
        (filter_map (setting_by key) (map (λ w. w.now) words.now) ≡ [])
        (λ t. filter_map (setting_by key) (map (λ w. w.now) words.now)
        ≡ t.0.now ∷ filter_map (setting_by key) (map (λ w. w.now) t.1.now)) }
{
    let mut words = words;
    while let [word, later @ ..] = words {
        words = later;
        if let Some(number) = setting(word.as_bytes(), key) {
            return Some((number, words));
        }
    }
    None
}

/// The limits with what the words set of a pool: nothing, or once a number in its range.
#[tactic(auto, unfolding(run_defs::specs::Words::with_pool))]
fn with_pool(limits: Option<Limits>, pool: Pool, words: &[&str]) -> Option<Limits>
    ensures { option_map bounds_of result
        ≡ with_pool (map (λ w. w.now) words.now) (option_map bounds_of limits) pool }
{
    let mut limits = limits?;
    let Some((number_word, later)) = first_setting(words, Key::Slots(pool)) else {
        return Some(limits);
    };
    if first_setting(later, Key::Slots(pool)).is_some() {
        return None;
    }
    let (least, most) = pool.range();
    let count = number(number_word, least, most)?;
    limits.set_slots(pool, count);
    Some(limits)
}

/// The limits with what the words set of each of these pools.
fn with_each(limits: Option<Limits>, pools: &[Pool], words: &[&str]) -> Option<Limits>
    ensures { option_map bounds_of result
        ≡ fold (with_pool (map (λ w. w.now) words.now)) (option_map bounds_of limits) pools.now }
{
    let mut limits = limits;
    for pool in pools {
        limits = with_pool(limits, *pool, words);
    }
    limits
}

/// The limits with these sizes, if they are in range.
#[tactic(auto, unfolding(run_defs::specs::Words::with_width))]
fn sizes(width: &[u8], height: &[u8], lines: &[u8]) -> Option<Limits>
    ensures { option_map bounds_of result ≡ with_width (number_within 1 1024 width.now) height.now lines.now }
{
    let width = number(width, 1, 1024)?;
    let height = number(height, 1, 1024)?;
    let lines = number(lines, 1, height)?;
    Some(Limits::with_sizes(width, height, lines))
}

/// Whether each word sets a pool, the made script, or the blocks.
fn set_limits(words: &[&str]) -> bool
    ensures { result ≡ list_all sets_a_limit (map (λ w. w.now) words.now) }
{
    for word in words {
        if !sets_a_limit(word.as_bytes()) {
            return false;
        }
    }
    true
}

/// The limits with what the words set of the made script: nothing, or once a number in its range.
fn with_make(limits: Limits, words: &[&str]) -> Option<Limits>
    ensures { option_map bounds_of result
        ≡ with_make (map (λ w. w.now) words.now) (Some (bounds_of limits)) }
{
    let mut limits = limits;
    let Some((number_word, later)) = first_setting(words, Key::Make) else {
        return Some(limits);
    };
    if first_setting(later, Key::Make).is_some() {
        return None;
    }
    let k = number(number_word, 1, 1000)?;
    limits.make = Some(k as u16);
    Some(limits)
}

/// The size of a block: two numbers from 1 to 16, with an x between them.
#[tactic(auto, using(crate::proofs::LimitLemmas::no_size))]
fn size_said(text: &[u8]) -> Option<Block>
    ensures { option_map size_in result ≡ size_said text.now }
{
    match cut(text, b'x') {
        (_, None) => None,
        (width, Some(height)) => {
            let w = number(width, 1, 16)?;
            let h = number(height, 1, 16)?;
            Some(Block { w, h })
        }
    }
}

/// Whether the panel of these limits and its draw buffer consist of whole blocks of this size.
fn are_whole(limits: &Limits, block: Block) -> bool
    ensures { result ≡ are_whole (bounds_of limits.now) (size_in block) }
{
    limits.width % block.w == 0 && limits.height % block.h == 0 && limits.lines % block.h == 0
}

/// The limits with what the words set of the blocks: nothing, or once a size of which they have whole ones.
fn with_blocks(limits: Limits, words: &[&str]) -> Option<Limits>
    ensures { option_map bounds_of result
        ≡ with_blocks (map (λ w. w.now) words.now) (Some (bounds_of limits)) }
{
    let mut limits = limits;
    let Some((text, later)) = first_setting(words, Key::Blocks) else {
        return Some(limits);
    };
    if first_setting(later, Key::Blocks).is_some() {
        return None;
    }
    let block = size_said(text)?;
    if !are_whole(&limits, block) {
        return None;
    }
    limits.set_block(block);
    Some(limits)
}

/// The limits with what the words set of them.
#[tactic(auto, unfolding(run_defs::specs::Words::with_further))]
fn with_further(limits: Limits, words: &[&str]) -> Option<Limits>
    ensures { option_map bounds_of result
        ≡ with_further (Some (bounds_of limits)) (map (λ w. w.now) words.now) }
{
    if !set_limits(words) {
        return None;
    }
    let limits = with_make(with_each(Some(limits), &POOLS, words)?, words)?;
    with_blocks(limits, words)
}

/// The limits of three words and of what follows them, if they have limits.
#[tactic(auto, using(crate::proofs::LimitLemmas::nothing_set))]
fn limits_by(
    width: Option<&str>,
    height: Option<&str>,
    lines: Option<&str>,
    further: Option<&[&str]>,
) -> Option<Limits>
    ensures { option_map bounds_of result
        ≡ limits_by (option_map (λ w. w.now) width.entry) (option_map (λ w. w.now) height.entry)
        (option_map (λ w. w.now) lines.entry)
        (unwrap_or (option_map (λ s. map (λ w. w.now) s.now) further.entry) []) }
{
    let limits = sizes(width?.as_bytes(), height?.as_bytes(), lines?.as_bytes())?;
    with_further(limits, further.unwrap_or(&[]))
}

/// Whether a word begins with a dash.
fn has_dash(words: &[&str]) -> bool
    ensures { result ≡ list_any begins_with_dash (map (λ w. w.now) words.now) }
{
    for word in words {
        if matches!(word.as_bytes(), [b'-', ..]) {
            return true;
        }
    }
    false
}

/// The limits of the words that were found, if they have limits.
fn limits_found(matches: &ArgMatches) -> Option<Limits>
    ensures { option_map bounds_of result ≡ limits_by (first_value (found_of matches.now) (codes "width"))
        (first_value (found_of matches.now) (codes "height")) (first_value (found_of matches.now) (codes "lines"))
        (unwrap_or (option_map raw_values (matched_of (found_of matches.now) (codes "further"))) []) }
{
    limits_by(
        matches.get_str("width"),
        matches.get_str("height"),
        matches.get_str("lines"),
        matches.get_strs("further"),
    )
}

/// The limits that the words of the command line ask for, if they have limits. The words are the width, the
/// height and the lines, and then what they set: the pools, a made script, and the blocks that the panel takes.
/// A word that begins with a dash has none.
#[tactic(auto, using(crate::proofs::LimitLemmas::dash_has_none, crate::proofs::LimitLemmas::few_have_none))]
pub fn limits_of(alloc: Global, words: &[&str]) -> Result<Option<Limits>, NoMemory>
    ensures { IfOk result (λ limits. option_map bounds_of limits ≡ limits_of (map (λ w. w.now) words.now)) }
{
    if has_dash(words) {
        return Ok(None);
    }
    match split(alloc, words) {
        Ok(matches) => Ok(limits_found(&matches)),
        Err(error) => match error.kind() {
            ErrorKind::OutOfMemory => Err(NoMemory),
            _ => Ok(None),
        },
    }
}
