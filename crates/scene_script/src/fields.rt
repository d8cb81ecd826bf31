//! The fields of a line, taken one after another.
ghost use Rattle.std.specs.Prelude.{◌≡◌, ◌<◌};
ghost use Rattle.gui_base.specs.Names.{slice};
ghost use Rattle.run_defs.specs.Commands.{handle, new_handle, extent, align, flow, state};
ghost use Rattle.run_defs.specs.Commands.{selector, property, code, glyph_offset, bytes, text};
ghost use Rattle.run_defs.specs.Commands.{range_low, range_high, event, aim, action_name, key, steps};
ghost use Rattle.run_defs.specs.Commands.{var, repeat, path};
ghost use Rattle.run_defs.specs.Commands.{color_value, align_value, value_for};
ghost use Rattle.run_defs.specs.Fields.{number_in, count_in, name_in, value, past, value_or, with_fault};
ghost use Rattle.run_defs.specs.Fields.{next_of, after_next, fields, start, ended};
ghost use Rattle.run_defs.specs.Language.{first_fault, words_of};
ghost use Rattle.scene_script.specs.Questions.{pools, said_or_none};

use crate::aims::aim;
use crate::lengths::length;
use crate::numbers::{bytes, code, color, count, number, number_above, offset, small};
use crate::pool_names::pools;
use crate::repeats::repeat;
use crate::selectors::selector;
use crate::texts::text;
use crate::words::next_word;
use gui_base::events::{EVENTS, KEYS, PATHS, VARS};
use gui_base::intervals::{Count, GLYPH_OFFSET, HANDLE, Interval, NEW_HANDLE, TURN, VALUE};
use gui_base::props::PROPS;
use gui_base::words::{ALIGNS, FLOWS, STATES, TEXT_ALIGNS};
use gui_base::{
    Aim, Align, EventKind, Flow, Handle, Key, Length, Part, Path, Pool, Prop, Selector, State,
    TextAlign, Var, named,
};
use run_defs::{ACTIONS, ActionName, Line, LineFault};
use scene_defs::{RowBytes, Text};
use std::marker::Model;

/// The words of a line to come, and the worst fault of the fields before.
#[derive(Drop)]
pub(crate) struct Fields<'a> {
    rest: &'a [u8],
    fault: Option<LineFault>,
}

impl<'a> Model for Fields<'a> {
    ghost use Rattle.run_defs.specs.Fields.{Progress};
    ghost use Rattle.run_defs.specs.Language.{words_of};

    ghost Value = { Progress };

    ghost view = { λ f. record { fault = f.fault; rest = words_of f.rest.now } };
}

impl<'a> Fields<'a> {
    /// No field is taken yet.
    pub(crate) fn new(words: &'a [u8]) -> Fields<'a>
        ensures { result ≡ start (words_of words.now) }
    {
        Fields {
            rest: words,
            fault: None,
        }
    }

    /// A number of an interval.
    #[tactic(auto, unfolding(run_defs::specs::Fields::value, run_defs::specs::Fields::past))]
    pub(crate) fn number(&mut self, interval: Interval) -> i32
        ensures value { result ≡ value (number_in interval) self.old }
        ensures state { self.new ≡ past (number_in interval) self.old }
    {
        let word = self.word();
        self.note(number(word, interval.low, interval.high), interval.low)
    }

    /// A number of an interval that has none below 0.
    #[tactic(auto, unfolding(run_defs::specs::Fields::value, run_defs::specs::Fields::past))]
    pub(crate) fn count(&mut self, interval: Count) -> u16
        ensures value { result ≡ value (count_in interval) self.old }
        ensures state { self.new ≡ past (count_in interval) self.old }
    {
        let word = self.word();
        self.note(count(word, interval), interval.low)
    }

    /// The name of an object.
    #[tactic(auto, using(run_defs::proofs::Fields::overs))]
    pub(crate) fn handle(&mut self) -> Handle
        ensures value { result ≡ value handle self.old }
        ensures state { self.new ≡ past handle self.old }
    {
        Handle(self.count(HANDLE))
    }

    /// The name of a new object.
    #[tactic(auto, using(run_defs::proofs::Fields::overs))]
    pub(crate) fn new_handle(&mut self) -> Handle
        ensures value { result ≡ value new_handle self.old }
        ensures state { self.new ≡ past new_handle self.old }
    {
        Handle(self.count(NEW_HANDLE))
    }

    /// A wanted width or height.
    #[tactic(auto, unfolding(run_defs::specs::Fields::value, run_defs::specs::Fields::past))]
    pub(crate) fn extent(&mut self) -> Length
        ensures value { result ≡ value extent self.old }
        ensures state { self.new ≡ past extent self.old }
    {
        let word = self.word();
        self.note(length(word), Length::Pixels(0))
    }

    /// Where an object stands in its parent's content area.
    #[tactic(auto, unfolding(run_defs::specs::Commands::align))]
    pub(crate) fn align(&mut self) -> Align
        ensures value { result ≡ value align self.old }
        ensures state { self.new ≡ past align self.old }
    {
        self.name(&ALIGNS, Align::TopLeft)
    }

    /// How an object arranges its children.
    #[tactic(auto, unfolding(run_defs::specs::Commands::flow))]
    pub(crate) fn flow(&mut self) -> Flow
        ensures value { result ≡ value flow self.old }
        ensures state { self.new ≡ past flow self.old }
    {
        self.name(&FLOWS, Flow::Free)
    }

    /// A number of an interval that has none below 0 and none above 255.
    #[tactic(auto, unfolding(run_defs::specs::Fields::value, run_defs::specs::Fields::past))]
    pub(crate) fn small(&mut self, interval: Count) -> u8
        requires low { interval.low < 256 }
        requires high { interval.high < 256 }
        ensures value { result ≡ value (count_in interval) self.old }
        ensures state { self.new ≡ past (count_in interval) self.old }
    {
        let word = self.word();
        self.note(small(word, interval), interval.low as u8)
    }

    /// Where the box of a glyph stands in its cell.
    #[tactic(auto, unfolding(run_defs::specs::Fields::value, run_defs::specs::Fields::past))]
    pub(crate) fn glyph_offset(&mut self) -> i8
        ensures value { result ≡ value glyph_offset self.old }
        ensures state { self.new ≡ past glyph_offset self.old }
    {
        let word = self.word();
        self.note(offset(word, GLYPH_OFFSET), -64)
    }

    /// The code of a character that may have a glyph.
    #[tactic(auto, unfolding(run_defs::specs::Fields::value, run_defs::specs::Fields::past))]
    pub(crate) fn code(&mut self) -> char
        ensures value { result ≡ value code self.old }
        ensures state { self.new ≡ past code self.old }
    {
        let word = self.word();
        self.note(code(word), ' ')
    }

    /// Bytes.
    #[tactic(auto, unfolding(run_defs::specs::Fields::value, run_defs::specs::Fields::past))]
    pub(crate) fn bytes(&mut self) -> RowBytes<'a>
        ensures value { result ≡ value bytes self.old }
        ensures state { self.new ≡ past bytes self.old }
    {
        let word = self.word();
        match bytes(word) {
            Ok(bytes) => bytes,
            Err(fault) => {
                self.fail(fault);
                RowBytes::plain(b"")
            }
        }
    }

    /// The text of a label or a checkbox.
    #[tactic(auto, unfolding(run_defs::specs::Fields::value, run_defs::specs::Fields::past))]
    pub(crate) fn text(&mut self) -> Text<'a>
        ensures value { result ≡ value text self.old }
        ensures state { self.new ≡ past text self.old }
    {
        let word = self.word();
        match text(word) {
            Ok(text) => text,
            Err(fault) => {
                self.fail(fault);
                Text::plain("")
            }
        }
    }

    /// The lower end of the range of a bar or a slider.
    pub(crate) fn range_low(&mut self) -> i32
        ensures value { result ≡ value range_low self.old }
        ensures state { self.new ≡ past range_low self.old }
    {
        self.number(Interval {
            low: VALUE.low,
            high: VALUE.high - 1,
        })
    }

    /// Its upper end, which is above the lower one.
    #[tactic(auto, unfolding(run_defs::specs::Fields::value, run_defs::specs::Fields::past))]
    pub(crate) fn range_high(&mut self, low: i32) -> i32
        ensures value { result ≡ value (range_high low) self.old }
        ensures state { self.new ≡ past (range_high low) self.old }
    {
        let word = self.word();
        self.note(number_above(word, low, VALUE.high), VALUE.high)
    }

    /// What a name of a table means.
    #[tactic(auto, unfolding(run_defs::specs::Fields::value, run_defs::specs::Fields::past))]
    pub(crate) fn name<T: Copy>(&mut self, names: &[(&'static str, T)], stand_in: T) -> T
        ensures value { result ≡ value (name_in (slice {A = T} names.now) stand_in) self.old }
        ensures state { self.new ≡ past (name_in (slice {A = T} names.now) stand_in) self.old }
    {
        let word = self.word();
        self.note(named(names, word).ok_or(LineFault::Syntax), stand_in)
    }

    /// A state.
    #[tactic(auto, unfolding(run_defs::specs::Commands::state))]
    pub(crate) fn state(&mut self) -> State
        ensures value { result ≡ value state self.old }
        ensures state { self.new ≡ past state self.old }
    {
        self.name(&STATES, State::Checked)
    }

    /// An event.
    #[tactic(auto, unfolding(run_defs::specs::Commands::event))]
    pub(crate) fn event(&mut self) -> EventKind
        ensures value { result ≡ value event self.old }
        ensures state { self.new ≡ past event self.old }
    {
        self.name(&EVENTS, EventKind::Pressed)
    }

    /// A key of the keypad.
    #[tactic(auto, unfolding(run_defs::specs::Commands::key))]
    pub(crate) fn key(&mut self) -> Key
        ensures value { result ≡ value key self.old }
        ensures state { self.new ≡ past key self.old }
    {
        self.name(&KEYS, Key::Up)
    }

    /// How many steps the encoder turns, backwards below 0.
    #[tactic(auto, unfolding(run_defs::specs::Fields::value, run_defs::specs::Fields::past))]
    pub(crate) fn steps(&mut self) -> i8
        ensures value { result ≡ value steps self.old }
        ensures state { self.new ≡ past steps self.old }
    {
        let word = self.word();
        self.note(offset(word, TURN), -100)
    }

    /// What an animation moves.
    #[tactic(auto, unfolding(run_defs::specs::Commands::var))]
    pub(crate) fn var(&mut self) -> Var
        ensures value { result ≡ value var self.old }
        ensures state { self.new ≡ past var self.old }
    {
        self.name(&VARS, Var::X)
    }

    /// How often an animation is played.
    #[tactic(auto, unfolding(run_defs::specs::Fields::value, run_defs::specs::Fields::past))]
    pub(crate) fn repeat(&mut self) -> Option<u16>
        ensures value { result ≡ value repeat self.old }
        ensures state { self.new ≡ past repeat self.old }
    {
        let word = self.word();
        self.note(repeat(word), None)
    }

    /// How an animation goes from its start to its end.
    #[tactic(auto, unfolding(run_defs::specs::Commands::path))]
    pub(crate) fn path(&mut self) -> Path
        ensures value { result ≡ value path self.old }
        ensures state { self.new ≡ past path self.old }
    {
        self.name(&PATHS, Path::Linear)
    }

    /// What an action does.
    #[tactic(auto, unfolding(run_defs::specs::Commands::action_name))]
    pub(crate) fn action_name(&mut self) -> ActionName
        ensures value { result ≡ value action_name self.old }
        ensures state { self.new ≡ past action_name self.old }
    {
        self.name(&ACTIONS, ActionName::Say)
    }

    /// What an action is for.
    #[tactic(auto, unfolding(run_defs::specs::Fields::value, run_defs::specs::Fields::past))]
    pub(crate) fn aim(&mut self) -> Aim
        ensures value { result ≡ value aim self.old }
        ensures state { self.new ≡ past aim self.old }
    {
        let word = self.word();
        self.note(aim(word), Aim::Target)
    }

    /// A property.
    #[tactic(auto, unfolding(run_defs::specs::Commands::property))]
    pub(crate) fn property(&mut self) -> Prop
        ensures value { result ≡ value property self.old }
        ensures state { self.new ≡ past property self.old }
    {
        self.name(&PROPS, Prop::BgColor)
    }

    /// A pool, or all of them if no word is left.
    #[tactic(auto, unfolding(run_defs::specs::Fields::value, run_defs::specs::Fields::past))]
    pub(crate) fn pools(&mut self) -> Option<Pool>
        ensures value { result ≡ value pools self.old }
        ensures state { self.new ≡ past pools self.old }
    {
        let word = self.word();
        self.note(pools(word), None)
    }

    /// A part and states.
    #[tactic(auto, unfolding(run_defs::specs::Fields::value, run_defs::specs::Fields::past))]
    pub(crate) fn selector(&mut self) -> Selector
        ensures value { result ≡ value selector self.old }
        ensures state { self.new ≡ past selector self.old }
    {
        let stand_in = Selector {
            part: Part::Main,
            states: 0,
        };
        let word = self.word();
        self.note(selector(word).ok_or(LineFault::Syntax), stand_in)
    }

    /// A value of a property.
    pub(crate) fn value(&mut self, prop: Prop) -> i32
        ensures value { result ≡ value (value_for prop) self.old }
        ensures state { self.new ≡ past (value_for prop) self.old }
    {
        match prop {
            Prop::BgColor | Prop::BorderColor | Prop::ImgRecolor | Prop::TextColor => self.color(),
            Prop::TextAlign => self.text_align(),
            _ => self.number(prop.values()),
        }
    }

    /// A colour.
    #[tactic(auto, unfolding(run_defs::specs::Fields::value, run_defs::specs::Fields::past))]
    fn color(&mut self) -> i32
        ensures value { result ≡ value color_value self.old }
        ensures state { self.new ≡ past color_value self.old }
    {
        let word = self.word();
        self.note(color(word), 0)
    }

    /// The number of an alignment of a text.
    #[tactic(auto, using(run_defs::proofs::Fields::overs))]
    fn text_align(&mut self) -> i32
        ensures value { result ≡ value align_value self.old }
        ensures state { self.new ≡ past align_value self.old }
    {
        self.name(&TEXT_ALIGNS, TextAlign::Left) as i32
    }

    /// What the line says, if this was its last field.
    pub(crate) fn end(&self, made: Line<'a>) -> Result<Line<'a>, LineFault>
        ensures { result ≡ ended (fields made.entry self.now) }
    {
        if next_word(self.rest).is_some() {
            return Err(LineFault::Syntax);
        }
        match self.fault {
            None => Ok(made),
            Some(fault) => Err(fault),
        }
    }

    /// What a question asks, if this was its last field: None if it is at fault.
    pub(crate) fn whole<T: Copy>(&self, made: T) -> Option<T>
        ensures { result ≡ said_or_none (ended (fields made self.now)) }
    {
        if next_word(self.rest).is_some() || self.fault.is_some() {
            return None;
        }
        Some(made)
    }

    /// The next word, or the empty one if there is none.
    fn word(&mut self) -> &'a [u8]
        ensures word { result.now ≡ next_of self.old.rest }
        ensures state { self.new ≡ record { fault = self.old.fault; rest = after_next self.old.rest } }
    {
        match next_word(self.rest) {
            None => b"",
            Some((word, rest)) => {
                self.rest = rest;
                word
            }
        }
    }

    /// What a field says. If it is at fault, the fault is noted, and the stand-in is answered.
    fn note<T: Copy>(&mut self, said: Result<T, LineFault>, stand_in: T) -> T
        ensures value { result ≡ value_or stand_in said }
        ensures state { self.new ≡ record { fault = with_fault self.old.fault said; rest = self.old.rest } }
    {
        match said {
            Ok(value) => value,
            Err(fault) => {
                self.fail(fault);
                stand_in
            }
        }
    }

    /// Notes the fault of a field.
    fn fail(&mut self, fault: LineFault)
        ensures { self.new ≡ record {
          fault = with_fault {A = Unit} self.old.fault (Err fault);
          rest = self.old.rest;
        } }
    {
        self.fault = Some(match self.fault {
            None => fault,
            Some(first) => first_fault(first, fault),
        });
    }
}

/// The first of two faults in the order long, syntax, range.
fn first_fault(first: LineFault, second: LineFault) -> LineFault
    ensures { result ≡ first_fault first second }
{
    match (first, second) {
        (LineFault::Long, _) | (_, LineFault::Long) => LineFault::Long,
        (LineFault::Syntax, _) | (_, LineFault::Syntax) => LineFault::Syntax,
        (LineFault::Range, LineFault::Range) => LineFault::Range,
    }
}
