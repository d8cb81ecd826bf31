//! Questions of a host: comments of the language that ask something of the machine.
ghost use Rattle.std.specs.Prelude.{◌≡◌, option_map};
ghost use Rattle.run_defs.specs.Language.{words_of};
ghost use Rattle.scene_script.specs.Questions.{asked_in, question_said, question_fields};
ghost use Rattle.scene_script.specs.Questions.{QuestionsSayNothing};

use crate::fields::Fields;
use crate::words::next_word;
use gui_base::intervals::{COORDINATE, GROUP};
use gui_base::words::PARTS;
use gui_base::{Handle, Part, Pool, Prop, named};

/// What is asked of one object.
#[derive(Clone, Copy)]
pub enum Fact {
    /// The value of a bar or a slider.
    Value,
    /// The set of its states, as a number.
    States,
    /// The set of its flags, as a number.
    Flags,
    /// Its text, between quotes as in a script.
    Text,
    /// Where it stands on the panel: the first and the last column and line, as left, top, right and bottom.
    Place,
    /// What is seen of it, told in the same way.
    Visible,
    /// How far its children are moved, to the left and upward.
    Offset,
    /// How far its children reach out of its content area, across and down.
    Reach,
}

/// A question.
#[derive(Clone, Copy)]
pub enum Question {
    /// A fact about an object.
    Of(Fact, Handle),
    /// The value of a property of a part of an object, in the states that it is in.
    Property(Handle, Part, Prop),
    /// The children of an object, in their order.
    Children(Handle),
    /// The screen that is shown.
    Active,
    /// Which object a press at a pixel hits.
    Hit(i32, i32),
    /// The object of a group that has the focus.
    Focused(u8),
    /// The time in milliseconds.
    Time,
    /// How many slots of a pool are in use, or of each of them.
    Used(Option<Pool>),
    /// How many pixels are pending, those of each listed area by themselves.
    Pending,
}

/// The name of a question.
#[derive(Clone, Copy)]
pub enum QuestionName {
    Of(Fact),
    Property,
    Children,
    Active,
    Hit,
    Focused,
    Time,
    Used,
    Pending,
}

/// The names of all questions.
pub const QUESTIONS: [(&'static str, QuestionName); 16] = [
    ("value", QuestionName::Of(Fact::Value)),
    ("states", QuestionName::Of(Fact::States)),
    ("flags", QuestionName::Of(Fact::Flags)),
    ("text", QuestionName::Of(Fact::Text)),
    ("place", QuestionName::Of(Fact::Place)),
    ("visible", QuestionName::Of(Fact::Visible)),
    ("offset", QuestionName::Of(Fact::Offset)),
    ("reach", QuestionName::Of(Fact::Reach)),
    ("property", QuestionName::Property),
    ("children", QuestionName::Children),
    ("active", QuestionName::Active),
    ("hit", QuestionName::Hit),
    ("focused", QuestionName::Focused),
    ("time", QuestionName::Time),
    ("used", QuestionName::Used),
    ("pending", QuestionName::Pending),
];

/// What a line asks, if it begins as a question does: the bytes behind `#?`. Such a line is a comment.
pub fn asked_in(line: &[u8]) -> Option<&[u8]>
    ensures { option_map (λ words. words.now) result ≡ asked_in line.now }
{
    match line {
        [b'#', b'?', words @ ..] => Some(words),
        _ => None,
    }
}

/// The question that these words ask, or None if they are no question.
#[tactic(auto, unfolding(crate::specs::Questions::question_said))]
pub fn read_question(words: &[u8]) -> Option<Question>
    ensures { result ≡ question_said (words_of words.now) }
{
    let (name, words) = next_word(words)?;
    let name = named(&QUESTIONS, name)?;
    let mut fields = Fields::new(words);
    let question = question_by(name, &mut fields);
    fields.whole(question)
}

/// The question of a name and its fields.
fn question_by(name: QuestionName, line: &mut Fields) -> Question
    ensures made { result ≡ (question_fields name line.old).made }
    ensures state { line.new ≡ (question_fields name line.old).at }
{
    match name {
        QuestionName::Of(fact) => Question::Of(fact, line.handle()),
        QuestionName::Property => Question::Property(
            line.handle(),
            line.name(&PARTS, Part::Main),
            line.property(),
        ),
        QuestionName::Children => Question::Children(line.handle()),
        QuestionName::Active => Question::Active,
        QuestionName::Hit => Question::Hit(line.number(COORDINATE), line.number(COORDINATE)),
        QuestionName::Focused => Question::Focused(line.small(GROUP)),
        QuestionName::Time => Question::Time,
        QuestionName::Used => Question::Used(line.pools()),
        QuestionName::Pending => Question::Pending,
    }
}

/// A law, of which nothing is computed: a question is a comment, so that it says nothing.
#[tactic(auto, using(crate::proofs::QuestionLemmas::question_says_nothing))]
pub fn questions_say_nothing()
    ensures { QuestionsSayNothing }
{}
