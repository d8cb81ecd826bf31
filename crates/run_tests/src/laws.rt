//! The laws of the language, called at a concrete type.

use gui_base::Handle;
use run_defs::{carriage_returns_say_nothing, lines_hold_no_stand_in, same_words_say_the_same};

#[test]
fn laws_of_the_language_are_called(_rt: HostRuntime) {
    lines_hold_no_stand_in::<Handle>();
    carriage_returns_say_nothing();
    same_words_say_the_same();
}
