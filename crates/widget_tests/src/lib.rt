//! Tests over the public calls of widgets, and of the texts that they show.
#![tactic(auto)]

#[cfg(test)]
mod checks;
#[cfg(test)]
mod texts;
#[cfg(test)]
mod widgets;
