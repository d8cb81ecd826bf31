//! Tests of animations, input devices, handlers and focus groups, over their public calls.
#![tactic(auto)]

#[cfg(test)]
mod animations;
#[cfg(test)]
mod checks;
#[cfg(test)]
mod focus;
#[cfg(test)]
mod handlers;
#[cfg(test)]
mod presses;
