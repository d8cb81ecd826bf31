//! Tests over the public calls of fonts, texts and images. Tests have crates of their own, so that each crate
//! is proved once, and are cheap to prove only if they are few.
#![tactic(auto)]

#[cfg(test)]
mod checks;
#[cfg(test)]
mod fonts;
#[cfg(test)]
mod images;
#[cfg(test)]
mod texts;
