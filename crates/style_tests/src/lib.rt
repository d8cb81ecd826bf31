//! Tests over the public calls of styles.
#![tactic(auto)]

#[cfg(test)]
mod checks;
#[cfg(test)]
mod styles;
