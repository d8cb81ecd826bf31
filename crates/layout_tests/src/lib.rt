//! Tests over the public calls of layout.
#![tactic(auto)]

#[cfg(test)]
mod places;
