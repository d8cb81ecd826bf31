//! Tests over the reader of fonts.
#![tactic(auto)]

#[cfg(test)]
mod fonts;
