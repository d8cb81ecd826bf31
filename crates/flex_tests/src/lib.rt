//! Tests over the public calls of flex.
#![tactic(auto)]

#[cfg(test)]
mod flex;
