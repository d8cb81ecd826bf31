//! Tests over the reader of scenes in JSON.
#![tactic(auto)]

#[cfg(test)]
mod scenes;
