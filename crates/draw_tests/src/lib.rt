//! Tests over the public calls that draw into a buffer, against pixels that were worked out by hand.
#![tactic(auto)]

#[cfg(test)]
mod areas;
#[cfg(test)]
mod canvas;
#[cfg(test)]
mod checks;
#[cfg(test)]
mod images;
#[cfg(test)]
mod rows;
#[cfg(test)]
mod slices;
#[cfg(test)]
mod texts;
