//! Tests over the public calls of the list of pending areas and of the refresher.
#![tactic(auto)]

#[cfg(test)]
mod checking;
#[cfg(test)]
mod list;
#[cfg(test)]
mod lit;
#[cfg(test)]
mod pump;
#[cfg(test)]
mod refresh;
#[cfg(test)]
mod rounding;
#[cfg(test)]
mod stage;
