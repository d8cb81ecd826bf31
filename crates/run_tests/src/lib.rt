//! Tests of whole runs over a panel that lists what it is asked to start, with failing calls on the outside and
//! on a bus. They also try what each frame sends, what a viewer gets in pieces, and the laws of the language.
#![tactic(auto)]

#[cfg(test)]
mod buses;
#[cfg(test)]
mod faults;
#[cfg(test)]
mod frames;
#[cfg(test)]
mod last_slots;
#[cfg(test)]
mod laws;
#[cfg(test)]
mod made;
#[cfg(test)]
mod panels;
#[cfg(test)]
mod running;
#[cfg(test)]
mod scenes;
#[cfg(test)]
mod sessions;
