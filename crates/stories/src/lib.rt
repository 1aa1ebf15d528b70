//! Tests over several layers: levels under edit, and linkings over piles of sources.

#![tactic(auto)]

#[cfg(test)]
mod everybody;
#[cfg(test)]
mod levels;
#[cfg(test)]
mod linkings;
