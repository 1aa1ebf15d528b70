//! Tests of the checks of files and surveys at their edges.

#![tactic(auto)]

#[cfg(test)]
mod files;
#[cfg(test)]
mod surveys;
