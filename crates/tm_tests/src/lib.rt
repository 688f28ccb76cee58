//! Tests of what no contract and no row of `rows/` says. A crate with tests is proved twice, so they stand
//! here, in a crate that has nothing else.
#![tactic(auto)]

#[cfg(test)]
mod automata;
#[cfg(test)]
mod devices;
#[cfg(test)]
mod evidence;
#[cfg(test)]
mod layouts;
#[cfg(test)]
mod lines;
#[cfg(test)]
mod long_values;
#[cfg(test)]
mod marks;
#[cfg(test)]
mod matches;
#[cfg(test)]
mod runs;
#[cfg(test)]
mod words;
#[cfg(test)]
mod worlds;
