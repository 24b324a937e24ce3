//! Tests of calls of the lower libraries, of what no contract says: values from outside, counts of looks and tries, and
//! memory that is refused.
#![tactic(auto)]

#[cfg(test)]
mod bad_pieces;
#[cfg(test)]
mod checks;
#[cfg(test)]
mod coordinates;
#[cfg(test)]
mod cubes;
#[cfg(test)]
mod examples;
#[cfg(test)]
mod farthest;
#[cfg(test)]
mod generator;
#[cfg(test)]
mod memory;
#[cfg(test)]
mod pairs;
#[cfg(test)]
mod path_sinks;
#[cfg(test)]
mod pieces;
#[cfg(test)]
mod reading;
#[cfg(test)]
mod rewriting;
#[cfg(test)]
mod scan;
#[cfg(test)]
mod searches;
#[cfg(test)]
mod shown_cubes;
#[cfg(test)]
mod steps;
#[cfg(test)]
mod ways;
