//! Tests of runs, of what no contract says: rows of words and input with what a run of them writes, says and returns, over
//! devices in memory, which fail, move few bytes, count their calls or refuse memory. What only the built program shows is in
//! the scripts of `tests/`.
#![tactic(auto)]

#[cfg(test)]
mod alternatives;
#[cfg(test)]
mod blocks;
#[cfg(test)]
mod counts;
#[cfg(test)]
mod device_faults;
#[cfg(test)]
mod devices;
#[cfg(test)]
mod limits;
#[cfg(test)]
mod lines;
#[cfg(test)]
mod made;
#[cfg(test)]
mod near;
#[cfg(test)]
mod refused_growths;
// its proofs are by hand, and a crate's proofs are read without its tests too
mod refusing;
#[cfg(test)]
mod runs;
#[cfg(test)]
mod solutions;
#[cfg(test)]
mod std_streams;
#[cfg(test)]
mod tables;
#[cfg(test)]
mod usage;
