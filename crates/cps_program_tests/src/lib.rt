//! Worked runs of the whole program over a source and a sink in memory: for each list of words and each input the exit,
//! whether there is an outcome, and every byte that is written. All code here is tests: they stand apart, so that the crate
//! they call is proved once.
#![tactic(auto)]

#[cfg(test)]
mod answers;
#[cfg(test)]
mod generated;
#[cfg(test)]
mod hostile;
#[cfg(test)]
mod known_answers;
#[cfg(test)]
mod logs;
#[cfg(test)]
mod running;
#[cfg(test)]
mod workers;
