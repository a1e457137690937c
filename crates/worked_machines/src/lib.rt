//! Worked examples of programs on machines: runs, turns, store buffers, traces, checks, counts. There are only tests here.
#![tactic(auto)]

#[cfg(test)]
mod checks;
#[cfg(test)]
mod lines;
#[cfg(test)]
mod machines;
#[cfg(test)]
mod programs;
#[cfg(test)]
mod queues;
#[cfg(test)]
mod same;
#[cfg(test)]
mod ways;
#[cfg(test)]
mod weights;
