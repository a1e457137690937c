//! Worked examples over the whole program: answers that are known from outside. There are only tests here.
#![tactic(auto)]

#[cfg(test)]
mod buffers;
#[cfg(test)]
mod call;
#[cfg(test)]
mod convolutions;
#[cfg(test)]
mod formulas;
#[cfg(test)]
mod inverses;
#[cfg(test)]
mod listings;
#[cfg(test)]
mod rows;
#[cfg(test)]
mod samples;
#[cfg(test)]
mod several;
#[cfg(test)]
mod strangers;
#[cfg(test)]
mod streams;
