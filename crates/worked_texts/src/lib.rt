//! Worked texts: request lines, command lines, listings, formulas, certificates, data and small calls whose answers are known from outside. There are only tests here.
#![tactic(auto)]

#[cfg(test)]
mod c_texts;
#[cfg(test)]
mod certificates;
#[cfg(test)]
mod contexts;
#[cfg(test)]
mod edges;
#[cfg(test)]
mod factors;
#[cfg(test)]
mod formulas;
#[cfg(test)]
mod kernels;
#[cfg(test)]
mod listings;
#[cfg(test)]
mod merging;
#[cfg(test)]
mod places;
#[cfg(test)]
mod plans;
#[cfg(test)]
mod products;
#[cfg(test)]
mod requests;
#[cfg(test)]
mod same;
#[cfg(test)]
mod stages;
#[cfg(test)]
mod streams;
#[cfg(test)]
mod values;
#[cfg(test)]
mod words;
