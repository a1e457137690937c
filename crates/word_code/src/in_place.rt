// Passes in place: arrays of a program on words are shared, where each load still finds its words.
mod homes;
pub mod laws;
mod places;
mod reroute;
mod routes;
mod routing;
mod share;
mod walk;

pub use share::work_in_place;
