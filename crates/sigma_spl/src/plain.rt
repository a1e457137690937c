// What terms in phases do to a list, by their definition: slow, to compare fast programs with.
mod parts;
mod terms;
mod works;
