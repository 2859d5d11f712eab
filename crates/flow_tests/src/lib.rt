//! Tests of the flow of values, over bodies whose carried sources were written down beforehand. There is nothing else in it.
#![tactic(auto)]

#[cfg(test)]
mod bodies;
#[cfg(test)]
mod build;
#[cfg(test)]
mod depths;
#[cfg(test)]
mod tests;
