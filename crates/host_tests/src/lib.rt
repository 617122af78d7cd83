//! Tests of what no script reaches: what hosts are refused, scripts, words and streams, the orders of hierarchies, the ends
//! of `serve`, that sessions run at once, and that what a seat publishes is found.
#![tactic(auto)]

#[cfg(test)]
mod orders;
#[cfg(test)]
mod refusals;
#[cfg(test)]
mod scripts;
#[cfg(test)]
mod sessions;
#[cfg(test)]
mod streams;
#[cfg(test)]
mod tops;
#[cfg(test)]
mod viewed;
mod views;
