// Small runs under each rule and over each book, with accounts worked out by hand.
#![tactic(auto)]

#[cfg(test)]
mod refusals;
#[cfg(test)]
mod runs;
#[cfg(test)]
mod steps;
