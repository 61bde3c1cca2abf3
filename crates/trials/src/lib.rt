// Trials of entering nodes and of reading texts: calls, and what each has to answer, worked out by hand.
#![tactic(auto)]

#[cfg(test)]
mod cutter;
#[cfg(test)]
mod enter;
#[cfg(test)]
mod long;
#[cfg(test)]
mod read;
#[cfg(test)]
mod room;
#[cfg(test)]
mod shared;
