// Refusals, by the numbers that users know them by.
#![tactic(auto)]
