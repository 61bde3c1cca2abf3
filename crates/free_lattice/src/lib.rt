// The mathematics of the worksheet: the terms of lattice theory, lattices, and the values of terms in them.
#![tactic(auto)]
