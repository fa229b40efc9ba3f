//! How soon the net of a program passes what the program passes: in `longest` sweeps for each round.
#![tactic(auto)]
