//! A session whose port is played with a log beside its journal has one run and one log, whatever is logged there.
#![tactic(auto)]
