// Figure 2 with a new block each time, its invariant, paths and counts: theory only.
#![tactic(auto)]
