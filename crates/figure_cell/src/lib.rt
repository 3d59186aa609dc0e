// One cell of figure 2 with a new block each time: its memory, its invariant, and which lines follow which: theory only.
#![tactic(auto)]
