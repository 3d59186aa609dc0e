// The moments of figure 2's calls, and the simulation that they come from: theory only.
#![tactic(auto)]
