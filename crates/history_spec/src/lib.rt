// Histories of calls, the sequential specification, and what a right linearization is: theory only.
#![tactic(auto)]
