// The pool gives the events of the figure, and the theorems about the cells: theory only.
#![tactic(auto)]
