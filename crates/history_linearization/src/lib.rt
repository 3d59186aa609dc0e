// By which laws the points that a machine names linearize its history, whatever the machine: theory only.
#![tactic(auto)]
