// What nudge prints: definitions, in specs/, and what an exchange of neighbours leaves as it was, in proofs/.
#![tactic(auto)]
