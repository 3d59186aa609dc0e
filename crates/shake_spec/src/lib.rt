// What the shaker draws and prints: definitions, and what is proved of the sessions drawn.
#![tactic(auto)]
