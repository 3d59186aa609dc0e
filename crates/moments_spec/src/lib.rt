// When each call of a session took effect, as text: definitions in specs/, and the theorem that the printed order is a linearization.
#![tactic(auto)]
