// Feeds in moles and by mass, books of versions 1 to 3: laws of the whole call; no code.
#![tactic(auto)]
