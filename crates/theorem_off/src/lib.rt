// Theorems only: an increment that leaves the screen is told in the code field of what it draws, and nowhere else. What they say stands in `specs/`.

#![tactic(auto)]
