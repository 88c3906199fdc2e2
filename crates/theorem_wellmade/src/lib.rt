// Theorems only: every call leaves a well-made device, and what its number of cursor bits tells. What they say stands in `specs/`.

#![tactic(auto)]
