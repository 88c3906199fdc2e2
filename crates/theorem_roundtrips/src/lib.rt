// Theorems only: what is written comes back, and the two ways to bring an image into a unit. What they say stands in `specs/`.

#![tactic(auto)]
