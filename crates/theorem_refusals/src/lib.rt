// Theorems only: a refusal alters nothing, and advancing never stores. What they say stands in `specs/`.

#![tactic(auto)]
