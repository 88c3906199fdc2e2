// Theorems only: the bound on jump's steps loses nothing. What they say stands in `specs/`.

#![tactic(auto)]
