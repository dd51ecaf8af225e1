// What follows from the listing's definition: no listing is longer than 22,998 bytes. Theorems only.
#![tactic(auto)]
