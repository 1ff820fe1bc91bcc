// The theorems about the definitions of `meaning`. No function stands here; the theorems are in specs/.
#![tactic(auto)]
