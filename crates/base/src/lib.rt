// What every reader and every loop here is made of: definitions and their laws, in specs/. No function stands here.
#![tactic(auto)]
