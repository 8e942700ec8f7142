// What keeps a session of the list machine sound. No code.
#![tactic(auto)]
