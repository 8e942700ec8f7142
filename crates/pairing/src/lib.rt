// Which helper pairs the search finds, and that it finds some exactly where the nets can be joined: Search in specs/, laws in
// proofs/. There is no code.
#![tactic(auto)]
