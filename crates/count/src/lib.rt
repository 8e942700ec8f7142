// Laws of Booleans, orders, sums and first elements, with no geometry. All of it is in specs/; there is no code.
#![tactic(auto)]
