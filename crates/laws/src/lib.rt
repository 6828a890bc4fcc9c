// Pure theory: laws that several crates cite. All of it stands in specs/.
#![tactic(auto)]
