// Pure theory: runs on fair networks, computed. All of it stands in specs/.
#![tactic(auto)]
