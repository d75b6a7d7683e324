//! The rules by which Java accepts statements and whole bodies, as definitions (JLS 14).
//! It stands on `dj_typing` for the rules on expressions, and on `dj_reach`, `dj_assigned` and `dj_thrown` for the other rules on bodies.
//! The layers above check these rules.
#![tactic(auto)]
