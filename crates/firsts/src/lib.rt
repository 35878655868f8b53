//! The first number at which a test holds: one definition and its lemmas, for contracts that say "the first .. such that ..".
#![tactic(auto)]
