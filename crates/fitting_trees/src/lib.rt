//! Fitting trees: which types stand where in a typed tree, by places (SISAL Language Reference
//! Manual 1.2, expressions).
#![tactic(auto)]
