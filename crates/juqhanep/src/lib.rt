//! Members of groups, for programs in C and for what calls C: each call is one of the crate `peer_handle`.
#![tactic(auto)]

mod exports;
