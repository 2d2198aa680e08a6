//! Lemmas on orders, lists of a set, irreducible elements and stages, each proved once for the engines.
//! It has no call: its one contract is that its lemmas hold, and they speak of the definitions of nz_spec and of its own specs/.
//! Below it stands nz_spec alone.
//! The crates that sort, search, reduce, insert rows or take vectors apart use it.
//! Start with docs/ORDER_LEMMAS.md, which lists what is cited, then specs/Totals.antt and proofs/IrreducibleLaws.antt.
#![tactic(auto)]
