//! How large the numbers are that an engine forms: measures of vectors and forms, and why small ones never leave the type.
//! It has no call: its one contract is that its lemmas hold, and they speak of the definitions of its own specs/.
//! Below it stand the room of an integer type (nz_scalar), and the sums of products and the combinations of rows (nz_vec).
//! The engines use it to give each Range its cause.
//! Start with specs/Measures.antt, then proofs/Fits.antt.
#![tactic(auto)]
