// Operations on any generator matrix and the run over a code sheet for programs in C and other languages; bindings/relaymarten.h declares
// them, so that n, k and rows, and the lent lists, are parameters of their own. A list passes as pointer and length. A call that may refuse
// returns 0 or 01's number, and writes the value beside it through its last parameter; what it gives besides is 0 on a refusal.
#![tactic(auto)]

pub mod codes; // Describe, the leaders, Encode, Message, Decode
pub mod sheets; // the run over a code sheet
pub mod version; // the version of the interface
