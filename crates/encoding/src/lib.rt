// A trace as bytes: what the encoding is, that it and reading are each other's inverse, and that every
// settling of an accepted body is a body. There is no code: it is what is claimed of records and bodies.
#![tactic(auto)]
