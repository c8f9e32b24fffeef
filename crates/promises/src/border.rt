// The twelve border rows of document 01, proved as one table. No code: see specs/border/Rows.antt for the table and proofs/border/Rows.antt
// for its proof.
