// Laws only: what the contracts of the calls allow, as one type, and that each allows what its definition makes. The statements stand in
// specs/allowed.
