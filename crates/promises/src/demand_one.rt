// Laws only: demand 1 as one theorem over every call that can refuse, and which numbers each can give. The statements stand in
// specs/demand_one.
