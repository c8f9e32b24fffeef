// Laws only: demand 3 as one theorem of the four searches, its premises in its own words. The statements stand in specs/demand_three.
