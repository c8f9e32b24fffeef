// Laws only: what rule 2 takes, rule 1 takes as well, with equal answers. The theorems stand in specs/rules/Rules.
