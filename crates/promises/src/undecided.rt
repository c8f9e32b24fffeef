// Laws only: what the three answers of a cone test say. No code.
