// Laws only: any two outcomes that the contract of an export allows are the same.
