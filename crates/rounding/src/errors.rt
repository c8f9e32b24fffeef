// Laws only: how near one rounded operation comes to the exact value. No code.
